//! Places and variables of a program, with what its executable and its memory say of them.
use ro_assembly::{address_touched, instruction_text};
use ro_audit::{AuditCore, Trail};
use ro_event::{Stop, TrapCause, View};
use ro_findings::{Instruction, Mapped, Place, Symbol, Variable};
use ro_image::{Within, function_at, object_at};
use ro_kernel::MAPPED_END;
use ro_limits::MAPPED_START;
use ro_region::Range;
use std::alloc::{AllocError, Global};

/// The place of a pc.
pub(crate) fn place_at(alloc: Global, executable: &[u8], pc: u32) -> Result<Place, AllocError> {
    let function = named(alloc, function_at(executable, pc))?;
    Ok(Place { pc, function })
}

/// The variable at an address.
pub(crate) fn variable_at(
    alloc: Global,
    executable: &[u8],
    address: u32,
) -> Result<Variable, AllocError> {
    let object = named(alloc, object_at(executable, address))?;
    Ok(Variable { address, object })
}

// A symbol that holds an address, if it has a name.
fn named(alloc: Global, within: Option<Within<'_>>) -> Result<Option<Symbol>, AllocError> {
    match within {
        Some(within) if !within.name.is_empty() => Ok(Some(Symbol {
            name: printable(alloc, within.name)?,
            offset: within.offset,
        })),
        _ => Ok(None),
    }
}

// A symbol's name as a text: a byte that is no printable ASCII is `?`.
fn printable(alloc: Global, name: &[u8]) -> Result<String, AllocError> {
    let mut text = String::new(alloc);
    for byte in name {
        let shown = match *byte {
            33..=126 => char::from(*byte),
            _ => '?',
        };
        text.push(shown)?;
    }
    Ok(text)
}

/// The instruction where a view stands, by its word in the memory of the first replica. None where that can't be read, and where
/// the thread trapped before it was fetched.
pub(crate) fn instruction_at<C: AuditCore>(
    alloc: Global,
    trail: &Trail<C>,
    view: &View,
) -> Result<Option<Instruction>, AllocError> {
    if is_unfetched(view.stop()) {
        return Ok(None);
    }
    let given = trail.core().kernel().regions().given();
    match word_at(trail, view.pc()) {
        Some(word) => {
            let touched = address_touched(word, view.registers());
            Ok(Some(Instruction {
                word,
                text: instruction_text(alloc, word, view.pc())?,
                touched,
                mapped: touched.and_then(|address| mapped_at(given, address)),
            }))
        }
        None => Ok(None),
    }
}

// The memory that was given on demand, the oldest range first, in which an address lies, or behind which.
fn mapped_at(given: &[Range], address: u32) -> Option<Mapped> {
    if !(MAPPED_START..MAPPED_END).contains(&address) {
        return None;
    }
    let mut mapped = None;
    for range in given {
        let end = range.start.saturating_add(range.length);
        mapped = Some(Mapped {
            start: range.start,
            end,
            behind: address.checked_sub(end),
        });
        if range.contains(address) {
            break;
        }
    }
    mapped
}

// Whether a trap is that of a pc at no multiple of 4, or of a fetch that is not permitted.
fn is_unfetched(stop: &Stop) -> bool {
    matches!(
        stop,
        Stop::Trap(TrapCause::MisalignedPc | TrapCause::ForbiddenFetch)
    )
}

// A word of the first replica's memory.
fn word_at<C: AuditCore>(trail: &Trail<C>, address: u32) -> Option<u32> {
    trail.core().replica(0)?.word(address)
}
