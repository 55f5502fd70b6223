//! The lists of faults.
ghost use Rattle.std.specs.Prelude.{◌≡◌, ◌<◌, ◌≤◌, ◌++◌, ◌∷◌, [], Ok, Err, IfOk, IfErr, IfSome, IfNone};
ghost use Rattle.ro_faults.specs.declared.errors.FaultsError.TheVariants.{Bad};
ghost use Rattle.ro_faults.specs.Texts.{refuses, end_faults, file_faults, line_fault, faults_text, counted};

use crate::Fault;
use crate::errors::{FaultsCode, FaultsError};
use crate::lines::{fault_text, read_fault};
use ro_text::first_line;
use std::alloc::{AllocError, Global};

/// How many lines a list may have.
const MOST_LINES: u32 = 256;

/// Reads a list of faults for a run of so many replicas: a line `R T N reg X B`, `R T N pc B` or `R T N mem A B` for each
/// fault, of numbers in decimal between single spaces, with a line feed at its end. Nothing behind a bad line is read.
///
/// # Errors
/// The number of the first bad line and what is bad in it, or `NoMemory`.
pub fn read_faults(alloc: Global, bytes: &[u8], replicas: u32) -> Result<Vec<Fault>, FaultsError>
    requires { 0 < replicas }
    ensures read { IfOk result (λ faults. file_faults replicas bytes.now ≡ Ok faults.items) }
    ensures refused { IfErr result (λ error. refuses error (file_faults replicas bytes.now)) }
{
    let mut faults = Vec::new(alloc);
    let mut rest = bytes;
    let mut line = 1;
    while let Some((text, behind)) = first_line(rest) {
        match read_line(text, line, replicas) {
            Ok(fault) => faults.push(fault).map_err(AllocError::from)?,
            Err(code) => return Err(FaultsError::Bad { line, code }),
        }
        rest = behind;
        line += 1;
    }
    match end_code(rest, line) {
        None => Ok(faults),
        Some(code) => Err(FaultsError::Bad { line, code }),
    }
}

// The fault of the line of this number.
fn read_line(text: &[u8], line: u32, replicas: u32) -> Result<Fault, FaultsCode>
    requires { 0 < replicas }
    ensures few { IfOk result (λ fault. line ≤ 256) }
    ensures read { result ≡ counted line (line_fault replicas text.now) }
{
    if line <= MOST_LINES {
        read_fault(text, replicas)
    } else {
        Err(FaultsCode::Count)
    }
}

// What is bad in what stands behind the last line feed, in the line of this number.
fn end_code(rest: &[u8], line: u32) -> Option<FaultsCode>
    ensures none { IfNone result (end_faults line rest.now ≡ Ok []) }
    ensures some { IfSome result (λ code. end_faults line rest.now ≡ Err (Bad line code)) }
{
    if rest.is_empty() {
        None
    } else if line <= MOST_LINES {
        Some(FaultsCode::Form)
    } else {
        Some(FaultsCode::Count)
    }
}

/// The lines of faults.
///
/// # Errors
/// Memory can run out.
pub fn write_faults(alloc: Global, faults: &[Fault]) -> Result<Vec<u8>, AllocError>
    ensures { IfOk result (λ bytes. bytes.items ≡ faults_text faults.now) }
{
    let mut bytes = Vec::new(alloc);
    for fault in faults {
        bytes.extend_from_slice(fault_text(fault).as_bytes())?;
    }
    Ok(bytes)
}
