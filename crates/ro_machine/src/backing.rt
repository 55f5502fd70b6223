//! An instruction over pages that are backed as they are touched.
ghost use Rattle.std.specs.Prelude.{ℕ, ◌≡◌, ◌^◌, ◌<◌, false, IfOk, OnErr, OnOk, ◌==◌, ◌||◌};
ghost use Rattle.ro_pages.specs.Held.{memory_of, has_page};
ghost use Rattle.ro_exec.specs.Next.{all_backed, next};
ghost use Rattle.ro_exec.specs.Steps.{IsStep};
ghost use Rattle.ro_machine.specs.Pages.{fault_of};
ghost use Rattle.ro_region.specs.Permission.{ranges_of};

use ro_event::{CallTable, Stop};
use ro_exec::{Cpu, Step, step};
use ro_pages::Pages;
use ro_region::Regions;
use std::alloc::AllocError;

/// Executes the next instruction of a thread, or says at which stop the thread stands. A page that it needs is backed.
///
/// # Errors
/// Where there is no memory for a page; no byte and no register has changed then.
pub(crate) fn execute(
    cpu: &mut Cpu,
    pages: &mut Pages,
    regions: &Regions,
    calls: &CallTable,
) -> Result<Step, AllocError>
    ensures step { IfOk result (λ step. IsStep (next (record { ranges = ranges_of regions.now; calls = calls.now }) all_backed (memory_of pages.old.pages) cpu.old) step cpu.old cpu.new (memory_of pages.old.pages) (memory_of pages.new.pages)) }
    ensures cpu { OnErr result (cpu.new ≡ cpu.old) }
    ensures memory { OnErr result (memory_of pages.new.pages ≡ memory_of pages.old.pages) }
{
    loop {
        let done = step(cpu, pages, regions, calls);
        match page_fault(&done) {
            Some(page) => back(pages, page)?,
            None => return Ok(done),
        }
    }
}

/// The page that is not backed, if that is why a thread stands.
fn page_fault(step: &Step) -> Option<u32>
    ensures { result ≡ fault_of step.now }
{
    match step {
        Step::Stopped(Stop::PageFault(page)) => Some(*page),
        _ => None,
    }
}

/// Backs a page with zeros; no byte changes.
fn back(pages: &mut Pages, page: u32) -> Result<(), AllocError>
    requires page { page < 2 ^ 20 }
    requires unbacked { has_page pages.old.pages page ≡ false }
    ensures bytes { memory_of pages.new.pages ≡ memory_of pages.old.pages }
    ensures backed { OnOk result ((other : ℕ) → has_page pages.new.pages other ≡ ((other == page) || has_page pages.old.pages other)) }
{
    pages.reserve(1)?;
    pages.back(page);
    Ok(())
}
