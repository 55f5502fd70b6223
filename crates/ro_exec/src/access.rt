//! Whether a load or a store may be done.
ghost use Rattle.std.specs.Prelude.{◌≡◌, ◌/◌, ◌%◌, true, IfOk, MatchResult, Some, None};
ghost use Rattle.ro_pages.specs.Bytes.{IsSize};
ghost use Rattle.ro_exec.specs.Next.{access_stop};
ghost use Rattle.ro_region.specs.Permission.{ranges_of};

use ro_event::{Stop, TrapCause};
use ro_limits::PAGE_SIZE;
use ro_pages::Memory;
use ro_region::{Kind, Regions};

/// Lets an access of 1, 2 or 4 bytes through, or says at which stop the thread stands: a trap where the address is
/// misaligned or a byte is forbidden, a page fault where the page is not backed.
#[inline(always)]
pub fn check_access<M: Memory>(
    memory: &M,
    regions: &Regions,
    kind: Kind,
    address: u32,
    size: u32,
    misaligned: TrapCause,
    forbidden: TrapCause,
) -> Result<(), Stop>
    requires { IsSize size }
    ensures stop { MatchResult result (λ _. access_stop (ranges_of regions.now) (M.backing memory.now) kind (record { place = address; count = size }) misaligned forbidden ≡ None) (λ stop. access_stop (ranges_of regions.now) (M.backing memory.now) kind (record { place = address; count = size }) misaligned forbidden ≡ Some stop) }
    ensures may { IfOk result (λ _. (address % size ≡ 0) × (M.backing memory.now (address / 4096) ≡ true)) }
{
    if address % size != 0 {
        return Err(Stop::Trap(misaligned));
    }
    if !regions.permits(address, size, kind) {
        return Err(Stop::Trap(forbidden));
    }
    if !memory.backed(address / PAGE_SIZE) {
        return Err(Stop::PageFault(address / PAGE_SIZE));
    }
    Ok(())
}
