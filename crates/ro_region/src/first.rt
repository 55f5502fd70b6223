//! The ranges that stand from the opening on, and their windows.
ghost use Rattle.std.specs.Prelude.{ℕ, ◌≡◌, ◌^◌, ◌<◌, IfOk};
ghost use Rattle.ro_region.specs.Windows.{IsOpen};

use crate::windows::{Window, Windows};
use crate::{Kind, Range};
use std::alloc::{AllocError, Global};
use std::marker::Model;

/// Ranges of addresses, with windows that answer for most accesses without a look at the ranges.
#[derive(Drop)]
pub struct FirstRegions {
    ranges: Vec<Range>,
    read: Windows,
    write: Windows,
    execute: Windows,
}

impl Model for FirstRegions {
    ghost use Rattle.std.specs.Prelude.{List};
    ghost use Rattle.ro_region.specs.declared.Range.{Range};
    ghost use Rattle.ro_region.specs.declared.Kind.TheVariants.{Read, Write, Execute};
    ghost use Rattle.ro_region.specs.Windows.{AreAll};

    ghost Value = { List Range };

    ghost view = { λ s. s.ranges.items };

    ghost invariant = { λ s. AreAll s.ranges.items Read s.read.firsts.items s.read.windows.items × AreAll s.ranges.items Write s.write.firsts.items s.write.windows.items × AreAll s.ranges.items Execute s.execute.firsts.items s.execute.windows.items };
}

impl FirstRegions {
    /// The regions of these ranges. It fails only for want of memory.
    pub fn new(alloc: Global, list: &[Range]) -> Result<FirstRegions, AllocError>
        ensures { IfOk result (λ regions. regions ≡ list.now) }
    {
        let ranges = list.to_vec(alloc)?;
        let read = Windows::new(alloc, list, Kind::Read)?;
        let write = Windows::new(alloc, list, Kind::Write)?;
        let execute = Windows::new(alloc, list, Kind::Execute)?;
        Ok(FirstRegions {
            ranges,
            read,
            write,
            execute,
        })
    }

    /// The window of a page.
    #[inline(always)]
    pub fn window(&self, page: u32, kind: Kind) -> Window
        requires { page < 2 ^ 20 }
        ensures { IsOpen self.now kind page result }
    {
        match kind {
            Kind::Read => self.read.at(page),
            Kind::Write => self.write.at(page),
            Kind::Execute => self.execute.at(page),
        }
    }

    /// The ranges.
    pub fn ranges(&self) -> &[Range]
        ensures { result.now ≡ self.now }
    {
        self.ranges.as_slice()
    }
}
