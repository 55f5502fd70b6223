//! All ranges together: those that stand from the opening on, and those that were given since.
ghost use Rattle.std.specs.Prelude.{ℕ, ◌≡◌, ◌+◌, ◌-◌, ◌*◌, ◌%◌, ◌^◌, ◌<◌, ◌≤◌, ◌∷◌, [], true, IsTrue, IfOk, length, reverse};
ghost use Rattle.std.specs.Arc.{arc_value};
ghost use Rattle.ro_region.specs.Permission.{is_writable, lies_in_range, permits_byte, permits_each, permits_of, ranges_of};
ghost use Rattle.ro_region.specs.Windows.{IsOpen};

use crate::first::FirstRegions;
use crate::grants::{Grant, grant_range, none_granted, window as granted_window};
use crate::windows::{Window, is_met};
use crate::{Kind, Range};
use ro_limits::{MAPPED_PAGES, PAGE_SIZE};
use std::alloc::{AllocError, Global};
use std::marker::Model;
use std::sync::Arc;

/// The ranges of addresses that a program may access. Those from the opening on are shared; there is a place for each range
/// that may be given since, so that giving one takes no memory.
#[derive(Drop)]
pub struct Regions {
    first: Arc<FirstRegions>,
    /// The ranges that were given, the oldest first.
    given: Vec<Range>,
    /// What they permit of each page of the memory that is given on demand.
    pages: Vec<Grant>,
}

impl Model for Regions {
    ghost use Rattle.std.specs.Prelude.{◌≤◌, vec_capacity, vec_len, reverse};
    ghost use Rattle.std.specs.Arc.{arc_value};
    ghost use Rattle.ro_region.specs.Permission.{Ranges};
    ghost use Rattle.ro_region.specs.Grants.{AreGranted};

    ghost Value = { Ranges };

    ghost view = { λ s. record { given = reverse s.given.items; first = arc_value s.first } };

    ghost invariant = { λ s. (4096 ≤ vec_capacity s.given) × AreGranted (reverse s.given.items) s.pages.items × (vec_len s.given ≤ 4096) };
}

impl Regions {
    /// The regions of these ranges; no other was given. It fails only for want of memory.
    pub fn new(alloc: Global, list: &[Range]) -> Result<Regions, AllocError>
        ensures { IfOk result (λ regions. regions ≡ record { given = []; first = list.now }) }
    {
        Regions::over(alloc, Arc::new(alloc, FirstRegions::new(alloc, list)?)?)
    }

    /// Other regions of the ranges that stand from the opening on. It fails only for want of memory.
    pub fn opening(&self, alloc: Global) -> Result<Regions, AllocError>
        ensures { IfOk result (λ regions. regions ≡ record { given = []; first = self.now.first }) }
    {
        Regions::over(alloc, Arc::try_clone(&self.first)?)
    }

    fn over(alloc: Global, first: Arc<FirstRegions>) -> Result<Regions, AllocError>
        ensures { IfOk result (λ regions. regions ≡ record { given = []; first = arc_value first }) }
    {
        Ok(Regions {
            first,
            given: Vec::with_capacity(alloc, MAPPED_PAGES as usize)?,
            pages: none_granted(alloc)?,
        })
    }

    /// Permits a range more. It takes no memory.
    pub fn add(&mut self, range: Range)
        requires { length self.old.given < 4096 }
        ensures { self.new ≡ record self.old { given = range ∷ self.old.given } }
    {
        if self.given.push(range).is_err() {
            unreachable!()
        }
        grant_range(&mut self.pages, &range);
    }

    /// Becomes as other regions that have the same ranges from the opening on. It takes no memory.
    pub fn copy_from(&mut self, other: &Regions)
        requires { self.old.first ≡ other.now.first }
        ensures { self.new ≡ other.now }
    {
        self.given.clear();
        if self
            .given
            .extend_from_slice(other.given.as_slice())
            .is_err()
        {
            unreachable!()
        }
        self.pages.copy_from_slice(other.pages.as_slice());
    }

    /// The ranges that were given, the oldest first.
    pub fn given(&self) -> &[Range]
        ensures { reverse result.now ≡ self.now.given }
    {
        self.given.as_slice()
    }

    /// Whether each of `len` bytes from `address` on lies in a range that permits this kind of access, and none past
    /// the last address of 32 bits.
    #[inline(always)]
    pub fn permits(&self, address: u32, len: u32, kind: Kind) -> bool
        ensures { result ≡ permits_of (ranges_of self.now) kind address len }
    {
        self.window_holds(address, len, kind) || self.permits_each_page(address, len, kind)
    }

    /// The words of a page that its window shows to be code: from the first address to before the second, both multiples
    /// of 4. It is no page at whose end the addresses of 32 bits end.
    pub fn code_in_page(&self, page: u32) -> (u32, u32)
        requires { page < 2 ^ 20 - 1 }
        ensures aligned { result.0 % 4 ≡ 0 }
        ensures begins { 4096 * page ≤ result.0 }
        ensures ordered { result.0 ≤ result.1 }
        ensures ends { result.1 ≤ 4096 * page + 4096 }
        ensures whole { result.1 % 4 ≡ 0 }
        ensures permitted { (p : ℕ) → result.0 ≤ p → p + 4 ≤ result.1 → permits_of (ranges_of self.now) Kind.Execute p 4 ≡ true }
    {
        self.words_in_page(page, Kind::Execute)
    }

    /// The words of a page that its window shows to be permitted for a kind of access: from the first address to before the
    /// second, both multiples of 4. It is no page at whose end the addresses of 32 bits end.
    #[tactic(auto, using(crate::proofs::Each::permits_all))]
    pub fn words_in_page(&self, page: u32, kind: Kind) -> (u32, u32)
        requires { page < 2 ^ 20 - 1 }
        ensures aligned { result.0 % 4 ≡ 0 }
        ensures begins { 4096 * page ≤ result.0 }
        ensures ordered { result.0 ≤ result.1 }
        ensures ends { result.1 ≤ 4096 * page + 4096 }
        ensures whole { result.1 % 4 ≡ 0 }
        ensures permitted { (p n : ℕ) → result.0 ≤ p → p + n ≤ result.1 → permits_of (ranges_of self.now) kind p n ≡ true }
    {
        let window = self.window(page, kind);
        let first = page * PAGE_SIZE;
        let from = first + (u32::from(window.from) + 3) / 4 * 4;
        let to = first + u32::from(window.to) / 4 * 4;
        if from <= to {
            (from, to)
        } else {
            (first, first)
        }
    }

    /// Whether a byte lies in a range, whatever that permits.
    pub fn contains(&self, address: u32) -> bool
        ensures { result ≡ lies_in_range (ranges_of self.now) address }
    {
        lies_in(self.first.ranges(), address) || lies_in(self.given.as_slice(), address)
    }

    /// Whether a byte of a page may be written.
    pub fn is_writable(&self, page: u32) -> bool
        ensures { result ≡ is_writable (ranges_of self.now) page }
    {
        is_met(self.first.ranges(), Kind::Write, page, 1)
            || is_met(self.given.as_slice(), Kind::Write, page, 1)
    }

    /// The window of a page.
    #[inline(always)]
    fn window(&self, page: u32, kind: Kind) -> Window
        requires { page < 2 ^ 20 }
        ensures { IsOpen (ranges_of self.now) kind page result }
    {
        let window = self.first.window(page, kind);
        if window.from < window.to {
            window
        } else {
            granted_window(self.pages.as_slice(), page, kind)
        }
    }

    /// Whether a stretch lies in the window of its first page.
    #[inline(always)]
    fn window_holds(&self, address: u32, len: u32, kind: Kind) -> bool
        ensures { IsTrue result → permits_of (ranges_of self.now) kind address len ≡ true }
    {
        self.window(address / PAGE_SIZE, kind)
            .holds(address % PAGE_SIZE, len)
    }

    /// Judges a stretch page by page.
    #[inline(never)]
    #[cold]
    #[tactic(auto, using(crate::proofs::Each::permits_past))]
    fn permits_each_page(&self, address: u32, len: u32, kind: Kind) -> bool
        ensures { result ≡ permits_of (ranges_of self.now) kind address len }
    {
        if u64::from(address) + u64::from(len) > 1 << 32 {
            return false;
        }
        let mut done = 0;
        while done < len {
            let place = address + done;
            let count = (len - done).min(PAGE_SIZE - place % PAGE_SIZE);
            if !self.permits_in_page(place, count, kind) {
                return false;
            }
            done += count;
        }
        true
    }

    /// Judges a stretch in one page: by the page's window, and where that does not hold it, byte by byte.
    #[tactic(auto, using(crate::proofs::Each::permits_all, crate::proofs::Each::permits_not))]
    fn permits_in_page(&self, address: u32, len: u32, kind: Kind) -> bool
        requires { address + len ≤ 2 ^ 32 }
        ensures { result ≡ permits_of (ranges_of self.now) kind address len }
    {
        if self.window_holds(address, len, kind) {
            return true;
        }
        for k in 0..len {
            if !self.permits_byte(address + k, kind) {
                return false;
            }
        }
        true
    }

    fn permits_byte(&self, address: u32, kind: Kind) -> bool
        ensures { result ≡ permits_byte (ranges_of self.now) kind address }
    {
        permits(self.first.ranges(), address, kind) || permits(self.given.as_slice(), address, kind)
    }
}

/// Whether a byte lies in one of these ranges.
fn lies_in(ranges: &[Range], address: u32) -> bool
    ensures { result ≡ lies_in_range ranges.now address }
{
    ranges.iter().any(|range| range.contains(address))
}

/// Whether a byte lies in one of these ranges that permits this kind of access.
fn permits(ranges: &[Range], address: u32, kind: Kind) -> bool
    ensures { result ≡ permits_byte ranges.now kind address }
{
    ranges
        .iter()
        .any(|range| { range.contains(address) && range.allows(kind) })
}
