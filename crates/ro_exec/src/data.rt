//! Stretches of data that a run has met.
ghost use Rattle.std.specs.Prelude.{ℕ, ◌≡◌, ◌/◌, ◌%◌, ◌^◌, ◌<◌, true, Bool, List, Option, Some};
ghost use Rattle.std.specs.List.{slice_get};
ghost use Rattle.ro_region.specs.declared.Range.{Range as RangeOf};
ghost use Rattle.ro_region.specs.declared.Kind.{Kind as KindOf};
ghost use Rattle.ro_region.specs.Permission.{permits_of, ranges_of};
ghost use Rattle.ro_pages.specs.Bytes.{IsSize};
ghost use Rattle.ro_exec.specs.declared.stretch.Stretch.{Stretch as StretchOf};
ghost use Rattle.ro_exec.specs.Stretches.{IsOpenTo, AreOpenTo};

use crate::stretch::{NONE, Stretch};
use ro_limits::PAGE_SIZE;
use ro_pages::Memory;
use ro_region::{Kind, Regions};

/// How many pages are kept for each kind of access.
const PLACES: usize = 128;

/// The last page that is never kept, since the addresses end at its end.
const LAST_PAGE: u32 = 0xF_FFFF;

/// For some pages the words that one kind of access may have, each found by the lowest bits of the page's number.
#[derive(Drop)]
pub struct Open {
    stretches: [Stretch; PLACES],
}

impl Open {
    /// No page.
    pub fn new() -> Open
        ensures { (ranges : List RangeOf) (pages : ℕ → Bool) (places : ℕ → Option ℕ) (kind : KindOf) → AreOpenTo ranges pages places kind result.stretches }
    {
        Open {
            stretches: [NONE; PLACES],
        }
    }

    /// The stretch in whose place that of an address' page is kept.
    #[inline(always)]
    pub fn at(&self, address: u32) -> Stretch
        ensures { slice_get self.now.stretches (address / 4096 % 128) ≡ Some result }
    {
        self.stretches[(address / PAGE_SIZE) as usize % PLACES]
    }

    /// Keeps the words of an address' page.
    #[cold]
    #[inline(never)]
    fn learn<M: Memory>(&mut self, address: u32, memory: &M, regions: &Regions, kind: Kind)
        requires { AreOpenTo (ranges_of regions.now) (M.backing memory.now) (M.kept memory.now) kind self.old.stretches }
        ensures { AreOpenTo (ranges_of regions.now) (M.backing memory.now) (M.kept memory.now) kind self.new.stretches }
    {
        let page = address / PAGE_SIZE;
        self.stretches[page as usize % PLACES] = open_in_page(page, memory, regions, kind);
    }

    /// Whether an access is seen to be let through. Where its page is not kept, it is from then on, and the access is seen when
    /// it is tried again: so nothing of an instruction has to be kept across the call.
    #[inline(always)]
    pub fn shows<M: Memory>(
        &mut self,
        address: u32,
        size: u32,
        memory: &M,
        regions: &Regions,
        kind: Kind,
    ) -> bool
        requires size { IsSize size }
        requires open { AreOpenTo (ranges_of regions.now) (M.backing memory.now) (M.kept memory.now) kind self.old.stretches }
        ensures open { AreOpenTo (ranges_of regions.now) (M.backing memory.now) (M.kept memory.now) kind self.new.stretches }
        ensures aligned { result ≡ true → address % size ≡ 0 }
        ensures permitted { result ≡ true → permits_of (ranges_of regions.now) kind address size ≡ true }
        ensures backed { result ≡ true → M.backing memory.now (address / 4096) ≡ true }
        ensures kept { result ≡ true → (stretch : StretchOf) → slice_get self.new.stretches (address / 4096 % 128) ≡ Some stretch → M.kept memory.now stretch.place ≡ Some (address / 4096) }
    {
        if self.at(address).fits(address, size) {
            return true;
        }
        self.learn(address, memory, regions, kind);
        false
    }
}

/// The words of a page that may be accessed so; none where it is not backed.
fn open_in_page<M: Memory>(page: u32, memory: &M, regions: &Regions, kind: Kind) -> Stretch
    requires { page < 2 ^ 20 }
    ensures { IsOpenTo (ranges_of regions.now) (M.backing memory.now) (M.kept memory.now) kind result }
{
    if page >= LAST_PAGE || !memory.backed(page) {
        return NONE;
    }
    let (from, to) = regions.words_in_page(page, kind);
    Stretch {
        from,
        words: (to - from) / 4,
        place: memory.place(page),
    }
}
