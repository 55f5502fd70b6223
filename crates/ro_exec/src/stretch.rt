//! Stretches of code that a run keeps.
ghost use Rattle.std.specs.Prelude.{ℕ, ◌≡◌, ◌+◌, ◌*◌, ◌/◌, ◌%◌, ◌^◌, ◌<◌, ◌≤◌, true, false, None};
ghost use Rattle.ro_alu.specs.Results.{low_word};
ghost use Rattle.ro_pages.specs.Bytes.{IsSize};
ghost use Rattle.ro_exec.specs.Next.{jump_stop};
ghost use Rattle.ro_exec.specs.Stretches.{IsIn, IsAlong, IsClear, IsKept, end_of};
ghost use Rattle.ro_region.specs.Permission.{permits_byte, permits_of, ranges_of};
ghost use Rattle.ro_region.specs.declared.Kind.TheVariants.{Execute};

use crate::EXIT_PLACE;
use ro_event::CallTable;
use ro_limits::PAGE_SIZE;
use ro_pages::Memory;
use ro_region::{Kind, Regions};

/// A stretch of words in one page.
#[derive(Clone, Copy, PartialEq, Eq, Debug)]
pub struct Stretch {
    /// The address of its first word, a multiple of 4.
    pub from: u32,
    /// How many words it has.
    pub words: u32,
    /// The place of its page.
    pub place: usize,
}

impl Stretch {
    /// Whether an instruction's place lies in the stretch: one test of the distance, whose lowest two bits are turned to
    /// the top, so that only a multiple of 4 is a small number.
    #[inline(always)]
    pub fn holds(self, pc: u32) -> bool
        requires aligned { self.from % 4 ≡ 0 }
        requires bounded { self.from + 4 * self.words ≤ 2 ^ 32 }
        ensures { result ≡ true → IsIn self pc }
    {
        self.fits(pc, 4)
    }

    /// Whether an access of 1, 2 or 4 bytes lies in the stretch, at a multiple of its size.
    #[inline(always)]
    pub fn fits(self, address: u32, size: u32) -> bool
        requires size { IsSize size }
        requires aligned { self.from % 4 ≡ 0 }
        requires bounded { self.from + 4 * self.words ≤ 2 ^ 32 }
        ensures aligned { result ≡ true → address % size ≡ 0 }
        ensures begins { result ≡ true → self.from ≤ address }
        ensures ends { result ≡ true → address + size ≤ self.from + 4 * self.words }
    {
        let distance = address.wrapping_sub(self.from);
        let turned = match size {
            1 => distance / 4,
            2 => distance / 4 + distance % 2 * 0x4000_0000,
            _ => distance / 4 + distance % 4 * 0x4000_0000,
        };
        turned < self.words
    }

    /// Whether a thread's place lies in the stretch, which becomes the code round it where it does not yet and such code is there.
    #[inline(always)]
    pub fn follow<M: Memory>(
        &mut self,
        pc: u32,
        memory: &M,
        regions: &Regions,
        calls: &CallTable,
    ) -> bool
        requires aligned { self.old.from % 4 ≡ 0 }
        requires bounded { self.old.from + 4 * self.old.words ≤ 2 ^ 32 }
        requires clear { IsClear (record { ranges = ranges_of regions.now; calls = calls.now }) (M.backing memory.now) self.old }
        requires kept { IsKept (M.kept memory.now) self.old }
        ensures aligned { self.new.from % 4 ≡ 0 }
        ensures bounded { self.new.from + 4 * self.new.words ≤ 2 ^ 32 }
        ensures clear { IsClear (record { ranges = ranges_of regions.now; calls = calls.now }) (M.backing memory.now) self.new }
        ensures kept { IsKept (M.kept memory.now) self.new }
        ensures inside { result ≡ true → IsIn self.new pc }
    {
        self.holds(pc) || self.renew(pc, memory, regions, calls)
    }

    /// Whether a thread stands in the stretch, which becomes the code round it where it does not yet. Only at `until` is that
    /// looked at, the stretch's end or the place to which a thread left it: at each other place it stands in the stretch.
    #[inline(always)]
    pub fn goes_along<M: Memory>(
        &mut self,
        until: &mut u32,
        pc: u32,
        memory: &M,
        regions: &Regions,
        calls: &CallTable,
    ) -> bool
        requires aligned { self.old.from % 4 ≡ 0 }
        requires bounded { self.old.from + 4 * self.old.words ≤ 2 ^ 32 }
        requires clear { IsClear (record { ranges = ranges_of regions.now; calls = calls.now }) (M.backing memory.now) self.old }
        requires kept { IsKept (M.kept memory.now) self.old }
        requires along { IsAlong self.old until.old pc }
        ensures aligned { self.new.from % 4 ≡ 0 }
        ensures bounded { self.new.from + 4 * self.new.words ≤ 2 ^ 32 }
        ensures clear { IsClear (record { ranges = ranges_of regions.now; calls = calls.now }) (M.backing memory.now) self.new }
        ensures kept { IsKept (M.kept memory.now) self.new }
        ensures along { IsAlong self.new until.new pc }
        ensures inside { result ≡ true → IsIn self.new pc }
        ensures until { result ≡ true → until.new ≡ end_of self.new }
    {
        if pc != *until {
            return true;
        }
        // a copy, so that the stretch itself can stay in registers
        let mut found = *self;
        let is_found = found.follow(pc, memory, regions, calls);
        *self = found;
        if !is_found {
            return false;
        }
        *until = self.end();
        true
    }

    /// Where the code behind it begins; 0 where it ends with the addresses.
    #[inline(always)]
    fn end(self) -> u32
        requires bounded { self.from + 4 * self.words ≤ 2 ^ 32 }
        ensures { result ≡ end_of self }
    {
        self.from.wrapping_add(self.words.wrapping_mul(4))
    }

    /// The place after an instruction of the stretch: it lies in the stretch, or is its end, and is a multiple of 4.
    #[inline(always)]
    pub fn after(self, until: u32, place: u32) -> u32
        requires aligned { self.from % 4 ≡ 0 }
        requires bounded { self.from + 4 * self.words ≤ 2 ^ 32 }
        requires inside { IsIn self place }
        requires until { until ≡ end_of self }
        ensures place { result ≡ low_word (place + 4) }
        ensures along { IsAlong self until result }
        ensures whole { jump_stop result ≡ None }
    {
        place.wrapping_add(4)
    }

    /// Whether a thread of the stretch may jump to a place, which is so where that is a multiple of 4. Where the jump leaves the
    /// stretch, code is looked up there.
    #[inline(always)]
    pub fn leads(self, until: &mut u32, target: u32) -> bool
        requires aligned { self.from % 4 ≡ 0 }
        requires bounded { self.from + 4 * self.words ≤ 2 ^ 32 }
        requires until { until.old ≡ end_of self }
        ensures along { result ≡ true → IsAlong self until.new target }
        ensures stop { result ≡ true → jump_stop target ≡ None }
        ensures left { result ≡ false → until.new ≡ until.old }
    {
        if self.holds(target) {
            return true;
        }
        if target % 4 != 0 {
            return false;
        }
        *until = target;
        true
    }

    /// Becomes the code round a place, where that is in it, and else stays: a thread that stands at a call comes back to the code
    /// round it. It is no part of the loop that runs code, as `stretch_at` would be.
    #[cold]
    #[inline(never)]
    fn renew<M: Memory>(
        &mut self,
        pc: u32,
        memory: &M,
        regions: &Regions,
        calls: &CallTable,
    ) -> bool
        requires aligned { self.old.from % 4 ≡ 0 }
        requires bounded { self.old.from + 4 * self.old.words ≤ 2 ^ 32 }
        requires clear { IsClear (record { ranges = ranges_of regions.now; calls = calls.now }) (M.backing memory.now) self.old }
        requires kept { IsKept (M.kept memory.now) self.old }
        ensures aligned { self.new.from % 4 ≡ 0 }
        ensures bounded { self.new.from + 4 * self.new.words ≤ 2 ^ 32 }
        ensures clear { IsClear (record { ranges = ranges_of regions.now; calls = calls.now }) (M.backing memory.now) self.new }
        ensures kept { IsKept (M.kept memory.now) self.new }
        ensures inside { result ≡ true → IsIn self.new pc }
    {
        let found = stretch_at(pc, memory, regions, calls);
        if !found.holds(pc) {
            return false;
        }
        *self = found;
        true
    }
}

/// The stretch of no word.
pub const NONE: Stretch = Stretch {
    from: 0,
    words: 0,
    place: 0,
};

/// The code round a place at which no stop stands before an instruction is read: in one page, backed and permitted, with
/// no address of a call in it, and below the page of the exit's place. It may be empty.
#[tactic(auto, unfolding(crate::specs::Next::fetch_stop))]
fn stretch_at<M: Memory>(pc: u32, memory: &M, regions: &Regions, calls: &CallTable) -> Stretch
    ensures clear { IsClear (record { ranges = ranges_of regions.now; calls = calls.now }) (M.backing memory.now) result }
    ensures kept { IsKept (M.kept memory.now) result }
    ensures aligned { result.from % 4 ≡ 0 }
    ensures bounded { result.from + 4 * result.words ≤ 2 ^ 32 }
{
    let page = pc / PAGE_SIZE;
    if page >= EXIT_PLACE / PAGE_SIZE || !memory.backed(page) {
        return NONE;
    }
    let (from, to) = regions.code_in_page(page);
    let (from, to) = calls.clear_around(pc, from, to);
    Stretch {
        from,
        words: (to - from) / 4,
        place: memory.place(page),
    }
}
