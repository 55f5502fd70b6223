//! For each page a window: bytes of it, one after another, that are all permitted.
ghost use Rattle.std.specs.Prelude.{ℕ, ◌≡◌, IsTrue, ◌↔◌, ◌+◌, ◌*◌, ◌^◌, ◌<◌, ◌≤◌, ◌⊎◌, ◌&&◌, List, length, IfOk, OnOk};
ghost use Rattle.std.specs.List.{list_any};
ghost use Rattle.ro_region.specs.Permission.{allows, meets};
ghost use Rattle.ro_region.specs.declared.Kind.{Kind as KindOf};
ghost use Rattle.ro_region.specs.declared.Range.{Range as RangeOf};
ghost use Rattle.ro_region.specs.Windows.{IsOpen, IsTable, AreClosed, AreAdded, AreOpenFrom, AreKept, AreTables, AreOpen, AreAll};

use crate::{Kind, Range};
use ro_limits::{PAGE_SIZE, PAGES};
use std::alloc::{AllocError, Global};

/// How many pages a second table is for.
const SPAN: u32 = 1024;

/// How many second tables there are at most.
const TABLES: u32 = PAGES / SPAN;

/// A window of no byte.
pub const CLOSED: Window = Window { from: 0, to: 0 };

/// The bytes of a page from offset `from` to before offset `to`.
#[derive(Clone, Copy, Debug)]
pub struct Window {
    /// The offset of its first byte.
    pub from: u16,
    /// The offset behind its last byte.
    pub to: u16,
}

impl Window {
    /// Whether so many bytes from an offset on lie in the window.
    #[inline(always)]
    pub fn holds(self, offset: u32, len: u32) -> bool
        ensures { IsTrue result ↔ ((self.from ≤ offset) × (offset + len ≤ self.to)) }
    {
        u32::from(self.from) <= offset && u64::from(offset) + u64::from(len) <= u64::from(self.to)
    }
}

/// The part of a range that lies in a page.
fn part_of(range: &Range, page: u32) -> Window
    requires { page < 2 ^ 20 }
    ensures ordered { result.from ≤ result.to }
    ensures within { result.to ≤ 4096 }
    ensures covered { (k : ℕ) → result.from ≤ k → k < result.to → (range.now.start ≤ 4096 * page + k) × (4096 * page + k < range.now.start + range.now.length) }
{
    let first = u64::from(page) * u64::from(PAGE_SIZE);
    let past = first + u64::from(PAGE_SIZE);
    let start = u64::from(range.start);
    let end = start + u64::from(range.length);
    Window {
        from: (start.clamp(first, past) - first) as u16,
        to: (end.clamp(first, past) - first) as u16,
    }
}

/// Both windows where they touch, and else the larger one.
fn joined(a: Window, b: Window) -> Window
    requires a { a.from ≤ a.to }
    requires b { b.from ≤ b.to }
    ensures ordered { result.from ≤ result.to }
    ensures within { a.to ≤ 4096 → b.to ≤ 4096 → result.to ≤ 4096 }
    ensures either { (k : ℕ) → result.from ≤ k → k < result.to → ((a.from ≤ k) × (k < a.to)) ⊎ ((b.from ≤ k) × (k < b.to)) }
{
    if a.from <= b.to && b.from <= a.to {
        Window {
            from: a.from.min(b.from),
            to: a.to.max(b.to),
        }
    } else if b.to - b.from <= a.to - a.from {
        a
    } else {
        b
    }
}

/// A window of a page with what one range adds to it, if it permits this kind.
fn widened(window: Window, ranges: &[Range], i: usize, kind: Kind, page: u32) -> Window
    requires page { page < 2 ^ 20 }
    requires index { i < length ranges.now }
    requires sound { IsOpen ranges.now kind page window }
    ensures { IsOpen ranges.now kind page result }
{
    let range = &ranges[i];
    if !range.allows(kind) || !meets(range, page, 1) {
        return window;
    }
    joined(window, part_of(range, page))
}

/// Whether a range has a byte in so many pages from one on.
fn meets(range: &Range, page: u32, count: u32) -> bool
    ensures { result ≡ meets range.now page count }
{
    let size = u64::from(PAGE_SIZE);
    let first = size * u64::from(page);
    range.length > 0
        && u64::from(range.start) < first + size * u64::from(count)
        && first < u64::from(range.start) + u64::from(range.length)
}

/// The place of the windows of 1,024 pages, which are added where a range meets them. None is looked for below the table `next`.
fn table_of(
    windows: &mut Vec<Window>,
    ranges: &[Range],
    kind: Kind,
    table: u32,
    next: u32,
) -> Result<usize, AllocError>
    requires table { table < 1024 }
    requires closed { AreClosed windows.old.items }
    ensures { IfOk result (λ first. IsTable ranges.now kind table first windows.new.items windows.old.items) }
{
    let first = windows.len();
    if table < next || !is_met(ranges, kind, SPAN * table, SPAN) {
        return Ok(0);
    }
    add_closed(windows)?;
    for i in 0..ranges.len() {
        open_pages(windows, first, ranges, i, kind, table);
    }
    Ok(first)
}

/// Adds the closed windows of 1,024 pages behind the others.
fn add_closed(windows: &mut Vec<Window>) -> Result<(), AllocError>
    ensures { OnOk result (AreAdded windows.new.items windows.old.items) }
{
    for _ in 0..SPAN {
        windows.push(CLOSED)?;
    }
    Ok(())
}

/// Opens the windows from a place on, of 1,024 pages, for the pages that one range meets.
fn open_pages(
    windows: &mut [Window],
    first: usize,
    ranges: &[Range],
    i: usize,
    kind: Kind,
    table: u32,
)
    requires table { table < 1024 }
    requires index { i < length ranges.now }
    requires within { first + 1024 ≤ length windows.old }
    requires sound { AreOpenFrom ranges.now kind table first windows.old }
    ensures kept { AreKept first windows.new windows.old }
    ensures sound { AreOpenFrom ranges.now kind table first windows.new }
{
    let (from, past) = met(&ranges[i], table);
    for place in from..past {
        let at = first + place as usize;
        windows[at] = widened(windows[at], ranges, i, kind, SPAN * table + place);
    }
}

/// Which of 1,024 pages a range meets: the places from the first number to before the second.
fn met(range: &Range, table: u32) -> (u32, u32)
    requires { table < 1024 }
    ensures { result.1 ≤ 1024 }
{
    let size = u64::from(PAGE_SIZE);
    let first = u64::from(SPAN * table);
    let past = first + u64::from(SPAN);
    let start = u64::from(range.start);
    let end = start + u64::from(range.length);
    (
        ((start / size).clamp(first, past) - first) as u32,
        (end.div_ceil(size).clamp(first, past) - first) as u32,
    )
}

/// Whether a range that permits this kind has a byte in so many pages from one on.
pub fn is_met(ranges: &[Range], kind: Kind, page: u32, count: u32) -> bool
    ensures { result ≡ list_any (λ range. allows range kind && meets range page count) ranges.now }
{
    ranges
        .iter()
        .any(|range| range.allows(kind) && meets(range, page, count))
}

/// The next table behind one in which a range has a byte, where the next one behind those before was `next`.
fn next_met(ranges: &[Range], table: u32, next: u32) -> u32
    requires table { table < 1024 }
    ensures same { table < next → result ≡ next }
{
    if table < next {
        return next;
    }
    let mut lowest = TABLES;
    for range in ranges {
        lowest = lowest.min(first_met(range, table + 1));
    }
    lowest
}

/// The first table, from one on, in which a range has a byte; where there is none, how many there are at most.
fn first_met(range: &Range, table: u32) -> u32
    ensures { (result ≡ 1024) ⊎ (table ≤ result) }
{
    let size = u64::from(PAGE_SIZE) * u64::from(SPAN);
    let start = u64::from(range.start);
    let end = start + u64::from(range.length);
    if u64::from(table) < end.div_ceil(size) {
        table.max((start / size) as u32)
    } else {
        TABLES
    }
}

/// A window for each page, for accesses of one kind, found in two tables.
#[derive(Drop)]
pub struct Windows {
    /// For each 1,024 pages the place of their second table.
    pub firsts: Vec<usize>,
    /// The second tables, one behind another. All pages that no range meets share the one at 0.
    pub windows: Vec<Window>,
}

impl Windows {
    /// The windows of these ranges. It fails only for want of memory.
    pub fn new(alloc: Global, ranges: &[Range], kind: Kind) -> Result<Windows, AllocError>
        ensures { IfOk result (λ w. AreAll ranges.now kind w.firsts.items w.windows.items) }
    {
        let mut firsts = Vec::with_capacity(alloc, TABLES as usize)?;
        let mut windows = vec![in alloc; CLOSED; SPAN as usize]?;
        let mut next = 0;
        for table in 0..TABLES {
            firsts.push(table_of(&mut windows, ranges, kind, table, next)?)?;
            next = next_met(ranges, table, next);
        }
        Ok(Windows { firsts, windows })
    }

    /// The window of a page.
    #[inline(always)]
    pub fn at(&self, page: u32) -> Window
        requires page { page < 2 ^ 20 }
        requires tables { AreTables self.now.firsts.items self.now.windows.items }
        ensures { (ranges : List RangeOf) (kind : KindOf) → AreOpen ranges kind self.now.firsts.items self.now.windows.items → IsOpen ranges kind page result }
    {
        self.windows[self.firsts[(page / SPAN) as usize] + (page % SPAN) as usize]
    }
}
