//! How far each byte was accessed, and by whom.
ghost use Rattle.std.specs.Prelude.{ℕ, ◌≡◌, ◌<◌, ◌≤◌, ◌+◌, ◌^◌, ◌/◌, ◌%◌, ◌⊎◌, IfOk, OnOk, MatchOption, true, false, [], Some, Vec, length, slice_get, slice_index_or};
ghost use Rattle.std.specs.declared.alloc.Global.{Global as GlobalSeen};
ghost use Rattle.ro_pages.specs.Bytes.{within};
ghost use Rattle.ro_machine.specs.Watched.{span_of};
ghost use Rattle.ro_races.specs.Seen.{seen_by};
ghost use Rattle.ro_races.specs.Shadows.{page_at, clock_at, marks_at, no_marks, IsTable, IsPage, HasSecond, IsMade, Changes, Advances, Marks, IsHit, IsFirstHit, IsBetter};

use crate::marks::{Clock, NOTHING};
use ro_limits::{PAGE_SIZE, PAGE_WORDS};
use ro_machine::Stretch;
use std::alloc::{AllocError, Global};

/// How many pages a second table is for.
const SPAN: usize = 1024;

/// How many second tables there are: those of all addresses of 32 bits, and one for a stretch that runs past them.
const SECONDS: usize = 1025;

/// The clocks of a page: one for all its bytes as long as they were marked together, one for each word as long as no part
/// of a word was marked by itself, and one for each byte from then on. A page that was never marked has none.
pub(crate) type Page = Vec<Clock>;

/// The pages in two levels of tables. A second table of which no page was marked is empty.
pub(crate) type Table = Vec<Vec<Page>>;

/// An access that a step does not know of: one more than its place, and the byte.
#[derive(Clone, Copy, Debug, PartialEq, Eq)]
pub(crate) struct Hit {
    pub mark: u32,
    pub byte: u64,
}

/// A table of no marks.
///
/// # Errors
/// Where there is no memory.
pub(crate) fn new_table(alloc: Global) -> Result<Table, AllocError>
    ensures table { IfOk result (λ table. IsTable table.items) }
    ensures none { IfOk result (λ table. (byte thread : ℕ) → marks_at table.items byte thread ≡ 0) }
{
    let mut table = Vec::with_capacity(alloc, SECONDS)?;
    for _ in 0..SECONDS {
        table.push(Vec::new(alloc)).map_err(AllocError::from)?;
    }
    Ok(table)
}

/// A second table of which no page was marked.
fn new_second(alloc: Global) -> Result<Vec<Page>, AllocError>
    ensures count { IfOk result (λ second. length second.items ≡ 1024) }
    ensures empty { IfOk result (λ second. (k : ℕ) (page : Vec Clock GlobalSeen) → slice_get second.items k ≡ Some page → page.items ≡ []) }
{
    let mut second = Vec::with_capacity(alloc, SPAN)?;
    for _ in 0..SPAN {
        second.push(Vec::new(alloc)).map_err(AllocError::from)?;
    }
    Ok(second)
}

/// The clocks of a page.
#[inline(always)]
fn page_of(table: &Table, page: usize) -> &[Clock]
    requires table { IsTable table.now.items }
    requires page { page < 1048577 }
    ensures { result.now ≡ page_at table.now.items page }
{
    match table[page / SPAN].get(page % SPAN) {
        Some(clocks) => clocks.as_slice(),
        None => &[],
    }
}

/// Marks the bytes of a stretch with the step of a thread at a place.
///
/// # Errors
/// Where there is no memory for a page's clocks.
#[inline(always)]
pub(crate) fn mark(
    alloc: Global,
    table: &mut Table,
    stretch: Stretch,
    thread: u32,
    place: u32,
) -> Result<(), AllocError>
    requires table { IsTable table.old.items }
    requires low { stretch.place + stretch.count ≤ 2 ^ 32 + 4096 }
    requires thread { thread < 16 }
    requires place { place + 1 < 2 ^ 32 }
    ensures table { IsTable table.new.items }
    ensures marks { OnOk result (Marks table.old.items (span_of stretch) thread place table.new.items) }
{
    if stretch.count == 0 || mark_quickly(table, stretch, thread, place) {
        return Ok(());
    }
    mark_slowly(alloc, table, stretch, thread, place)
}

/// Marks a word or a byte that has a clock of its own, or nothing.
#[inline(always)]
fn mark_quickly(table: &mut Table, stretch: Stretch, thread: u32, place: u32) -> bool
    requires table { IsTable table.old.items }
    requires thread { thread < 16 }
    requires place { place + 1 < 2 ^ 32 }
    ensures table { IsTable table.new.items }
    ensures marks { result ≡ true → Marks table.old.items (span_of stretch) thread place table.new.items }
    ensures left { result ≡ false → table.new.items ≡ table.old.items }
{
    if stretch.count == 1 {
        mark_single(table, stretch, thread, place)
    } else {
        mark_word(table, stretch, thread, place)
    }
}

/// Marks one byte of a page that has a clock for each, or nothing.
#[inline(always)]
fn mark_single(table: &mut Table, stretch: Stretch, thread: u32, place: u32) -> bool
    requires table { IsTable table.old.items }
    requires thread { thread < 16 }
    requires place { place + 1 < 2 ^ 32 }
    ensures table { IsTable table.new.items }
    ensures marks { result ≡ true → Marks table.old.items (span_of stretch) thread place table.new.items }
    ensures left { result ≡ false → table.new.items ≡ table.old.items }
{
    let page = (stretch.place / PAGE_SIZE) as usize;
    if stretch.count != 1 || page_of(table, page).len() != PAGE_SIZE as usize {
        return false;
    }
    let byte = (stretch.place % PAGE_SIZE) as usize;
    advance(table, page, byte, thread, place);
    true
}

/// Marks a whole word of a page that has a clock for each, or nothing.
#[inline(always)]
fn mark_word(table: &mut Table, stretch: Stretch, thread: u32, place: u32) -> bool
    requires table { IsTable table.old.items }
    requires thread { thread < 16 }
    requires place { place + 1 < 2 ^ 32 }
    ensures table { IsTable table.new.items }
    ensures marks { result ≡ true → Marks table.old.items (span_of stretch) thread place table.new.items }
    ensures left { result ≡ false → table.new.items ≡ table.old.items }
{
    let page = (stretch.place / PAGE_SIZE) as usize;
    if stretch.count != 4 || stretch.place % 4 != 0 || page_of(table, page).len() != PAGE_WORDS {
        return false;
    }
    let word = (stretch.place % PAGE_SIZE / 4) as usize;
    advance(table, page, word, thread, place);
    true
}

/// Marks the bytes of a stretch that has one or more, in pages that may have no clocks yet.
#[cold]
#[inline(never)]
fn mark_slowly(
    alloc: Global,
    table: &mut Table,
    stretch: Stretch,
    thread: u32,
    place: u32,
) -> Result<(), AllocError>
    requires table { IsTable table.old.items }
    requires low { stretch.place + stretch.count ≤ 2 ^ 32 + 4096 }
    requires thread { thread < 16 }
    requires place { place + 1 < 2 ^ 32 }
    ensures table { IsTable table.new.items }
    ensures marks { OnOk result (Marks table.old.items (span_of stretch) thread place table.new.items) }
{
    if stretch.count >= PAGE_SIZE {
        return mark_pages(alloc, table, stretch, thread, place);
    }
    touch(alloc, table, (stretch.place / PAGE_SIZE) as usize)?;
    if mark_word(table, stretch, thread, place) {
        return Ok(());
    }
    mark_bytes(
        alloc,
        table,
        u64::from(stretch.place),
        stretch.count,
        thread,
        place,
    )
}

/// Marks the bytes of a long stretch, page by page.
#[cold]
#[inline(never)]
fn mark_pages(
    alloc: Global,
    table: &mut Table,
    stretch: Stretch,
    thread: u32,
    place: u32,
) -> Result<(), AllocError>
    requires table { IsTable table.old.items }
    requires low { stretch.place + stretch.count ≤ 2 ^ 32 + 4096 }
    requires thread { thread < 16 }
    requires place { place + 1 < 2 ^ 32 }
    ensures table { IsTable table.new.items }
    ensures marks { OnOk result (Marks table.old.items (span_of stretch) thread place table.new.items) }
{
    let mut done = 0;
    while done < stretch.count {
        let byte = u64::from(stretch.place) + u64::from(done);
        let count = part_of(byte, stretch.count - done);
        mark_part(alloc, table, byte, count, thread, place)?;
        done += count;
    }
    Ok(())
}

/// How many of so many bytes from one on lie in its page.
fn part_of(byte: u64, count: u32) -> u32
    ensures within { result ≤ count }
    ensures some { 0 < count → 0 < result }
    ensures page { byte % 4096 + result ≤ 4096 }
{
    let rest = PAGE_SIZE - (byte % PAGE_SIZE as u64) as u32;
    if count < rest { count } else { rest }
}

/// Marks bytes that lie in one page.
fn mark_part(
    alloc: Global,
    table: &mut Table,
    byte: u64,
    count: u32,
    thread: u32,
    place: u32,
) -> Result<(), AllocError>
    requires table { IsTable table.old.items }
    requires low { byte + count ≤ 2 ^ 32 + 4096 }
    requires page { byte % 4096 + count ≤ 4096 }
    requires thread { thread < 16 }
    requires place { place + 1 < 2 ^ 32 }
    ensures table { IsTable table.new.items }
    ensures marks { OnOk result (Marks table.old.items (record { place = byte; count = count }) thread place table.new.items) }
{
    if count < PAGE_SIZE {
        return mark_bytes(alloc, table, byte, count, thread, place);
    }
    mark_page(alloc, table, byte, thread, place)
}

/// Marks all bytes of a page, the first of which is named: by one clock, where no part of it was marked by itself.
fn mark_page(
    alloc: Global,
    table: &mut Table,
    byte: u64,
    thread: u32,
    place: u32,
) -> Result<(), AllocError>
    requires table { IsTable table.old.items }
    requires low { byte + 4096 ≤ 2 ^ 32 + 4096 }
    requires page { byte % 4096 ≡ 0 }
    requires thread { thread < 16 }
    requires place { place + 1 < 2 ^ 32 }
    ensures table { IsTable table.new.items }
    ensures marks { OnOk result (Marks table.old.items (record { place = byte; count = 4096 }) thread place table.new.items) }
{
    let page = (byte / PAGE_SIZE as u64) as usize;
    cover(alloc, table, page)?;
    if page_of(table, page).len() != 1 {
        return mark_bytes(alloc, table, byte, PAGE_SIZE, thread, place);
    }
    advance(table, page, 0, thread, place);
    Ok(())
}

/// Makes one clock for all bytes of a page, where it has none.
fn cover(alloc: Global, table: &mut Table, page: usize) -> Result<(), AllocError>
    requires table { IsTable table.old.items }
    requires page { page < 1048577 }
    ensures table { IsTable table.new.items }
    ensures same { (byte thread : ℕ) → marks_at table.new.items byte thread ≡ marks_at table.old.items byte thread }
{
    if !page_of(table, page).is_empty() {
        return Ok(());
    }
    touch_second(alloc, table, page / SPAN)?;
    let clocks = vec![in alloc; NOTHING; 1]?;
    put_page(table, page, clocks);
    Ok(())
}

/// Marks so many bytes from one on, one by one.
fn mark_bytes(
    alloc: Global,
    table: &mut Table,
    first: u64,
    count: u32,
    thread: u32,
    place: u32,
) -> Result<(), AllocError>
    requires table { IsTable table.old.items }
    requires low { first + count ≤ 2 ^ 32 + 4096 }
    requires thread { thread < 16 }
    requires place { place + 1 < 2 ^ 32 }
    ensures table { IsTable table.new.items }
    ensures marks { OnOk result (Marks table.old.items (record { place = first; count = count }) thread place table.new.items) }
{
    for offset in 0..count {
        let byte = first + u64::from(offset);
        split(alloc, table, (byte / PAGE_SIZE as u64) as usize)?;
        mark_byte(table, byte, thread, place);
    }
    Ok(())
}

/// Marks one byte, in a page that has a clock for each.
#[inline(always)]
fn mark_byte(table: &mut Table, byte: u64, thread: u32, place: u32)
    requires table { IsTable table.old.items }
    requires page { byte / 4096 < 1048577 }
    requires bytes { length (page_at table.old.items (byte / 4096)) ≡ 4096 }
    requires thread { thread < 16 }
    requires place { place + 1 < 2 ^ 32 }
    ensures table { IsTable table.new.items }
    ensures marks { Marks table.old.items (record { place = byte; count = 1 }) thread place table.new.items }
{
    let page = (byte / PAGE_SIZE as u64) as usize;
    let offset = (byte % PAGE_SIZE as u64) as usize;
    advance(table, page, offset, thread, place);
}

/// Advances one clock of a page.
#[inline(always)]
fn advance(table: &mut Table, page: usize, index: usize, thread: u32, place: u32)
    requires table { IsTable table.old.items }
    requires page { page < 1048577 }
    requires index { index < length (page_at table.old.items page) }
    requires thread { thread < 16 }
    requires place { place + 1 < 2 ^ 32 }
    ensures table { IsTable table.new.items }
    ensures advances { Advances table.old.items page index thread place table.new.items }
{
    let second = &mut table[page / SPAN];
    let clocks = &mut second[page % SPAN];
    clocks[index].advance(thread, place);
}

/// Makes clocks for the words of a page, where it has none or one for all its bytes: each of them that one.
fn touch(alloc: Global, table: &mut Table, page: usize) -> Result<(), AllocError>
    requires table { IsTable table.old.items }
    requires page { page < 1048577 }
    ensures table { IsTable table.new.items }
    ensures same { (byte thread : ℕ) → marks_at table.new.items byte thread ≡ marks_at table.old.items byte thread }
    ensures made { OnOk result (IsMade table.new.items page) }
{
    let clocks = page_of(table, page);
    if clocks.len() > 1 {
        return Ok(());
    }
    let clock = first_clock(clocks);
    touch_second(alloc, table, page / SPAN)?;
    let words = vec![in alloc; clock; PAGE_WORDS]?;
    put_page(table, page, words);
    Ok(())
}

/// The clock of the first byte of a page.
fn first_clock(clocks: &[Clock]) -> Clock
    ensures { result ≡ clock_at clocks.now 0 }
{
    match clock_of(clocks, 0) {
        Some(clock) => *clock,
        None => NOTHING,
    }
}

/// Makes a second table, where there is none.
fn touch_second(alloc: Global, table: &mut Table, second: usize) -> Result<(), AllocError>
    requires table { IsTable table.old.items }
    requires second { second < 1025 }
    ensures table { IsTable table.new.items }
    ensures same { (page : ℕ) → page_at table.new.items page ≡ page_at table.old.items page }
    ensures made { OnOk result (HasSecond table.new.items second) }
{
    if table[second].is_empty() {
        table[second] = new_second(alloc)?;
    }
    Ok(())
}

/// Makes clocks for the bytes of a page, each the clock that the byte had.
#[inline(always)]
fn split(alloc: Global, table: &mut Table, page: usize) -> Result<(), AllocError>
    requires table { IsTable table.old.items }
    requires page { page < 1048577 }
    ensures table { IsTable table.new.items }
    ensures same { (byte thread : ℕ) → marks_at table.new.items byte thread ≡ marks_at table.old.items byte thread }
    ensures bytes { OnOk result (length (page_at table.new.items page) ≡ 4096) }
{
    if page_of(table, page).len() == PAGE_SIZE as usize {
        return Ok(());
    }
    split_words(alloc, table, page)
}

/// The same of a page that has no clocks for its bytes.
#[cold]
#[inline(never)]
fn split_words(alloc: Global, table: &mut Table, page: usize) -> Result<(), AllocError>
    requires table { IsTable table.old.items }
    requires page { page < 1048577 }
    ensures table { IsTable table.new.items }
    ensures same { (byte thread : ℕ) → marks_at table.new.items byte thread ≡ marks_at table.old.items byte thread }
    ensures bytes { OnOk result (length (page_at table.new.items page) ≡ 4096) }
{
    touch(alloc, table, page)?;
    let words = page_of(table, page);
    if words.len() == PAGE_WORDS {
        let bytes = spread(alloc, words)?;
        put_page(table, page, bytes);
    }
    Ok(())
}

/// For each byte the clock of its word.
fn spread(alloc: Global, words: &[Clock]) -> Result<Page, AllocError>
    requires { length words.now ≡ 1024 }
    ensures count { IfOk result (λ bytes. length bytes.items ≡ 4096) }
    ensures same { IfOk result (λ bytes. (i : ℕ) → i < 4096 → slice_index_or bytes.items i no_marks ≡ slice_index_or words.now (i / 4) no_marks) }
{
    let mut bytes = vec![in alloc; NOTHING; PAGE_SIZE as usize]?;
    for byte in 0..PAGE_SIZE as usize {
        bytes[byte] = words[byte / 4];
    }
    Ok(bytes)
}

/// Gives a page other clocks.
fn put_page(table: &mut Table, page: usize, clocks: Page)
    requires table { IsTable table.old.items }
    requires page { page < 1048577 }
    requires second { HasSecond table.old.items (page / 1024) }
    requires clocks { IsPage clocks.items }
    ensures table { IsTable table.new.items }
    ensures changes { Changes table.old.items page clocks.items table.new.items }
{
    let second = &mut table[page / SPAN];
    second[page % SPAN] = clocks;
}

/// Whether no byte of a stretch has a mark beyond what a clock knows.
#[inline(always)]
pub(crate) fn is_quiet(table: &Table, stretch: Stretch, past: &Clock) -> bool
    requires table { IsTable table.now.items }
    requires low { stretch.place + stretch.count ≤ 2 ^ 32 + 4096 }
    ensures { result ≡ true → (mark byte : ℕ) → IsHit table.now.items (span_of stretch) (seen_by past.now) mark byte → ⊥ }
{
    if stretch.count == 0 {
        return true;
    }
    if stretch.count > 4 || stretch.place % 4 + stretch.count > 4 {
        return has_no_hit(table, stretch, past);
    }
    let clocks = page_of(table, (stretch.place / PAGE_SIZE) as usize);
    if clocks.is_empty() {
        return true;
    }
    if clocks.len() == PAGE_WORDS {
        return clocks[(stretch.place % PAGE_SIZE / 4) as usize].latest_beyond(past) == 0;
    }
    if clocks.len() < PAGE_WORDS {
        return has_no_hit(table, stretch, past);
    }
    let offset = (stretch.place % PAGE_SIZE) as usize;
    are_quiet(clocks, offset, stretch.count as usize, past)
}

/// Whether no clock of so many bytes of a page has a mark beyond what a clock knows.
#[inline(always)]
fn are_quiet(clocks: &[Clock], offset: usize, count: usize, past: &Clock) -> bool
    requires { offset + count ≤ length clocks.now }
    ensures { result ≡ true → (i thread : ℕ) → offset ≤ i → i < offset + count → seen_by (slice_index_or clocks.now i no_marks) thread ≤ seen_by past.now thread }
{
    for i in offset..offset + count {
        if clocks[i].latest_beyond(past) > 0 {
            return false;
        }
    }
    true
}

/// The same, found by the first hit.
#[inline(never)]
fn has_no_hit(table: &Table, stretch: Stretch, past: &Clock) -> bool
    requires table { IsTable table.now.items }
    requires low { stretch.place + stretch.count ≤ 2 ^ 32 + 4096 }
    ensures { result ≡ true → (mark byte : ℕ) → IsHit table.now.items (span_of stretch) (seen_by past.now) mark byte → ⊥ }
{
    match first_hit(table, stretch, past) {
        None => true,
        Some(_) => false,
    }
}

/// The first byte of a stretch that has a mark beyond what a clock knows, with the greatest of them.
pub(crate) fn first_hit(table: &Table, stretch: Stretch, past: &Clock) -> Option<Hit>
    requires table { IsTable table.now.items }
    requires low { stretch.place + stretch.count ≤ 2 ^ 32 + 4096 }
    ensures { IsFirstHit table.now.items (span_of stretch) (seen_by past.now) result }
{
    let mut offset = 0;
    while offset < u64::from(stretch.count) {
        let byte = u64::from(stretch.place) + offset;
        let mark = latest(table, byte, past);
        if mark > 0 {
            return Some(Hit { mark, byte });
        }
        offset += alike(table, byte);
    }
    None
}

/// How many bytes from one on are known to have its marks: those to the end of a page that has one clock or none.
fn alike(table: &Table, byte: u64) -> u64
    requires table { IsTable table.now.items }
    requires page { byte / 4096 < 1048577 }
    ensures some { 0 < result }
    ensures few { result ≤ 4096 }
    ensures same { (other thread : ℕ) → byte ≤ other → other < byte + result → marks_at table.now.items other thread ≡ marks_at table.now.items byte thread }
{
    if page_of(table, (byte / PAGE_SIZE as u64) as usize).len() > 1 {
        return 1;
    }
    PAGE_SIZE as u64 - byte % PAGE_SIZE as u64
}

/// The greatest mark of a byte that is beyond what a clock knows, or 0.
fn latest(table: &Table, byte: u64, past: &Clock) -> u32
    requires table { IsTable table.now.items }
    requires page { byte / 4096 < 1048577 }
    ensures above { (thread : ℕ) → (marks_at table.now.items byte thread ≤ seen_by past.now thread) ⊎ (marks_at table.now.items byte thread ≤ result) }
    ensures found { (result ≡ 0) ⊎ ((thread : ℕ) × (result ≡ marks_at table.now.items byte thread) × (seen_by past.now thread < result)) }
{
    let page = (byte / PAGE_SIZE as u64) as usize;
    let offset = (byte % PAGE_SIZE as u64) as usize;
    match clock_of(page_of(table, page), offset) {
        Some(marks) => marks.latest_beyond(past),
        None => 0,
    }
}

/// The clock of a byte of a page, if it has one.
fn clock_of(clocks: &[Clock], offset: usize) -> Option<&Clock>
    requires { offset < 4096 }
    ensures { MatchOption result (clock_at clocks.now offset ≡ no_marks) (λ clock. clock.now ≡ clock_at clocks.now offset) }
{
    let index = if clocks.len() == PAGE_WORDS {
        offset / 4
    } else if clocks.len() == 1 {
        0
    } else {
        offset
    };
    clocks.get(index)
}

/// Of two hits the one at the lower byte, and at one byte the later one.
pub(crate) fn better(one: Option<Hit>, other: Option<Hit>) -> Option<Hit>
    ensures { IsBetter one other result }
{
    match (one, other) {
        (None, _) => other,
        (_, None) => one,
        (Some(a), Some(b)) => {
            if b.byte < a.byte || (b.byte == a.byte && a.mark < b.mark) {
                other
            } else {
                one
            }
        }
    }
}
