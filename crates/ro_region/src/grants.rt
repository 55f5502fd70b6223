//! What the pages of the memory that a program is given on demand permit.
ghost use Rattle.std.specs.Prelude.{ℕ, ◌≡◌, ◌+◌, ◌*◌, ◌^◌, ◌<◌, ◌≤◌, ◌∷◌, [], List, true, length, IfOk};
ghost use Rattle.ro_region.specs.declared.Kind.{Kind as KindOf};
ghost use Rattle.ro_region.specs.declared.Range.{Range as RangeOf};
ghost use Rattle.ro_region.specs.Permission.{allows};
ghost use Rattle.ro_region.specs.Grants.{grants, AreGranted};
ghost use Rattle.ro_region.specs.Windows.{IsOpen};

use crate::windows::{CLOSED, Window};
use crate::{Kind, Range};
use ro_limits::{MAPPED_PAGES, MAPPED_START, PAGE_SIZE};
use std::alloc::{AllocError, Global};

/// What all bytes of a page surely permit.
#[derive(Clone, Copy, PartialEq, Eq, Debug)]
pub enum Grant {
    /// Nothing is known to be permitted.
    Nothing,
    /// They may be loaded.
    Loads,
    /// They may be loaded and stored.
    LoadsAndStores,
}

impl Grant {
    /// What a range permits of each page that lies in it.
    fn of(range: &Range) -> Grant
        ensures { (kind : KindOf) → grants result kind ≡ true → allows range.now kind ≡ true }
    {
        match (range.read, range.write) {
            (true, true) => Grant::LoadsAndStores,
            (true, false) => Grant::Loads,
            (false, _) => Grant::Nothing,
        }
    }

    /// Whether this kind of access is granted.
    fn grants(self, kind: Kind) -> bool
        ensures { result ≡ grants self kind }
    {
        match self {
            Grant::Nothing => false,
            Grant::Loads => kind == Kind::Read,
            Grant::LoadsAndStores => kind != Kind::Execute,
        }
    }
}

/// The pages before anything was given.
pub fn none_granted(alloc: Global) -> Result<Vec<Grant>, AllocError>
    ensures { IfOk result (λ pages. AreGranted [] pages.items) }
{
    let pages = vec![in alloc; Grant::Nothing; MAPPED_PAGES as usize]?;
    Ok(pages)
}

/// Notes of each page that lies in a range what that permits.
pub fn grant_range(pages: &mut Vec<Grant>, range: &Range)
    requires { length pages.old.items ≡ 4096 }
    ensures { (ranges : List RangeOf) → AreGranted ranges pages.old.items → AreGranted (range.now ∷ ranges) pages.new.items }
{
    let grant = Grant::of(range);
    let (from, past) = pages_in(range);
    for place in from..past {
        pages[place as usize] = grant;
    }
}

/// The places of the pages that lie in a range, from the first to before the second.
fn pages_in(range: &Range) -> (u32, u32)
    ensures most { result.1 ≤ 4096 }
    ensures within { (place : ℕ) → result.0 ≤ place → place < result.1 → (range.now.start ≤ 4096 * (0x50000 + place)) × (4096 * (0x50000 + place) + 4096 ≤ range.now.start + range.now.length) }
{
    let size = u64::from(PAGE_SIZE);
    let most = u64::from(MAPPED_PAGES);
    let first = u64::from(MAPPED_START);
    let start = u64::from(range.start);
    let end = start + u64::from(range.length);
    (
        start.saturating_sub(first).div_ceil(size).min(most) as u32,
        (end.saturating_sub(first) / size).min(most) as u32,
    )
}

/// The window of a page, by what is granted of it.
pub fn window(pages: &[Grant], page: u32, kind: Kind) -> Window
    ensures { (ranges : List RangeOf) → AreGranted ranges pages.now → IsOpen ranges kind page result }
{
    let place = page.wrapping_sub(MAPPED_START / PAGE_SIZE) as usize;
    if place < pages.len() && pages[place].grants(kind) {
        Window {
            from: 0,
            to: PAGE_SIZE as u16,
        }
    } else {
        CLOSED
    }
}
