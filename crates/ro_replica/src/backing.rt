//! Backing the pages of a stretch of bytes.
ghost use Rattle.std.specs.Prelude.{ℕ, ◌≡◌, ◌+◌, ◌-◌, ◌/◌, ◌^◌, ◌<◌, ◌≤◌, ◌==◌, ◌||◌, Some, slice_get};
ghost use Rattle.ro_pages.specs.Bytes.{covers_page};
ghost use Rattle.ro_pages.specs.Held.{memory_of, has_page};

use ro_limits::PAGE_SIZE;
use ro_pages::Pages;

/// Backs a page, if it is not backed yet.
pub(crate) fn back(pages: &mut Pages, page: u32)
    requires page { page < 2 ^ 20 }
    requires spare { 0 < pages.old.spare }
    ensures bytes { memory_of pages.new.pages ≡ memory_of pages.old.pages }
    ensures backed { has_page pages.new.pages ≡ (λ other. has_page pages.old.pages other || (other == page)) }
    ensures spare { pages.old.spare ≤ pages.new.spare + 1 }
    ensures stay { (place other : ℕ) → slice_get pages.old.numbers place ≡ Some other → slice_get pages.new.numbers place ≡ Some other }
{
    if !pages.has_page(page) {
        pages.back(page);
    }
}

/// How many pages hold the bytes of a stretch, or one more.
pub(crate) fn pages_over(place: u32, len: u32) -> u32
    requires { place + len ≤ 2 ^ 32 }
    ensures { result ≡ (place + len + 4095) / 4096 - place / 4096 }
{
    end_page(place, len) - place / PAGE_SIZE
}

/// The number of the page behind a stretch.
fn end_page(place: u32, len: u32) -> u32
    requires { place + len ≤ 2 ^ 32 }
    ensures { result ≡ (place + len + 4095) / 4096 }
{
    let size = u64::from(PAGE_SIZE);
    ((u64::from(place) + u64::from(len) + (size - 1)) / size) as u32
}

/// Backs each page that holds a byte of a stretch and is not backed yet.
pub(crate) fn back_stretch(pages: &mut Pages, place: u32, len: u32)
    requires within { place + len ≤ 2 ^ 32 }
    requires spare { (place + len + 4095) / 4096 - place / 4096 ≤ pages.old.spare }
    ensures bytes { memory_of pages.new.pages ≡ memory_of pages.old.pages }
    ensures backed { has_page pages.new.pages ≡ (λ page. has_page pages.old.pages page || covers_page (record { place = place; count = len }) page) }
    ensures spare { pages.old.spare ≤ pages.new.spare + ((place + len + 4095) / 4096 - place / 4096) }
    ensures stay { (at page : ℕ) → slice_get pages.old.numbers at ≡ Some page → slice_get pages.new.numbers at ≡ Some page }
{
    if len == 0 {
        return;
    }
    for page in place / PAGE_SIZE..end_page(place, len) {
        back(pages, page);
    }
}
