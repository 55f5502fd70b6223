//! Pages that a memory lends to another of a few pages, and takes back.
ghost use Rattle.std.specs.Prelude.{ℕ, ◌≡◌, ◌≢◌, ◌+◌, ◌^◌, ◌<◌, ◌++◌, ◌∷◌, [], true, false, length};
ghost use Rattle.std.specs.FinMap as map;
ghost use Rattle.ro_pages.specs.Held.{AllBack, GoesBack, has_page};

use crate::few::FewPages;
use crate::table::Pages;

impl Pages {
    /// Lends a page. In its place stands a page of the other memory meanwhile, with any bytes.
    pub fn lend(&mut self, page: u32, few: &mut FewPages)
        requires page { page < 2 ^ 20 }
        requires there { has_page self.old.pages page ≡ true }
        requires new { has_page few.old.pages page ≡ false }
        requires spare { 0 < few.old.spare }
        ensures lent { map.get few.new.pages page ≡ map.get self.old.pages page }
        ensures others { (other : ℕ) → other ≢ page → map.get few.new.pages other ≡ map.get few.old.pages other }
        ensures numbers { few.new.numbers ≡ few.old.numbers ++ page ∷ [] }
        ensures few_spare { few.new.spare + 1 ≡ few.old.spare }
        ensures kept { (other : ℕ) → other ≢ page → map.get self.new.pages other ≡ map.get self.old.pages other }
        ensures pages { has_page self.new.pages ≡ has_page self.old.pages }
        ensures mine { self.new.numbers ≡ self.old.numbers }
        ensures spare { self.new.spare ≡ self.old.spare }
    {
        let place = self.directory.entry(page);
        few.take_in(page, &mut self.backed[place]);
    }

    /// Lends a copy of a page, which stays.
    pub fn lend_copy(&self, page: u32, few: &mut FewPages)
        requires page { page < 2 ^ 20 }
        requires there { has_page self.now.pages page ≡ true }
        requires new { has_page few.old.pages page ≡ false }
        requires spare { 0 < few.old.spare }
        ensures lent { map.get few.new.pages page ≡ map.get self.now.pages page }
        ensures others { (other : ℕ) → other ≢ page → map.get few.new.pages other ≡ map.get few.old.pages other }
        ensures numbers { few.new.numbers ≡ few.old.numbers ++ page ∷ [] }
        ensures few_spare { few.new.spare + 1 ≡ few.old.spare }
    {
        let place = self.directory.entry(page);
        few.take_copy(page, &self.backed[place]);
    }

    /// Takes the page back that the other memory took in last, and answers whether there was one. A page that was copied
    /// takes the place of the one that it was copied from.
    pub fn take_back(&mut self, few: &mut FewPages) -> bool
        requires low { (page : ℕ) → has_page few.old.pages page ≡ true → page < 2 ^ 20 }
        requires mine { (page : ℕ) → has_page few.old.pages page ≡ true → has_page self.old.pages page ≡ true }
        ensures none { result ≡ false → few.old.numbers ≡ [] }
        ensures some { result ≡ true → (page : ℕ) × (has_page few.old.pages page ≡ true) × (few.old.numbers ≡ few.new.numbers ++ page ∷ []) × GoesBack few.old.pages few.new.pages self.old.pages self.new.pages page }
        ensures few_spare { result ≡ true → few.new.spare ≡ few.old.spare + 1 }
        ensures empty { result ≡ false → (few.new ≡ few.old) × (self.new ≡ self.old) × ((page : ℕ) → has_page few.old.pages page ≡ false) }
        ensures pages { has_page self.new.pages ≡ has_page self.old.pages }
        ensures numbers { self.new.numbers ≡ self.old.numbers }
        ensures spare { self.new.spare ≡ self.old.spare }
    {
        let Some(page) = few.last() else {
            return false;
        };
        let place = self.directory.entry(page);
        few.give_back(page, &mut self.backed[place]);
        true
    }

    /// Takes all pages back that the other memory has.
    pub fn take_all_back(&mut self, few: &mut FewPages)
        requires low { (page : ℕ) → has_page few.old.pages page ≡ true → page < 2 ^ 20 }
        requires mine { (page : ℕ) → has_page few.old.pages page ≡ true → has_page self.old.pages page ≡ true }
        ensures back { AllBack few.old.pages self.old.pages self.new.pages }
        ensures pages { has_page self.new.pages ≡ has_page self.old.pages }
        ensures numbers { self.new.numbers ≡ self.old.numbers }
        ensures spare { self.new.spare ≡ self.old.spare }
        ensures none { few.new.numbers ≡ [] }
        ensures gone { (page : ℕ) → has_page few.new.pages page ≡ false }
        ensures few_spare { few.new.spare ≡ few.old.spare + length few.old.numbers }
    {
        while self.take_back(few) {}
    }
}
