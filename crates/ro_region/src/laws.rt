//! What pages are writable.
ghost use Rattle.std.specs.Prelude.{ℕ, ◌≡◌, ◌/◌, true, false, List};
ghost use Rattle.ro_region.specs.declared.Kind.TheVariants.{Write};
ghost use Rattle.ro_region.specs.declared.Range.{Range};
ghost use Rattle.ro_region.specs.Permission.{is_writable, permits_byte};

/// A page is writable where one of its bytes may be written, and no other page is.
pub fn a_page_is_writable_by_its_bytes()
    ensures some { (ranges : List Range) (page : ℕ) → is_writable ranges page ≡ true → (byte : ℕ) × (byte / 4096 ≡ page) × (permits_byte ranges Write byte ≡ true) }
    ensures none { (ranges : List Range) (page byte : ℕ) → is_writable ranges page ≡ false → byte / 4096 ≡ page → permits_byte ranges Write byte ≡ false }
{}
