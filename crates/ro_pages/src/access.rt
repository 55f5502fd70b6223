//! What an instruction needs of a memory.
ghost use Rattle.std.specs.Prelude.{ℕ, Bool, ◌≡◌, ◌*◌, ◌/◌, ◌%◌, ◌^◌, ◌<◌, true, Option, Some};
ghost use Rattle.ro_pages.specs.Bytes.{IsSize, number_at, bytes_of, stored};

/// Bytes at addresses of 32 bits, in pages of 4,096 that are backed or not. Numbers are little endian.
pub trait Memory {
    ghost memory: { Self → ℕ → ℕ };

    ghost backing: { Self → ℕ → Bool };

    /// Which page is kept at a place.
    ghost kept: { Self → ℕ → Option ℕ };

    /// Whether the page of this number is backed.
    fn backed(&self, page: u32) -> bool
        requires { page < 2 ^ 20 }
        ensures { result ≡ backing self.now page };

    /// The number that the 1, 2 or 4 bytes from an address on spell. The address is a multiple of the size, and its
    /// page is backed.
    fn load(&self, address: u32, size: u32) -> u32
        requires size { IsSize size }
        requires aligned { address % size ≡ 0 }
        requires backed { backing self.now (address / 4096) ≡ true }
        ensures value { result ≡ number_at (memory self.now) address size }
        ensures below { result < 2 ^ (8 * size) };

    /// The place at which a page is kept, which is backed. It stays there.
    fn place(&self, page: u32) -> usize
        requires page { page < 2 ^ 20 }
        requires backed { backing self.now page ≡ true }
        ensures { kept self.now result ≡ Some page };

    /// The word that the four bytes from an address on spell. The address is a multiple of 4, and its page is kept at
    /// that place.
    fn load_at(&self, place: usize, address: u32) -> u32
        requires aligned { address % 4 ≡ 0 }
        requires kept { kept self.now place ≡ Some (address / 4096) }
        ensures { result ≡ number_at (memory self.now) address 4 };

    /// The number that the 1, 2 or 4 bytes from an address on spell. The address is a multiple of the size, and its page
    /// is kept at that place.
    fn load_kept(&self, place: usize, address: u32, size: u32) -> u32
        requires size { IsSize size }
        requires aligned { address % size ≡ 0 }
        requires kept { kept self.now place ≡ Some (address / 4096) }
        ensures value { result ≡ number_at (memory self.now) address size }
        ensures below { result < 2 ^ (8 * size) };

    /// Stores the lowest 1, 2 or 4 bytes of a number from an address on. The address is a multiple of the size, and
    /// its page is backed.
    fn store(&mut self, address: u32, size: u32, value: u32)
        requires size { IsSize size }
        requires aligned { address % size ≡ 0 }
        requires backed { backing self.old (address / 4096) ≡ true }
        ensures bytes { memory self.new ≡ stored (memory self.old) address (bytes_of size value) }
        ensures pages { backing self.new ≡ backing self.old }
        ensures kept { kept self.new ≡ kept self.old };

    /// Stores the lowest 1, 2 or 4 bytes of a number from an address on. The address is a multiple of the size, and
    /// its page is kept at that place.
    fn store_kept(&mut self, place: usize, address: u32, size: u32, value: u32)
        requires size { IsSize size }
        requires aligned { address % size ≡ 0 }
        requires kept { kept self.old place ≡ Some (address / 4096) }
        ensures bytes { memory self.new ≡ stored (memory self.old) address (bytes_of size value) }
        ensures pages { backing self.new ≡ backing self.old }
        ensures kept { kept self.new ≡ kept self.old };
}
