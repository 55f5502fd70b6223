//! Little-endian numbers in a file.
ghost use Rattle.std.specs.Prelude.{◌≡◌, ◌+◌, ◌≤◌, length};
ghost use Rattle.ro_elf.specs.Numbers.{half_in, word_in};

use byteorder::{ByteOrder, LittleEndian};

/// The two-byte number at an offset.
pub fn half_at(bytes: &[u8], offset: usize) -> u16
    requires { offset + 2 ≤ length bytes.now }
    ensures { result ≡ half_in bytes.now offset }
{
    LittleEndian::read_u16(&bytes[offset..])
}

/// The four-byte number at an offset.
pub fn word_at(bytes: &[u8], offset: usize) -> u32
    requires { offset + 4 ≤ length bytes.now }
    ensures { result ≡ word_in bytes.now offset }
{
    LittleEndian::read_u32(&bytes[offset..])
}
