//! The functions and the data objects of an executable file by their addresses.
ghost use Rattle.std.specs.Prelude.{◌≡◌};
ghost use Rattle.std.specs.Option.{option_map};
ghost use Rattle.ro_sym.specs.Addresses.{position_of};
ghost use Rattle.ro_image.specs.Executable.{function_in, object_in};

use ro_elf::read_elf;
use ro_sym::Within;

/// The function that holds an address of an executable's file: the first function symbol of its first symbol table whose
/// bytes hold the address. A symbol without a size holds its value alone. None where there is no such function, and where the
/// file's headers, its sections or its symbols aren't as they must be (ELF32).
///
/// Its name ends before its first zero byte, or with the strings.
pub fn function_at(bytes: &[u8], address: u32) -> Option<Within<'_>>
    ensures { option_map position_of result ≡ function_in bytes.now address }
{
    let elf = read_elf(bytes).ok()?;
    ro_sym::function_at(bytes, elf.sections(), address)
}

/// The data object that holds an address of an executable's file: the first object symbol of its first symbol table whose
/// bytes hold the address. A symbol without a size holds none. None where there is no such object, and where the file's
/// headers, its sections or its symbols aren't as they must be (ELF32).
///
/// Its name ends before its first zero byte, or with the strings.
pub fn object_at(bytes: &[u8], address: u32) -> Option<Within<'_>>
    ensures { option_map position_of result ≡ object_in bytes.now address }
{
    let elf = read_elf(bytes).ok()?;
    ro_sym::object_at(bytes, elf.sections(), address)
}
