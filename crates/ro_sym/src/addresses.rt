//! The function, or the data object, that an address lies in.
ghost use Rattle.std.specs.Prelude.{◌≡◌};
ghost use Rattle.std.specs.Option.{option_map};
ghost use Rattle.ro_sym.specs.Addresses.{position_of, symbol_over, function_over, object_over};

use crate::sections::find_symbols;
use crate::symbols::{Kind, find_around, string_from};
use ro_elf::SectionTable;

/// A symbol that holds an address, and how far behind its start that is, in bytes.
#[derive(Clone, Copy, PartialEq, Eq, Debug)]
pub struct Within<'a> {
    pub name: &'a [u8],
    pub offset: u32,
}

/// The function that holds an address of a file, whose section headers stand where the table says: the first function
/// symbol of its first symbol table whose bytes hold the address. A symbol without a size holds its value alone. None where
/// there is no such function, and where the sections or the symbols aren't as they must be (ELF32).
///
/// Its name ends before its first zero byte, or with the strings.
pub fn function_at(bytes: &[u8], sections: SectionTable, address: u32) -> Option<Within<'_>>
    ensures { option_map position_of result ≡ function_over bytes.now sections address }
{
    symbol_at(bytes, sections, Kind::Function, address)
}

/// The data object that holds an address of a file, whose section headers stand where the table says: the first object symbol
/// of its first symbol table whose bytes hold the address. A symbol without a size holds none. None where there is no such
/// object, and where the sections or the symbols aren't as they must be (ELF32).
///
/// Its name ends before its first zero byte, or with the strings.
pub fn object_at(bytes: &[u8], sections: SectionTable, address: u32) -> Option<Within<'_>>
    ensures { option_map position_of result ≡ object_over bytes.now sections address }
{
    symbol_at(bytes, sections, Kind::Object, address)
}

// The first symbol of a kind whose bytes hold an address.
#[tactic(auto, unfolding(crate::specs::Addresses::symbol_over))]
fn symbol_at(bytes: &[u8], sections: SectionTable, kind: Kind, address: u32) -> Option<Within<'_>>
    ensures { option_map position_of result ≡ symbol_over kind bytes.now sections address }
{
    let found = find_symbols(bytes, sections).ok()?;
    let symbol = find_around(found.symbols, kind, address)?;
    Some(Within {
        name: string_from(found.strings, symbol.name),
        offset: address - symbol.value,
    })
}
