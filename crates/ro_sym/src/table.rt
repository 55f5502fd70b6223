//! The call table.
ghost use Rattle.std.specs.Prelude.{◌≡◌, IfOk, IfErr, Ok, Err, map, length};
ghost use Rattle.std.specs.List.{list_all};
ghost use Rattle.ro_elf.specs.Errors.{number_of};
ghost use Rattle.ro_sym.specs.Symbols.{symbol_in};
ghost use Rattle.ro_sym.specs.Calls.{places_of, is_one, differs, are_different, are_clear, address_of, table_of, table_with, calls_of};

use crate::sections::{SYMBOL_SIZE, find_symbols};
use crate::symbols::{Place, find_place, names_end};
use ro_elf::{Elf, ExeError};
use ro_event::{CallTable, FUNCTIONS, Function};

impl Place {
    // Whether functions with one name have one value.
    fn is_single(self) -> bool
        ensures { result ≡ is_one self }
    {
        !matches!(self, Place::Several)
    }

    // The value, where there is one.
    fn address(self) -> Option<u32>
        ensures { result ≡ address_of self }
    {
        match self {
            Place::At(value) => Some(value),
            Place::Nowhere | Place::Several => None,
        }
    }

    // Whether not both are at one value.
    fn differs_from(self, other: Place) -> bool
        ensures { result ≡ differs self other }
    {
        match (self, other) {
            (Place::At(value), Place::At(other)) => value != other,
            _ => true,
        }
    }

    // Whether it differs from each of the others.
    fn differs_from_all(self, others: &[Place]) -> bool
        ensures { result ≡ list_all (differs self) others.now }
    {
        others.iter().all(|other| self.differs_from(*other))
    }
}

/// The addresses of the functions of POSIX threads in an executable, whose headers were read from the same bytes: the values
/// of the function symbols with their names, in the first symbol table. Which symbols are local, weak or global isn't looked
/// at.
///
/// # Errors
/// `Symbols`, exactly where the section headers, the symbols or their names aren't as they must be (ELF32); else
/// `Functions`, exactly where one of the names has two values or two of them have one.
pub fn calls(bytes: &[u8], elf: &Elf) -> Result<CallTable, ExeError>
    ensures found { IfOk result (λ table. calls_of bytes.now elf.now.sections ≡ Ok table) }
    ensures refused { IfErr result (λ error. calls_of bytes.now elf.now.sections ≡ Err (number_of error)) }
{
    let found = find_symbols(bytes, elf.sections())?;
    table_in(found.symbols, found.strings)
}

// The call table of the functions among symbols.
fn table_in(symbols: &[[u8; SYMBOL_SIZE]], strings: &[u8]) -> Result<CallTable, ExeError>
    ensures found { IfOk result (λ table. table_with strings.now (map symbol_in symbols.now) ≡ Ok table) }
    ensures refused { IfErr result (λ error. table_with strings.now (map symbol_in symbols.now) ≡ Err (number_of error)) }
{
    if !names_end(symbols, strings) {
        return Err(ExeError::Symbols);
    }
    let places = find_places(symbols, strings);
    if !clear(&places) {
        return Err(ExeError::Functions);
    }
    Ok(call_table(&places))
}

// The values of the functions with each name, in the order of the call table.
fn find_places(symbols: &[[u8; SYMBOL_SIZE]], strings: &[u8]) -> [Place; FUNCTIONS]
    ensures { result ≡ places_of strings.now (map symbol_in symbols.now) }
{
    let mut places = [Place::Nowhere; FUNCTIONS];
    for i in 0..FUNCTIONS {
        places[i] = find_place(symbols, strings, Function::at(i).name());
    }
    places
}

// Whether each name has one value at most, and no value two names.
fn clear(places: &[Place]) -> bool
    ensures { result ≡ are_clear places.now }
{
    all_single(places) && all_different(places)
}

fn all_single(places: &[Place]) -> bool
    ensures { result ≡ list_all is_one places.now }
{
    places.iter().all(|place| place.is_single())
}

fn all_different(places: &[Place]) -> bool
    ensures { result ≡ are_different places.now }
{
    for i in 0..places.len() {
        if !places[i].differs_from_all(&places[i + 1..]) {
            return false;
        }
    }
    true
}

fn call_table(places: &[Place; FUNCTIONS]) -> CallTable
    ensures { result ≡ table_of places.now }
{
    let mut addresses = [None; FUNCTIONS];
    for i in 0..FUNCTIONS {
        addresses[i] = places[i].address();
    }
    CallTable::new(addresses)
}
