//! Symbols and their names.
ghost use Rattle.std.specs.Prelude.{◌≡◌, ◌==◌, ℕ, ◌≤◌, [], ◌∷◌, ◌++◌, IfSome, nat_lt, length, map, find, drop, position, nat_eq};
ghost use Rattle.std.specs.List.{list_all, position_or_len, starts_with};
ghost use Rattle.ro_sym.specs.Symbols.{symbol_in, type_of, is_of, is_function, is_ended, is_below, are_ended, is_called, agrees, place_of, length_of, holds, is_around, string_at};

use crate::sections::SYMBOL_SIZE;
use ro_elf::{half_at, word_at};

// Where the fields of a symbol stand, by their names in ELF32.
const ST_NAME: usize = 0;

const ST_VALUE: usize = 4;

const ST_SIZE: usize = 8;

const ST_INFO: usize = 12;

const ST_SHNDX: usize = 14;

// The types of symbols that are looked at.
const STT_OBJECT: u8 = 1;

const STT_FUNC: u8 = 2;

/// The section of a symbol that is defined in no section.
const SHN_UNDEF: u16 = 0;

/// A symbol: the place of its name among the strings, its value, how many bytes it has from there on, its type in the low
/// four bits of `info`, and the number of the section that it is defined in, or 0.
#[derive(Clone, Copy, PartialEq, Eq, Debug)]
pub(crate) struct Symbol {
    pub(crate) name: u32,
    pub(crate) value: u32,
    pub(crate) size: u32,
    pub(crate) info: u8,
    pub(crate) section: u16,
}

/// What a symbol names that is looked at.
#[derive(Clone, Copy, PartialEq, Eq, Debug)]
pub(crate) enum Kind {
    /// A variable: data.
    Object,
    Function,
}

/// The values of the functions with one name: none, one, or more than one.
#[derive(Clone, Copy, PartialEq, Eq, Debug)]
pub(crate) enum Place {
    Nowhere,
    At(u32),
    Several,
}

impl Kind {
    // The type of its symbols.
    fn symbol_type(self) -> u8
        ensures { result ≡ type_of self }
    {
        match self {
            Kind::Object => STT_OBJECT,
            Kind::Function => STT_FUNC,
        }
    }
}

impl Symbol {
    // The symbol that 16 bytes spell.
    #[tactic(auto, unfolding(crate::specs::Symbols::symbol_in))]
    fn from_entry(entry: &[u8; SYMBOL_SIZE]) -> Self
        ensures { result ≡ symbol_in entry.now }
    {
        Symbol {
            name: word_at(entry, ST_NAME),
            value: word_at(entry, ST_VALUE),
            size: word_at(entry, ST_SIZE),
            info: entry[ST_INFO],
            section: half_at(entry, ST_SHNDX),
        }
    }

    // Whether it is of a kind, and defined in the file.
    fn is_of(&self, kind: Kind) -> bool
        ensures { result ≡ is_of kind self.now }
    {
        self.info % 16 == kind.symbol_type() && self.section != SHN_UNDEF
    }

    // Whether it is a function of the file.
    fn is_defined_function(&self) -> bool
        ensures { result ≡ is_function self.now }
    {
        self.is_of(Kind::Function)
    }

    // Whether its name starts below a place, where it is a function.
    fn starts_below(&self, place: usize) -> bool
        ensures { result ≡ is_below place self.now }
    {
        !self.is_defined_function() || (self.name as usize) < place
    }

    // Whether it is a function with a name, which a zero byte ends.
    fn has_name(&self, strings: &[u8], name: &str) -> bool
        ensures { result ≡ is_called strings.now (name.now ++ 0 ∷ []) self.now }
    {
        self.is_defined_function() && stands_at(strings, self.name as usize, name)
    }

    // Whether it has a value, where it is a function with a name.
    fn has_value(&self, strings: &[u8], name: &str, value: u32) -> bool
        ensures { result ≡ agrees strings.now (name.now ++ 0 ∷ []) value self.now }
    {
        !self.has_name(strings, name) || self.value == value
    }

    // How many bytes it has, where it is of a kind; of a function without a size its value is its one byte.
    fn length(&self, kind: Kind) -> u32
        ensures { result ≡ length_of kind self.now }
    {
        match kind {
            Kind::Object => self.size,
            Kind::Function => self.size.max(1),
        }
    }

    // Whether its bytes hold an address, where it is of a kind.
    fn holds(&self, kind: Kind, address: u32) -> bool
        ensures { result ≡ holds kind address self.now }
    {
        self.value <= address && address - self.value < self.length(kind)
    }

    // Whether it is of a kind, and its bytes hold an address.
    fn is_around(&self, kind: Kind, address: u32) -> bool
        ensures { result ≡ is_around kind address self.now }
    {
        self.is_of(kind) && self.holds(kind, address)
    }
}

// How many bytes stand up to the last zero byte, and with it: a string that starts among them is ended.
fn ended_size(strings: &[u8]) -> usize
    ensures { (place : ℕ) → is_ended strings.now place ≡ nat_lt place result }
{
    let mut size = 0;
    for (i, byte) in strings.iter().enumerate() {
        if *byte == 0 {
            size = i + 1;
        }
    }
    size
}

// Whether a text stands at a place, and a zero byte behind it.
#[tactic(auto, using(crate::proofs::Strings::starts_with_behind))]
fn stands_at(strings: &[u8], place: usize, text: &str) -> bool
    ensures { result ≡ starts_with nat_eq (drop place strings.now) (text.now ++ 0 ∷ []) }
{
    let text = text.as_bytes();
    let string = bytes_from(strings, place);
    string.starts_with(text) && is_zero(string, text.len())
}

// Whether a zero byte stands at a place.
fn is_zero(bytes: &[u8], place: usize) -> bool
    ensures { result ≡ starts_with nat_eq (drop place bytes.now) (0 ∷ []) }
{
    place < bytes.len() && bytes[place] == 0
}

// Whether the names of all functions are ended.
pub(crate) fn names_end(symbols: &[[u8; SYMBOL_SIZE]], strings: &[u8]) -> bool
    ensures { result ≡ are_ended strings.now (map symbol_in symbols.now) }
{
    all_below(symbols, ended_size(strings))
}

// Whether the names of all functions start below a place.
fn all_below(symbols: &[[u8; SYMBOL_SIZE]], place: usize) -> bool
    ensures { result ≡ list_all (is_below place) (map symbol_in symbols.now) }
{
    symbols
        .iter()
        .map(|entry| Symbol::from_entry(entry))
        .all(|symbol| symbol.starts_below(place))
}

// The first function with a name.
fn find_called(symbols: &[[u8; SYMBOL_SIZE]], strings: &[u8], name: &str) -> Option<Symbol>
    ensures { result ≡ find (is_called strings.now (name.now ++ 0 ∷ [])) (map symbol_in symbols.now) }
{
    symbols
        .iter()
        .map(|entry| Symbol::from_entry(entry))
        .find(|symbol| symbol.has_name(strings, name))
}

// Whether each function with a name has a value.
fn all_at(symbols: &[[u8; SYMBOL_SIZE]], strings: &[u8], name: &str, value: u32) -> bool
    ensures { result ≡ list_all (agrees strings.now (name.now ++ 0 ∷ []) value) (map symbol_in symbols.now) }
{
    symbols
        .iter()
        .map(|entry| Symbol::from_entry(entry))
        .all(|symbol| symbol.has_value(strings, name, value))
}

// The value of the functions with a name.
pub(crate) fn find_place(symbols: &[[u8; SYMBOL_SIZE]], strings: &[u8], name: &str) -> Place
    ensures { result ≡ place_of strings.now (map symbol_in symbols.now) (name.now ++ 0 ∷ []) }
{
    let Some(first) = find_called(symbols, strings, name) else {
        return Place::Nowhere;
    };
    if all_at(symbols, strings, name, first.value) {
        Place::At(first.value)
    } else {
        Place::Several
    }
}

// The first symbol of a kind whose bytes hold an address.
pub(crate) fn find_around(symbols: &[[u8; SYMBOL_SIZE]], kind: Kind, address: u32) -> Option<Symbol>
    ensures found { result ≡ find (is_around kind address) (map symbol_in symbols.now) }
    ensures starts { IfSome result (λ symbol. symbol.value ≤ address) }
{
    symbols
        .iter()
        .map(|entry| Symbol::from_entry(entry))
        .find(|symbol| symbol.is_around(kind, address))
}

// The string from a place on, up to its first zero byte.
pub(crate) fn string_from(strings: &[u8], place: u32) -> &[u8]
    ensures { result.now ≡ string_at strings.now place }
{
    let rest = bytes_from(strings, place as usize);
    &rest[..string_len(rest)]
}

// The bytes from a place on.
fn bytes_from(bytes: &[u8], place: usize) -> &[u8]
    ensures { result.now ≡ drop place bytes.now }
{
    if place < bytes.len() {
        &bytes[place..]
    } else {
        &[]
    }
}

// How many bytes stand before the first zero byte.
#[tactic(auto, using(crate::proofs::Ends::first_place))]
fn string_len(bytes: &[u8]) -> usize
    ensures len { result ≡ position_or_len (λ b. b == 0) bytes.now }
    ensures within { result ≤ length bytes.now }
{
    zero_place(bytes).unwrap_or(bytes.len())
}

// Where the first zero byte stands.
fn zero_place(bytes: &[u8]) -> Option<usize>
    ensures { result ≡ position (λ b. b == 0) bytes.now }
{
    bytes.iter().position(|byte| *byte == 0)
}
