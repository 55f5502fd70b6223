//! Registers in a text.
use ro_assembly::register_name;
use std::fmt;

/// The name of the register of a number in the calling convention; none where no register has the number.
pub(crate) fn abi_name(number: u32) -> Option<&'static str> {
    match u8::try_from(number) {
        Ok(number) if number < 32 => Some(register_name(number)),
        _ => None,
    }
}

/// A register, which is shown by its number: `x10`.
#[derive(Clone, Copy)]
pub(crate) struct Numbered(pub(crate) u32);

impl fmt::Display for Numbered {
    fn fmt<W: fmt::Write>(&self, f: &mut fmt::Formatter<W>) -> fmt::Result {
        let number = self.0;
        write!(f, "x{number}")
    }
}

/// A register, which is shown by its name and its number: `a0 (x10)`.
#[derive(Clone, Copy)]
pub(crate) struct Named(pub(crate) u32);

impl fmt::Display for Named {
    fn fmt<W: fmt::Write>(&self, f: &mut fmt::Formatter<W>) -> fmt::Result {
        let number = Numbered(self.0);
        match abi_name(self.0) {
            Some(name) => write!(f, "{name} ({number})"),
            None => write!(f, "{number}"),
        }
    }
}
