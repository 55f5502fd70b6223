//! Lines in a text.
use ro_text::Line;
use std::fmt;

/// A line, which is shown without its end.
#[derive(Drop)]
pub(crate) struct WithoutEnd(pub(crate) Line);

impl fmt::Display for WithoutEnd {
    fn fmt<W: fmt::Write>(&self, f: &mut fmt::Formatter<W>) -> fmt::Result {
        for byte in self.0.as_bytes() {
            if *byte != b'\n' {
                f.write_char(char::from(*byte))?;
            }
        }
        Ok(())
    }
}
