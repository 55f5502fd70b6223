//! The first lines of a journal's text.
ghost use Rattle.std.specs.Prelude.{◌≡◌};
ghost use Rattle.ro_journal_text.specs.Reading.{heading_of, mode_of, version_of};
ghost use Rattle.ro_journal_text.specs.Texts.{header_text};

use crate::versions::Version;
use ro_settings::Mode;

/// Which first line a text has.
#[derive(Clone, Copy, PartialEq, Eq, Debug)]
pub enum Heading {
    /// `romain 1`, of a run by votes.
    First,
    /// `romain 2` of a run by votes, `romain 2 coop` of a cooperative one.
    Second(Mode),
}

impl Heading {
    /// The version of the lines behind it.
    pub fn version(self) -> Version
        ensures { result ≡ version_of self }
    {
        match self {
            Heading::First => Version::First,
            Heading::Second(_) => Version::Second,
        }
    }

    /// The mode of the run.
    pub fn mode(self) -> Mode
        ensures { result ≡ mode_of self }
    {
        match self {
            Heading::First => Mode::Voted,
            Heading::Second(mode) => mode,
        }
    }
}

// Which one the line is, without its line feed.
pub(crate) fn read_heading(line: &[u8]) -> Option<Heading>
    ensures { result ≡ heading_of line.now }
{
    if line == b"romain 2".as_slice() {
        Some(Heading::Second(Mode::Voted))
    } else if line == b"romain 2 coop".as_slice() {
        Some(Heading::Second(Mode::Cooperative))
    } else if line == b"romain 1".as_slice() {
        Some(Heading::First)
    } else {
        None
    }
}

/// The first line of the text of a journal that is written.
pub fn header(mode: Mode) -> &'static [u8]
    ensures { result.now ≡ header_text mode }
{
    match mode {
        Mode::Voted => b"romain 2\n",
        Mode::Cooperative => b"romain 2 coop\n",
    }
}
