//! The head of a record: of what run a journal is.
ghost use Rattle.std.specs.Prelude.{◌≡◌, ◌≤◌, ◌++◌, ℕ, List, IfOk, OnOk, codes, length};
ghost use Rattle.ro_settings.specs.Ranges.{range_of};
ghost use Rattle.ro_text.specs.Lines.{line_text};
ghost use Rattle.ro_journal_text.specs.Records.{digest_words, head_text, number_words, record_header};

use ro_settings::{
    DRIVERS, LIMIT, Mode, NumberOption, QUANTUM, REPLICAS, SCRUB, Settings, WATCHDOG,
};
use ro_text::Text;
use std::alloc::{AllocError, Global};

/// How many bytes a SHA-256 has.
pub const DIGEST_BYTES: usize = 32;

/// The number of the line of a record's first entry.
pub const FIRST_ENTRY: u64 = 11;

/// Of what run a journal is.
#[derive(Clone, Copy, PartialEq, Eq, Debug)]
pub struct Recorded {
    /// What the run was asked for.
    pub settings: Settings,
    /// The SHA-256 of the executable.
    pub exe: [u8; DIGEST_BYTES],
    /// The SHA-256 of the input, of no bytes where there was none.
    pub input: [u8; DIGEST_BYTES],
    /// The SHA-256 of the list of faults, of no bytes where there was none.
    pub faults: [u8; DIGEST_BYTES],
}

/// The lines of a record before those of its entries.
///
/// # Errors
/// Memory can run out.
#[tactic(auto, using(crate::proofs::HeadLines::joined))]
pub fn head_text(alloc: Global, recorded: &Recorded) -> Result<Vec<u8>, AllocError>
    ensures { IfOk result (λ bytes. bytes.items ≡ head_text recorded.now) }
{
    let settings = recorded.settings;
    let mut text = Vec::from_slice(alloc, record_header(settings.mode))?;
    add_small_number(&mut text, &REPLICAS, settings.replicas)?;
    add_small_number(&mut text, &DRIVERS, settings.drivers)?;
    add_small_number(&mut text, &WATCHDOG, settings.watchdog)?;
    add_small_number(&mut text, &QUANTUM, settings.quantum)?;
    add_number(&mut text, &LIMIT, settings.limit)?;
    add_number(&mut text, &SCRUB, settings.scrub)?;
    add_digest(&mut text, b"exe ", &recorded.exe)?;
    add_digest(&mut text, b"input ", &recorded.input)?;
    add_digest(&mut text, b"faults ", &recorded.faults)?;
    Ok(text)
}

// The first line.
fn record_header(mode: Mode) -> &'static [u8]
    ensures { result.now ≡ record_header mode ++ codes "\n" }
{
    match mode {
        Mode::Voted => b"romain 3 vote\n",
        Mode::Cooperative => b"romain 3 coop\n",
    }
}

// Appends the line of a number of 32 bits.
fn add_small_number(
    text: &mut Vec<u8>,
    option: &NumberOption,
    number: u32,
) -> Result<(), AllocError>
    requires { length option.now.name.now ≤ 100 }
    ensures { OnOk result (text.new.items ≡ text.old.items ++ line_text (number_words (range_of option.now) number)) }
{
    add_number(text, option, u64::from(number))
}

// Appends the line of a number.
fn add_number(text: &mut Vec<u8>, option: &NumberOption, number: u64) -> Result<(), AllocError>
    requires { length option.now.name.now ≤ 100 }
    ensures { OnOk result (text.new.items ≡ text.old.items ++ line_text (number_words (range_of option.now) number)) }
{
    let mut line = Text::new();
    line.push(option.name);
    line.add_number(number);
    text.extend_from_slice(line.end().as_bytes())?;
    Ok(())
}

// Appends the line of a digest.
fn add_digest(
    text: &mut Vec<u8>,
    start: &[u8],
    digest: &[u8; DIGEST_BYTES],
) -> Result<(), AllocError>
    ensures { (name : List ℕ) → start.now ≡ name ++ codes " " → OnOk result (text.new.items ≡ text.old.items ++ line_text (digest_words name digest.now)) }
{
    let mut spelled = [0u8; 2 * DIGEST_BYTES];
    let _ = hex::encode_to_slice(digest.as_slice(), &mut spelled);
    text.extend_from_slice(start)?;
    text.extend_from_slice(&spelled)?;
    text.extend_from_slice(b"\n")?;
    Ok(())
}
