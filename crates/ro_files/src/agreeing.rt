//! Whether a record is of the files of a command.
ghost use Rattle.std.specs.Prelude.{◌≡◌, None, IfOk, IfErr};
ghost use Rattle.ro_files.specs.Agreeing.{other_digest as other_digest_of, other_file as other_file_of};
ghost use Rattle.ro_files.specs.Refusals.{RefusesFiles};

use ro_journal_text::{DIGEST_BYTES, Recorded};
use ro_report::{Answer, HeadLine};
use sha2::{Digest, Sha256};

// Whether a journal has no head, or one that is of these files.
pub(crate) fn same_files(
    recorded: Option<Recorded>,
    executable: &[u8],
    input: &[u8],
) -> Result<(), Answer>
    ensures same { IfOk result (λ _. other_file_of recorded executable.now input.now ≡ None) }
    ensures refused { IfErr result (RefusesFiles recorded executable.now input.now) }
{
    match other_file(recorded, executable, input) {
        Some(line) => Err(Answer::Other(line)),
        None => Ok(()),
    }
}

// The first line of a head whose digest is not that of the file.
fn other_file(recorded: Option<Recorded>, executable: &[u8], input: &[u8]) -> Option<HeadLine>
    ensures { result ≡ other_file_of recorded executable.now input.now }
{
    let recorded = recorded?;
    other_digest(HeadLine::Exe, &recorded.exe, executable).or(other_digest(
        HeadLine::Input,
        &recorded.input,
        input,
    ))
}

// The line of a head, unless its digest is that of the content.
fn other_digest(line: HeadLine, digest: &[u8; DIGEST_BYTES], content: &[u8]) -> Option<HeadLine>
    ensures { result ≡ other_digest_of line digest.now content.now }
{
    if *digest == Sha256::digest(content) {
        None
    } else {
        Some(line)
    }
}
