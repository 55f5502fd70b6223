//! Faults that are drawn for an executable.
ghost use Rattle.std.specs.Prelude.{◌≡◌, ◌⊎◌, IfOk};
ghost use Rattle.ro_faults.specs.Texts.{faults_text};
ghost use Rattle.ro_image.specs.Image.{segments_in};
ghost use Rattle.ro_inject.specs.Draws.{faults_drawn};
ghost use Rattle.ro_report.specs.declared.answers.Answer.TheVariants as a;
ghost use Rattle.ro_top.specs.Ends.{WritesText};

use crate::writing::write;
use ro_faults::write_faults;
use ro_image::Executable;
use ro_inject::{Bounds, draw};
use ro_io::Sink;
use ro_report::Answer;
use ro_words::InjectCommand;
use std::alloc::{AllocError, Global};

// More bytes than the lines of 256 faults have.
const MOST_TEXT: usize = 1024 * 1024;

// Draws the faults that are asked for in the segments of an executable, and writes their list.
pub(crate) fn inject<K: Sink>(
    alloc: Global,
    image: &Executable,
    command: &InjectCommand<'_>,
    out: &mut K,
) -> Answer
    requires unfailed { K.failures out.old ≡ 0 }
    ensures { ((result ≡ a.NoMemory) × (K.held out.new ≡ K.held out.old) × (K.failures out.new ≡ K.failures out.old))
        ⊎ WritesText (faults_text (faults_drawn (segments_in image.now.ranges) command.now.replica command.now.seed command.now.count)) (K.held out.old) (K.held out.new) (K.failures out.old) (K.failures out.new) result }
{
    match drawn_text(alloc, image, command) {
        Ok(text) if text.len() <= MOST_TEXT => write(out, text.as_slice()),
        _ => Answer::NoMemory,
    }
}

// The list of the faults.
fn drawn_text(
    alloc: Global,
    image: &Executable,
    command: &InjectCommand<'_>,
) -> Result<Vec<u8>, AllocError>
    ensures { IfOk result (λ text. text.items ≡ faults_text (faults_drawn (segments_in image.now.ranges) command.now.replica command.now.seed command.now.count)) }
{
    let bounds = Bounds::of(image, command.replica);
    let faults = draw(alloc, command.seed, command.count, &bounds)?;
    write_faults(alloc, faults.as_slice())
}
