//! Texts that are the output of a command.
ghost use Rattle.std.specs.Prelude.{◌≡◌, ◌^◌, ◌<◌, length};
ghost use Rattle.ro_top.specs.Ends.{WritesText};

use ro_io::{Sink, send};
use ro_report::Answer;

// Writes a text, and says how that ended.
pub(crate) fn write<K: Sink>(out: &mut K, text: &[u8]) -> Answer
    requires unfailed { K.failures out.old ≡ 0 }
    requires few { length text.now < 2 ^ 32 }
    ensures { WritesText text.now (K.held out.old) (K.held out.new) (K.failures out.old) (K.failures out.new) result }
{
    match send(out, text) {
        None => Answer::Exit(0),
        Some(taken) => Answer::SinkFailed { taken },
    }
}
