//! An audit, from its words to the status of its process.
ghost use Rattle.std.specs.Prelude.{◌≡◌};
ghost use Rattle.ro_words.specs.Uses.{texts_of};
ghost use Rattle.romain_audit.specs.Ends.{Ends, Gives, status_found};

use ro_findings::Verdict;
use ro_io::{Failed, Sink, Store};
use ro_tell::audit_words;
use ro_top::{Told, UNTOLD, answered, give_all};
use std::alloc::Global;

/// The status where a journal is not legal.
const ILLEGAL: u8 = 236;

/// Audits what the words ask for, of which the first is the program's name, and answers the status with which the process ends.
///
/// What is found goes to `out`, and the status is 0 where the journal is legal, and 236 where it is not. Where the words or the
/// files are bad, or there is no memory, `report` gets the answer's line, and the status is that of the answer. It is 251 where the
/// sink of what is to be told failed. Neither sink has failed before.
pub fn audit<S: Store, K: Sink, E: Sink>(
    alloc: Global,
    words: &[&str],
    store: &mut S,
    out: &mut K,
    report: &mut E,
) -> u8
    requires unfailed { (K.failures out.old ≡ 0) × (E.failures report.old ≡ 0) }
    ensures ends { Ends (S.told store.old) (texts_of words.now) (record { status = result; failures_before = S.failures store.old; failures_after = S.failures store.new; calls_before = S.calls store.old; calls_after = S.calls store.new; out_before = record { held = K.held out.old; failures = K.failures out.old }; out_after = record { held = K.held out.new; failures = K.failures out.new }; report_before = record { held = E.held report.old; failures = E.failures report.old }; report_after = record { held = E.held report.new; failures = E.failures report.new } }) }
    ensures files { S.told store.new ≡ S.told store.old }
{
    match audit_words(alloc, words, store) {
        Ok(judged) => {
            let told = give(out, judged.text.as_bytes());
            status_found(told, &judged.findings.verdict)
        }
        Err(answer) => answered(report, &answer),
    }
}

// The status where a journal was judged, and that was told or could not be.
fn status_found(told: Told, verdict: &Verdict) -> u8
    ensures { result ≡ status_found told verdict.now }
{
    match (told, verdict) {
        (Told::Failed, _) => UNTOLD,
        (Told::Whole, Verdict::Legal { .. }) => 0,
        (Told::Whole, Verdict::Illegal { .. }) => ILLEGAL,
    }
}

// Gives a text to a sink, and says whether that took all of it.
fn give<K: Sink>(out: &mut K, text: &[u8]) -> Told
    requires { K.failures out.old ≡ 0 }
    ensures { Gives result text.now (record { held = K.held out.old; failures = K.failures out.old }) (record { held = K.held out.new; failures = K.failures out.new }) }
{
    match give_all(out, text) {
        Ok(()) => Told::Whole,
        Err(Failed) => Told::Failed,
    }
}
