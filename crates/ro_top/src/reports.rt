//! The report of a run: the journal, where it is to be shown, a line that sums it up, where there is one, and the answer's line.
//! Of a plan's run: its steps and what they wrote, where it was run to its end, and the answer's line.
ghost use Rattle.std.specs.Prelude.{◌≡◌, ◌<◌, ◌≤◌, ◌^◌, OnOk, OnErr, length};
ghost use Rattle.ro_io.specs.Outside.{Rose, more};
ghost use Rattle.ro_journal_text.specs.Texts.{entries_text};
ghost use Rattle.ro_journal.specs.Counts.{struck_in};
ghost use Rattle.ro_plans.specs.Plans.{plan_in};
ghost use Rattle.ro_report.specs.Report.{answer_text, journal_part, report_text, report_of};
ghost use Rattle.ro_top.specs.Top.{TakesFront, IsTold, is_whole, plain_part, plain_report, summary_part, text_in};
ghost use Rattle.ro_top.specs.declared.done.Told.TheVariants as told;

use crate::done::Told;
use ro_io::{Failed, Sink};
use ro_journal::Entry;
use ro_report::{Answer, answer_line, entry_text, plain_line, summary};
use ro_settings::Mode;

// Tells the report of a run that wrote so many bytes, with its journal behind the head, where that is there.
pub(crate) fn tell<E: Sink>(
    report: &mut E,
    mode: Mode,
    head: Option<&[u8]>,
    journal: &[Entry],
    bytes: u64,
    answer: &Answer,
) -> Told
    requires unfailed { E.failures report.old ≡ 0 }
    requires struck { struck_in journal.now < 2 ^ 64 }
    requires steps { length (plan_in mode journal.now) < 2 ^ 64 }
    ensures told { IsTold result (E.held report.old) (E.held report.new) (report_of mode (text_in head.entry) journal.now bytes answer.now) }
    ensures cause { result ≡ told.Failed → Rose (E.failures report.old) (E.failures report.new) }
    ensures calm { result ≡ told.Whole → E.failures report.new ≡ E.failures report.old }
{
    match give_report(report, mode, head, journal, bytes, answer) {
        Ok(()) => Told::Whole,
        Err(Failed) => Told::Failed,
    }
}

// Tells the report of a plan's run.
pub(crate) fn tell_plan<E: Sink>(report: &mut E, steps: u64, bytes: u64, answer: &Answer) -> Told
    requires unfailed { E.failures report.old ≡ 0 }
    ensures told { IsTold result (E.held report.old) (E.held report.new) (plain_report steps bytes answer.now) }
    ensures cause { result ≡ told.Failed → Rose (E.failures report.old) (E.failures report.new) }
    ensures calm { result ≡ told.Whole → E.failures report.new ≡ E.failures report.old }
{
    match give_plan(report, steps, bytes, answer) {
        Ok(()) => Told::Whole,
        Err(Failed) => Told::Failed,
    }
}

// Tells an answer.
pub(crate) fn tell_answer<E: Sink>(report: &mut E, answer: &Answer) -> Told
    requires unfailed { E.failures report.old ≡ 0 }
    ensures told { IsTold result (E.held report.old) (E.held report.new) (answer_text answer.now) }
    ensures cause { result ≡ told.Failed → Rose (E.failures report.old) (E.failures report.new) }
    ensures calm { result ≡ told.Whole → E.failures report.new ≡ E.failures report.old }
{
    match give_all(report, answer_line(answer).as_bytes()) {
        Ok(()) => Told::Whole,
        Err(Failed) => Told::Failed,
    }
}

fn give_plan<E: Sink>(report: &mut E, steps: u64, bytes: u64, answer: &Answer) -> Result<(), Failed>
    requires unfailed { E.failures report.old ≡ 0 }
    ensures ok { OnOk result (E.held report.new ≡ more (E.held report.old) (plain_report steps bytes answer.now)) }
    ensures err { OnErr result (TakesFront (E.held report.old) (E.held report.new) (plain_report steps bytes answer.now)) }
    ensures cause { OnErr result (Rose (E.failures report.old) (E.failures report.new)) }
    ensures calm { OnOk result (E.failures report.new ≡ E.failures report.old) }
{
    give_steps(report, steps, bytes, answer)?;
    give_all(report, answer_line(answer).as_bytes())
}

// The steps and the bytes of a plan, where it was run to its end.
fn give_steps<E: Sink>(
    report: &mut E,
    steps: u64,
    bytes: u64,
    answer: &Answer,
) -> Result<(), Failed>
    requires unfailed { E.failures report.old ≡ 0 }
    ensures ok { OnOk result (E.held report.new ≡ more (E.held report.old) (plain_part steps bytes answer.now)) }
    ensures err { OnErr result (TakesFront (E.held report.old) (E.held report.new) (plain_part steps bytes answer.now)) }
    ensures cause { OnErr result (Rose (E.failures report.old) (E.failures report.new)) }
    ensures calm { OnOk result (E.failures report.new ≡ E.failures report.old) }
    ensures failures { E.failures report.old ≤ E.failures report.new }
{
    if is_whole(answer) {
        give_all(report, plain_line(steps, bytes).as_bytes())
    } else {
        Ok(())
    }
}

// Whether it is the answer of a plan that was run to its end.
fn is_whole(answer: &Answer) -> bool
    ensures { result ≡ is_whole answer.now }
{
    matches!(
        answer,
        Answer::Exit(_) | Answer::Deadlock | Answer::Trap(_) | Answer::Unended
    )
}

fn give_report<E: Sink>(
    report: &mut E,
    mode: Mode,
    head: Option<&[u8]>,
    journal: &[Entry],
    bytes: u64,
    answer: &Answer,
) -> Result<(), Failed>
    requires unfailed { E.failures report.old ≡ 0 }
    requires struck { struck_in journal.now < 2 ^ 64 }
    requires steps { length (plan_in mode journal.now) < 2 ^ 64 }
    ensures ok { OnOk result (E.held report.new ≡ more (E.held report.old) (report_of mode (text_in head.entry) journal.now bytes answer.now)) }
    ensures err { OnErr result (TakesFront (E.held report.old) (E.held report.new) (report_of mode (text_in head.entry) journal.now bytes answer.now)) }
    ensures cause { OnErr result (Rose (E.failures report.old) (E.failures report.new)) }
    ensures calm { OnOk result (E.failures report.new ≡ E.failures report.old) }
{
    give_journal(report, head, journal)?;
    give_lines(report, mode, journal, bytes, answer)
}

// The journal behind its head, where it is to be shown and anything ran.
fn give_journal<E: Sink>(
    report: &mut E,
    head: Option<&[u8]>,
    journal: &[Entry],
) -> Result<(), Failed>
    requires unfailed { E.failures report.old ≡ 0 }
    ensures ok { OnOk result (E.held report.new ≡ more (E.held report.old) (journal_part journal.now (text_in head.entry))) }
    ensures err { OnErr result (TakesFront (E.held report.old) (E.held report.new) (journal_part journal.now (text_in head.entry))) }
    ensures cause { OnErr result (Rose (E.failures report.old) (E.failures report.new)) }
    ensures calm { OnOk result (E.failures report.new ≡ E.failures report.old) }
    ensures failures { E.failures report.old ≤ E.failures report.new }
{
    if journal.is_empty() {
        return Ok(());
    }
    match head {
        Some(head) => {
            give_all(report, head)?;
            give_entries(report, journal)
        }
        None => Ok(()),
    }
}

// A line for each entry.
fn give_entries<E: Sink>(report: &mut E, journal: &[Entry]) -> Result<(), Failed>
    requires unfailed { E.failures report.old ≡ 0 }
    ensures ok { OnOk result (E.held report.new ≡ more (E.held report.old) (entries_text journal.now)) }
    ensures err { OnErr result (TakesFront (E.held report.old) (E.held report.new) (entries_text journal.now)) }
    ensures cause { OnErr result (Rose (E.failures report.old) (E.failures report.new)) }
    ensures calm { OnOk result (E.failures report.new ≡ E.failures report.old) }
    ensures failures { E.failures report.old ≤ E.failures report.new }
{
    let mut rest = journal;
    while let Some((entry, behind)) = rest.split_first() {
        give_all(report, entry_text(entry).as_bytes())?;
        rest = behind;
    }
    Ok(())
}

// The summary and the answer.
fn give_lines<E: Sink>(
    report: &mut E,
    mode: Mode,
    journal: &[Entry],
    bytes: u64,
    answer: &Answer,
) -> Result<(), Failed>
    requires unfailed { E.failures report.old ≡ 0 }
    requires struck { struck_in journal.now < 2 ^ 64 }
    requires steps { length (plan_in mode journal.now) < 2 ^ 64 }
    ensures ok { OnOk result (E.held report.new ≡ more (E.held report.old) (report_text mode journal.now bytes answer.now)) }
    ensures err { OnErr result (TakesFront (E.held report.old) (E.held report.new) (report_text mode journal.now bytes answer.now)) }
    ensures cause { OnErr result (Rose (E.failures report.old) (E.failures report.new)) }
    ensures calm { OnOk result (E.failures report.new ≡ E.failures report.old) }
{
    give_summary(report, mode, journal, bytes)?;
    give_all(report, answer_line(answer).as_bytes())
}

// The summary, where anything ran.
fn give_summary<E: Sink>(
    report: &mut E,
    mode: Mode,
    journal: &[Entry],
    bytes: u64,
) -> Result<(), Failed>
    requires unfailed { E.failures report.old ≡ 0 }
    requires struck { struck_in journal.now < 2 ^ 64 }
    requires steps { length (plan_in mode journal.now) < 2 ^ 64 }
    ensures ok { OnOk result (E.held report.new ≡ more (E.held report.old) (summary_part mode journal.now bytes)) }
    ensures err { OnErr result (TakesFront (E.held report.old) (E.held report.new) (summary_part mode journal.now bytes)) }
    ensures cause { OnErr result (Rose (E.failures report.old) (E.failures report.new)) }
    ensures calm { OnOk result (E.failures report.new ≡ E.failures report.old) }
    ensures failures { E.failures report.old ≤ E.failures report.new }
{
    if journal.is_empty() {
        return Ok(());
    }
    give_all(report, summary(mode, journal, bytes).as_bytes())
}

/// Gives all of the bytes to a sink, a piece at a time.
///
/// # Errors
/// Where the sink failed. It took a front of the bytes then.
pub fn give_all<E: Sink>(sink: &mut E, bytes: &[u8]) -> Result<(), Failed>
    requires unfailed { E.failures sink.old ≡ 0 }
    ensures ok { OnOk result (E.held sink.new ≡ more (E.held sink.old) bytes.now) }
    ensures err { OnErr result (TakesFront (E.held sink.old) (E.held sink.new) bytes.now) }
    ensures cause { OnErr result (Rose (E.failures sink.old) (E.failures sink.new)) }
    ensures calm { OnOk result (E.failures sink.new ≡ E.failures sink.old) }
    ensures failures { E.failures sink.old ≤ E.failures sink.new }
{
    let mut rest = bytes;
    while !rest.is_empty() {
        let count = sink.give(rest)?;
        rest = &rest[count..];
    }
    Ok(())
}
