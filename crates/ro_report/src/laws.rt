//! The report of a run whose journal is shown, line by line.
ghost use Rattle.std.specs.Prelude.{ℕ, List, ◌≡◌, [], ◌∷◌, ◌++◌, Option, Some, None};
ghost use Rattle.ro_journal.specs.declared.Entry.{Entry};
ghost use Rattle.ro_journal_text.specs.Texts.{header_text, journal_text};
ghost use Rattle.ro_journal_text.specs.Records.{head_text, record_text};
ghost use Rattle.ro_journal_text.specs.declared.records.Recorded.{Recorded};
ghost use Rattle.ro_report.specs.declared.answers.Answer.{Answer};
ghost use Rattle.ro_settings.specs.declared.Mode.{Mode};
ghost use Rattle.ro_report.specs.Report.{answer_text, summary_text, report_text, report_of};

/// A report with its journal is the journal's text, the summary and the answer, and one with its record is the record's text and
/// the same; one of a run that did nothing is the answer alone, and one without its journal leaves it out.
pub fn shown_line_by_line()
    ensures shown { (mode : Mode) (entry : Entry) (journal : List Entry) (bytes : ℕ) (answer : Answer) → report_of mode (Some (header_text mode)) (entry ∷ journal) bytes answer ≡ journal_text mode (entry ∷ journal) ++ (summary_text mode (entry ∷ journal) bytes ++ answer_text answer) }
    ensures recorded { (mode : Mode) (recorded : Recorded) (entry : Entry) (journal : List Entry) (bytes : ℕ) (answer : Answer) → report_of mode (Some (head_text recorded)) (entry ∷ journal) bytes answer ≡ record_text recorded (entry ∷ journal) ++ (summary_text mode (entry ∷ journal) bytes ++ answer_text answer) }
    ensures nothing { (mode : Mode) (head : Option (List ℕ)) (bytes : ℕ) (answer : Answer) → report_of mode head [] bytes answer ≡ answer_text answer }
    ensures left_out { (mode : Mode) (journal : List Entry) (bytes : ℕ) (answer : Answer) → report_of mode None journal bytes answer ≡ report_text mode journal bytes answer }
{}
