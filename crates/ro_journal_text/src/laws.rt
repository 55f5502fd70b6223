//! What is written is read back.
ghost use Rattle.std.specs.Prelude.{ℕ, List, ◌≡◌, ◌++◌, true, Ok};
ghost use Rattle.std.specs.List.{list_all};
ghost use Rattle.ro_journal.specs.declared.Entry.{Entry};
ghost use Rattle.ro_journal_text.specs.Texts.{text_under, journal_text};
ghost use Rattle.ro_journal_text.specs.declared.headings.Heading.{Heading};
ghost use Rattle.ro_journal_text.specs.declared.headings.Heading.TheVariants.{Second};
ghost use Rattle.ro_journal_text.specs.declared.versions.Version.TheVariants as versions;
ghost use Rattle.ro_journal_text.specs.Reading.{Journal, is_entry, ends_last, file_journal, mode_of, version_of, BeginsWith};
ghost use Rattle.ro_journal_text.specs.Records.{file_record, head_of, head_text, IsRecord, record_text};
ghost use Rattle.ro_journal_text.specs.declared.records.Recorded.{Recorded};
ghost use Rattle.ro_settings.specs.declared.Mode.{Mode};
ghost use Rattle.ro_text.specs.Lines.{parts_of};

/// The text of a journal is read as that journal and its mode, where its numbers are in their ranges and nothing follows an
/// end; and so is its text in the first version, where that has its numbers. The second is written.
pub fn texts_read_back()
    ensures each { (heading : Heading) (entries : List Entry) → list_all (is_entry (version_of heading)) entries ≡ true → ends_last entries ≡ true
        → file_journal (text_under heading entries) ≡ Ok (record { mode = mode_of heading; entries = entries }) }
    ensures written { (mode : Mode) (entries : List Entry) → journal_text mode entries ≡ text_under (Second mode) entries }
{}

/// A text that is read begins with the text of the journal that is read, under a first line of its mode, and ends with it
/// where the run has not ended, so that each journal has one text under a first line; its numbers are in the ranges of that
/// line's version, and nothing follows an end.
pub fn texts_spelled_once()
    ensures { (bytes : List ℕ) (journal : Journal) → file_journal bytes ≡ Ok journal → BeginsWith bytes journal × (ends_last journal.entries ≡ true) }
{}

/// The head that is written is read as what it was made of, and what follows it as it is.
pub fn heads_read_back()
    ensures { (recorded : Recorded) (text : List ℕ) → IsRecord recorded → head_of (parts_of (head_text recorded ++ text)) ≡ Ok (record { recorded = recorded; rest = parts_of text }) }
{}

/// The text of a record is read as that record, where its numbers are in their ranges and nothing follows an end.
pub fn records_read_back()
    ensures { (recorded : Recorded) (entries : List Entry) → IsRecord recorded → list_all (is_entry versions.Second) entries ≡ true → ends_last entries ≡ true
        → file_record (record_text recorded entries) ≡ Ok (record { recorded = recorded; entries = entries }) }
{}
