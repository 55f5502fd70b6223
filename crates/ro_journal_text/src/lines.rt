//! The lines of a journal's text.
ghost use Rattle.std.specs.Prelude.{◌≡◌, ◌+◌, ◌<◌, ◌≤◌, [], ◌++◌, ◌∷◌, length, decimal};
ghost use Rattle.ro_text.specs.Lines.{spaced};
ghost use Rattle.ro_journal_text.specs.Texts.{did_word, lost_word, how_words, entry_text};

use ro_journal::{Did, Entry, How, Lease, Lost};
use ro_text::{Line, Text};

/// The line of an entry.
pub fn entry_text(entry: &Entry) -> Line
    ensures { result ≡ entry_text entry.now }
{
    match *entry {
        Entry::Take(lease) => take_text(lease),
        Entry::Put { lease, count, hit } => put_text(lease, count, hit),
        Entry::Part { lease, count, hit } => part_text(lease, count, hit),
        Entry::Vote {
            thread,
            count,
            won,
            lost,
            did,
        } => vote_text(thread, count, won, lost, did),
        Entry::Free { thread } => free_text(thread),
        Entry::Scrub { won, lost } => scrub_text(won, lost),
        Entry::End { how } => end_text(how),
    }
}

fn take_text(lease: Lease) -> Line
    ensures { result ≡ entry_text (Entry.Take lease) }
{
    let mut text = Text::new();
    text.push("take");
    text.add_number(u64::from(lease.driver));
    text.add_number(u64::from(lease.replica));
    text.add_number(u64::from(lease.thread));
    text.end()
}

fn put_text(lease: Lease, count: u32, hit: u32) -> Line
    ensures { result ≡ entry_text (Entry.Put lease count hit) }
{
    let mut text = Text::new();
    text.push("put");
    text.add_number(u64::from(lease.driver));
    text.add_number(u64::from(lease.replica));
    text.add_number(u64::from(lease.thread));
    text.add_number(u64::from(count));
    text.add_number(u64::from(hit));
    text.end()
}

fn part_text(lease: Lease, count: u32, hit: u32) -> Line
    ensures { result ≡ entry_text (Entry.Part lease count hit) }
{
    let mut text = Text::new();
    text.push("part");
    text.add_number(u64::from(lease.driver));
    text.add_number(u64::from(lease.replica));
    text.add_number(u64::from(lease.thread));
    text.add_number(u64::from(count));
    text.add_number(u64::from(hit));
    text.end()
}

fn vote_text(thread: u32, count: u32, won: u32, lost: Lost, did: Did) -> Line
    ensures { result ≡ entry_text (Entry.Vote thread count won lost did) }
{
    let mut text = Text::new();
    text.push("vote");
    text.add_number(u64::from(thread));
    text.add_number(u64::from(count));
    text.add_number(u64::from(won));
    add_lost(&mut text, lost);
    text.add_word(did_word(did));
    text.end()
}

// Appends a space and the replicas that lost, parted by a comma, or a dash.
fn add_lost(text: &mut Text, lost: Lost)
    requires { length text.old ≤ 100 }
    ensures bytes { text.new ≡ text.old ++ 32 ∷ lost_word lost }
    ensures len { length text.new ≤ length text.old + 42 }
{
    match lost {
        Lost::Nobody => text.add_word("-"),
        Lost::One(replica) => text.add_number(u64::from(replica)),
        Lost::Two(lower, higher) => {
            text.add_number(u64::from(lower));
            text.push(",");
            text.push_number(u64::from(higher));
        }
    }
}

fn did_word(did: Did) -> &'static str
    ensures word { result.now ≡ did_word did }
    ensures short { length result.now ≤ 7 }
{
    match did {
        Did::Served => "served",
        Did::Blocked => "blocked",
        Did::Parked => "parked",
        Did::PageBacked => "mapped",
        Did::Watch => "watch",
        Did::Trapped => "trapped",
    }
}

fn free_text(thread: u32) -> Line
    ensures { result ≡ entry_text (Entry.Free thread) }
{
    let mut text = Text::new();
    text.push("free");
    text.add_number(u64::from(thread));
    text.end()
}

fn scrub_text(won: u32, lost: Lost) -> Line
    ensures { result ≡ entry_text (Entry.Scrub won lost) }
{
    let mut text = Text::new();
    text.push("scrub");
    text.add_number(u64::from(won));
    add_lost(&mut text, lost);
    text.end()
}

fn end_text(how: How) -> Line
    ensures { result ≡ entry_text (Entry.End how) }
{
    let mut text = Text::new();
    text.push("end");
    add_how(&mut text, how);
    text.end()
}

// Appends the words that say how a run ended, each behind a space.
fn add_how(text: &mut Text, how: How)
    requires { length text.old ≤ 100 }
    ensures bytes { text.new ≡ text.old ++ 32 ∷ spaced (how_words how) }
    ensures len { length text.new ≤ length text.old + 48 }
{
    match how {
        How::Exit(status) => add_numbered(text, "exit", u64::from(status)),
        How::Deadlock => text.add_word("deadlock"),
        How::Trap(cause) => add_numbered(text, "trap", u64::from(cause.number())),
        How::Limit { steps, next } => {
            add_numbered(text, "limit", steps);
            text.add_number(next);
        }
        How::Differ => text.add_word("differ"),
        How::NoMajority => text.add_word("no-majority"),
        How::Sink(taken) => add_numbered(text, "sink", u64::from(taken)),
    }
}

// Appends the word and the number, each behind a space.
fn add_numbered(text: &mut Text, word: &str, number: u64)
    requires room { length text.old ≤ 100 }
    requires short { length word.now ≤ 5 }
    ensures bytes { text.new ≡ text.old ++ 32 ∷ spaced (word.now ∷ decimal number ∷ []) }
    ensures len { length text.new ≤ length text.old + 27 }
{
    text.add_word(word);
    text.add_number(number);
}
