//! What is counted of a journal.
ghost use Rattle.std.specs.Prelude.{◌≡◌, ◌<◌, ◌+◌, ◌^◌, length, if◌then◌else◌};
ghost use Rattle.ro_journal.specs.Plan.{entry_plan};
ghost use Rattle.ro_journal.specs.Counts.{is_vote, copies_of, hits_of, votes_in, copies_in, struck_in, steps_in};

use crate::Entry;

/// What is counted of a journal.
#[derive(Clone, Copy, PartialEq, Eq, Debug)]
pub struct Totals {
    /// How many votes it has.
    pub votes: u64,
    /// How many replicas became copies at its votes and scrubs.
    pub copies: u64,
    /// How many faults were struck in its runs.
    pub struck: u64,
    /// How many steps its votes and frees retire, where they are a number of 64 bits.
    pub steps: u64,
}

impl Totals {
    /// What is counted of a journal, each of whose entries is looked at once.
    pub fn of(journal: &[Entry]) -> Totals
        requires struck { struck_in journal.now < 2 ^ 64 }
        ensures votes { result.votes ≡ votes_in journal.now }
        ensures copies { result.copies ≡ copies_in journal.now }
        ensures struck { result.struck ≡ struck_in journal.now }
        ensures steps { steps_in journal.now < 2 ^ 64 → result.steps ≡ steps_in journal.now }
    {
        // it shows that so many entries lie in memory that their copies can be counted
        let _entries = journal.iter();
        let mut totals = Totals {
            votes: 0,
            copies: 0,
            struck: 0,
            steps: 0,
        };
        for entry in journal {
            totals.add(entry);
        }
        totals
    }

    // Counts one entry more.
    fn add(&mut self, entry: &Entry)
        requires votes { self.old.votes + 1 < 2 ^ 64 }
        requires copies { self.old.copies + copies_of entry.now < 2 ^ 64 }
        requires struck { self.old.struck + hits_of entry.now < 2 ^ 64 }
        ensures votes { self.new.votes ≡ (if is_vote entry.now then self.old.votes + 1 else self.old.votes) }
        ensures copies { self.new.copies ≡ self.old.copies + copies_of entry.now }
        ensures struck { self.new.struck ≡ self.old.struck + hits_of entry.now }
        ensures steps { self.old.steps + length (entry_plan entry.now) < 2 ^ 64 → self.new.steps ≡ self.old.steps + length (entry_plan entry.now) }
    {
        match *entry {
            Entry::Take(_) | Entry::End { .. } => {}
            Entry::Put { hit, .. } | Entry::Part { hit, .. } => self.struck += u64::from(hit),
            Entry::Vote {
                count,
                lost,
                did,
                ..
            } => {
                self.votes += 1;
                self.copies += lost.count() as u64;
                self.steps = self.steps.saturating_add(u64::from(count) + did.steps());
            }
            Entry::Free { .. } => self.steps = self.steps.saturating_add(1),
            Entry::Scrub { lost, .. } => self.copies += lost.count() as u64,
        }
    }
}
