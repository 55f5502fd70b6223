//! The texts of journals, written, read and refused.
ghost use Rattle.std.specs.Prelude.{◌≡◌};
ghost use Rattle.ro_journal.specs.Leases.{lease_to};

use ro_event::TrapCause;
use ro_journal::{Did, Entry, How, Lease, Lost};
use ro_journal_text::{JournalError, entry_text, journal_text, read_journal};
use ro_settings::Mode;
use std::alloc::Global;

const FIRST_RUN: &str = "romain 2
take 0 0 0
put 0 0 0 2 0
take 0 1 0
put 0 1 0 2 0
take 0 2 0
put 0 2 0 2 0
vote 0 2 0 - served
end exit 7
";

#[test]
fn first_run(rt: HostRuntime) -> Result<(), JournalError> {
    let journal = [
        take(0),
        put(0),
        take(1),
        put(1),
        take(2),
        put(2),
        Entry::Vote {
            thread: 0,
            count: 2,
            won: 0,
            lost: Lost::Nobody,
            did: Did::Served,
        },
        Entry::End { how: How::Exit(7) },
    ];
    let text = journal_text(rt.alloc(), Mode::Voted, &journal)?;
    assert!(rt; text.as_slice() == FIRST_RUN.as_bytes());
    let back = read_journal(rt.alloc(), text.as_slice())?;
    assert_eq!(rt; back.mode, Mode::Voted);
    assert!(rt; back.entries.as_slice() == journal.as_slice());
    Ok(())
}

const COOPERATIVE_RUN: &str = "romain 2 coop
take 0 0 0
part 0 0 0 2 0
";

#[test]
fn cooperative_run(rt: HostRuntime) -> Result<(), JournalError> {
    let journal = [
        take(0),
        Entry::Part {
            lease: lease(0),
            count: 2,
            hit: 0,
        },
    ];
    let text = journal_text(rt.alloc(), Mode::Cooperative, &journal)?;
    assert!(rt; text.as_slice() == COOPERATIVE_RUN.as_bytes());
    let back = read_journal(rt.alloc(), text.as_slice())?;
    assert_eq!(rt; back.mode, Mode::Cooperative);
    assert!(rt; back.entries.as_slice() == journal.as_slice());
    Ok(())
}

fn lease(replica: u32) -> Lease
    ensures { result ≡ lease_to 0 replica 0 }
{
    Lease {
        driver: 0,
        replica,
        thread: 0,
    }
}

fn take(replica: u32) -> Entry
    ensures { result ≡ Entry.Take (lease_to 0 replica 0) }
{
    Entry::Take(lease(replica))
}

fn put(replica: u32) -> Entry
    ensures { result ≡ Entry.Put (lease_to 0 replica 0) 2 0 }
{
    Entry::Put {
        lease: lease(replica),
        count: 2,
        hit: 0,
    }
}

// An entry and its line.
struct Written {
    entry: Entry,
    line: &'static str,
}

const WRITTEN: &[Written] = &[
    Written {
        entry: Entry::Vote {
            thread: 15,
            count: 1_000_000,
            won: 1,
            lost: Lost::One(2),
            did: Did::Trapped,
        },
        line: "vote 15 1000000 1 2 trapped\n",
    },
    Written {
        entry: Entry::Vote {
            thread: 0,
            count: 2,
            won: 1,
            lost: Lost::Two(0, 3),
            did: Did::Served,
        },
        line: "vote 0 2 1 0,3 served\n",
    },
    Written {
        entry: Entry::Vote {
            thread: 0,
            count: 9,
            won: 0,
            lost: Lost::Nobody,
            did: Did::Blocked,
        },
        line: "vote 0 9 0 - blocked\n",
    },
    Written {
        entry: Entry::Vote {
            thread: 0,
            count: 1,
            won: 0,
            lost: Lost::Nobody,
            did: Did::PageBacked,
        },
        line: "vote 0 1 0 - mapped\n",
    },
    Written {
        entry: Entry::Vote {
            thread: 0,
            count: 10_000,
            won: 0,
            lost: Lost::Nobody,
            did: Did::Watch,
        },
        line: "vote 0 10000 0 - watch\n",
    },
    Written {
        entry: Entry::Part {
            lease: Lease {
                driver: 7,
                replica: 4,
                thread: 15,
            },
            count: 65_536,
            hit: 256,
        },
        line: "part 7 4 15 65536 256\n",
    },
    Written {
        entry: Entry::Free { thread: 3 },
        line: "free 3\n",
    },
    Written {
        entry: Entry::End { how: How::Deadlock },
        line: "end deadlock\n",
    },
    Written {
        entry: Entry::End {
            how: How::Trap(TrapCause::Breakpoint),
        },
        line: "end trap 9\n",
    },
    Written {
        entry: Entry::End {
            how: How::Limit {
                steps: 1_000_000_000_000,
                next: 0,
            },
        },
        line: "end limit 1000000000000 0\n",
    },
    Written {
        entry: Entry::End { how: How::Differ },
        line: "end differ\n",
    },
    Written {
        entry: Entry::End {
            how: How::NoMajority,
        },
        line: "end no-majority\n",
    },
    Written {
        entry: Entry::End {
            how: How::Sink(4095),
        },
        line: "end sink 4095\n",
    },
];

#[test]
fn writes(rt: HostRuntime) {
    for row in WRITTEN {
        let line = entry_text(&row.entry);
        assert_eq!(rt; line.as_bytes(), row.line.as_bytes(), "of {:?}", row.entry);
    }
}

// A text, and the number of its entries, or its first bad line and the code.
struct Row {
    text: &'static str,
    want: Result<usize, (u64, u8)>,
}

const ROWS: &[Row] = &[
    Row {
        text: "",
        want: Err((1, 1)),
    },
    Row {
        text: "romain 1",
        want: Err((1, 1)),
    },
    Row {
        text: "romain 1\n",
        want: Ok(0),
    },
    Row {
        text: "romain 9\n",
        want: Err((1, 1)),
    },
    Row {
        text: "romain 1\ntake 0 0 0\nput 0 0 0 02 0\n",
        want: Err((3, 1)),
    },
    Row {
        text: "romain 1\ntake 0 0 0\nput 0 0 0 65537 0\n",
        want: Err((3, 2)),
    },
    Row {
        text: "romain 1\nput 0 0 0 65536 256\n",
        want: Ok(1),
    },
    Row {
        text: "romain 1\nput 0 0 0 0 257\n",
        want: Err((2, 2)),
    },
    Row {
        text: "romain 2\ntake 0 4 0\npart 0 4 0 65536 256\nput 0 4 0 1 0\n",
        want: Ok(3),
    },
    Row {
        text: "romain 2\npart 0 0 0 65537 0\n",
        want: Err((2, 2)),
    },
    Row {
        text: "romain 2\npart 0 0 0 1\n",
        want: Err((2, 1)),
    },
    Row {
        text: "romain 1\npart 0 0 0 1 0\n",
        want: Err((2, 1)),
    },
    Row {
        text: "romain 1\nvote 0 1000001 0 - watch\n",
        want: Err((2, 2)),
    },
    Row {
        text: "romain 1\nvote 0 1 0 3 watch\n",
        want: Err((2, 2)),
    },
    Row {
        text: "romain 1\nvote 16 1 0 3 waits\n",
        want: Err((2, 1)),
    },
    Row {
        text: "romain 1\nvote 16 1 0 -- watch\n",
        want: Err((2, 1)),
    },
    Row {
        text: "romain 1\ntake 8 0 0\n",
        want: Err((2, 2)),
    },
    Row {
        text: "romain 1\ntake 0 0\n",
        want: Err((2, 1)),
    },
    Row {
        text: "romain 1\ntake 0 0 0 0 0 0\n",
        want: Err((2, 1)),
    },
    Row {
        text: "romain 1\ntake 0 0 0 \n",
        want: Err((2, 1)),
    },
    Row {
        text: "romain 1\nfree 0\n\n",
        want: Err((3, 1)),
    },
    Row {
        text: "romain 1\nfree 0",
        want: Err((2, 1)),
    },
    Row {
        text: "romain 1\nfree 340282366920938463463374607431768211456\n",
        want: Err((2, 2)),
    },
    Row {
        text: "romain 1\nend exit 256\n",
        want: Err((2, 2)),
    },
    Row {
        text: "romain 1\nend trap 0\n",
        want: Err((2, 2)),
    },
    Row {
        text: "romain 1\nend limit 1000000000001 0\n",
        want: Err((2, 2)),
    },
    Row {
        text: "romain 1\nend sink 4096\n",
        want: Err((2, 2)),
    },
    Row {
        text: "romain 1\nend\n",
        want: Err((2, 1)),
    },
    Row {
        text: "romain 1\nend differ\ntake 0 0 0\nnothing",
        want: Ok(1),
    },
    Row {
        text: "romain 1\ntake 0 3 0\n",
        want: Err((2, 2)),
    },
    Row {
        text: "romain 1\nvote 0 1 2 0,1 watch\n",
        want: Err((2, 1)),
    },
    Row {
        text: "romain 2\ntake 0 4 0\nput 0 4 0 1 0\nvote 0 1 4 0,3 watch\nvote 0 1 0 4 watch\nvote 0 1 0 - watch\n",
        want: Ok(5),
    },
    Row {
        text: "romain 2\ntake 0 5 0\n",
        want: Err((2, 2)),
    },
    Row {
        text: "romain 2\nvote 0 1 0 3,5 watch\n",
        want: Err((2, 2)),
    },
    Row {
        text: "romain 2\nvote 0 1 0 3,3 watch\n",
        want: Err((2, 2)),
    },
    Row {
        text: "romain 2\nvote 0 1 0 3,1 watch\n",
        want: Err((2, 2)),
    },
    Row {
        text: "romain 2\nvote 0 1 0 1,2,3 watch\n",
        want: Err((2, 2)),
    },
    Row {
        text: "romain 2\nvote 0 1 0 1, watch\n",
        want: Err((2, 1)),
    },
    Row {
        text: "romain 2\nvote 0 1 0 1,,2 watch\n",
        want: Err((2, 1)),
    },
    Row {
        text: "romain 2\nvote 0 1 0 1,02 watch\n",
        want: Err((2, 1)),
    },
    Row {
        text: "romain 2\nvote 0 1 0 -,1 watch\n",
        want: Err((2, 1)),
    },
    Row {
        text: "romain 3\n",
        want: Err((1, 1)),
    },
    Row {
        text: "romain 2 coop\n",
        want: Ok(0),
    },
    Row {
        text: "romain 2 coop",
        want: Err((1, 1)),
    },
    Row {
        text: "romain 1 coop\n",
        want: Err((1, 1)),
    },
    Row {
        text: "romain 2 vote\n",
        want: Err((1, 1)),
    },
    Row {
        text: "romain 2 coop \n",
        want: Err((1, 1)),
    },
    Row {
        text: "romain 2 coop\npart 0 4 0 1 0\nvote 0 1 0 - parked\n",
        want: Ok(2),
    },
    Row {
        text: "romain 2 coop\npart 0 5 0 1 0\n",
        want: Err((2, 2)),
    },
];

#[test]
fn rows(rt: HostRuntime) {
    for row in ROWS {
        let found = outcome(rt.alloc(), row.text.as_bytes());
        assert_eq!(rt; found, row.want, "of {:?}", row.text);
    }
}

// The number of the entries, or the bad line and its code.
fn outcome(alloc: Global, bytes: &[u8]) -> Result<usize, (u64, u8)> {
    match read_journal(alloc, bytes) {
        Ok(journal) => Ok(journal.entries.len()),
        Err(JournalError::Bad { line, code }) => Err((line, code.code())),
        Err(JournalError::NoMemory) => Err((0, 0)),
    }
}
