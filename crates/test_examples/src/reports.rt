//! Lines against the text that they are to be.
ghost use Rattle.std.specs.Prelude.{◌≡◌};
ghost use Rattle.ro_journal.specs.Leases.{lease_to};

use ro_event::TrapCause;
use ro_faults::FaultsCode;
use ro_journal::{Did, Entry, How, Lease, Lost};
use ro_journal_text::{JournalCode, entry_text, header};
use ro_report::{Answer, ExeError, FileKind, answer_line, bench_line, plain_line, summary};
use ro_settings::Mode;
use std::alloc::AllocError;

#[test]
fn answers(rt: HostRuntime) {
    let cases = [
        (Answer::Exit(7), "answer exit 7\n"),
        (Answer::Exit(255), "answer exit 255\n"),
        (Answer::Deadlock, "answer deadlock\n"),
        (Answer::Trap(TrapCause::ForbiddenFetch), "answer trap 2\n"),
        (Answer::Differ, "answer differ\n"),
        (Answer::NoMajority, "answer no-majority\n"),
        (
            Answer::Limit {
                steps: 999_999_999,
                next: u64::MAX,
            },
            "answer limit 999999999 18446744073709551615\n",
        ),
        (Answer::SinkFailed { taken: 2 }, "answer sink 2\n"),
        (Answer::StoreFailed, "answer store\n"),
        (Answer::BadExe(ExeError::Functions), "answer exe 17\n"),
        (
            Answer::BadFaults {
                line: 257,
                code: FaultsCode::Count,
            },
            "answer faults 257 3\n",
        ),
        (
            Answer::BadPlan {
                line: u64::MAX,
                code: JournalCode::Range,
            },
            "answer plan 18446744073709551615 2\n",
        ),
        (
            Answer::BadPlan {
                line: 1,
                code: JournalCode::Form,
            },
            "answer plan 1 1\n",
        ),
        (Answer::NoStep { place: 3 }, "answer no-step 3\n"),
        (Answer::Unended, "answer unended\n"),
        (Answer::NoRace, "answer no-race\n"),
        (
            Answer::Race {
                i: 8,
                j: 999_999_999,
                byte: u64::MAX,
            },
            "answer race 8 999999999 18446744073709551615\n",
        ),
        (Answer::BadWords, "answer words\n"),
        (Answer::TooLong(FileKind::Input), "answer too-long\n"),
        (Answer::NoMemory, "answer no-memory\n"),
    ];
    for (answer, want) in cases {
        let line = answer_line(&answer);
        assert_eq!(rt; line.as_bytes(), want.as_bytes(), "of {answer:?}");
    }
}

const EXIT_ALIKE: &str = "romain 2
take 0 0 0
put 0 0 0 2 0
take 0 1 0
put 0 1 0 2 0
take 0 2 0
put 0 2 0 2 0
vote 0 2 0 - served
end exit 7
votes 1 copies 0 struck 0 steps 3 bytes 0
answer exit 7
";

// The report of a run that exits alike, line by line.
#[test]
fn exit_alike(rt: HostRuntime) -> Result<(), AllocError> {
    let journal = [
        take(0),
        put(0, 0),
        take(1),
        put(1, 0),
        take(2),
        put(2, 0),
        vote(2, Lost::Nobody, Did::Served),
        Entry::End { how: How::Exit(7) },
    ];
    let mut report = Vec::from_slice(rt.alloc(), header(Mode::Voted))?;
    for entry in journal {
        report.extend_from_slice(entry_text(&entry).as_bytes())?;
    }
    report.extend_from_slice(summary(Mode::Voted, &journal, 0).as_bytes())?;
    report.extend_from_slice(answer_line(&Answer::Exit(7)).as_bytes())?;
    assert!(rt; report.as_slice() == EXIT_ALIKE.as_bytes());
    Ok(())
}

#[test]
fn copies_and_frees(rt: HostRuntime) {
    let journal = [
        put(0, 1),
        put(1, 1),
        part(1, 1),
        vote(100, Lost::Two(1, 4), Did::Blocked),
        vote(20, Lost::Nobody, Did::PageBacked),
        vote(3, Lost::One(0), Did::Trapped),
        Entry::Free { thread: 0 },
    ];
    let line = summary(Mode::Voted, &journal, 4096);
    let want = "votes 3 copies 3 struck 3 steps 125 bytes 4096\n";
    assert_eq!(rt; line.as_bytes(), want.as_bytes());
}

// A cooperative run steps where a replica is the first to.
#[test]
fn first_steps(rt: HostRuntime) {
    let journal = [
        put(0, 0),
        part(1, 0),
        part(1, 0),
        vote(100, Lost::Nobody, Did::Served),
    ];
    let line = summary(Mode::Cooperative, &journal, 0);
    let want = "votes 1 copies 0 struck 0 steps 5 bytes 0\n";
    assert_eq!(rt; line.as_bytes(), want.as_bytes());
}

#[test]
fn bench_done(rt: HostRuntime) {
    let line = bench_line(5, 100, 0, b"00023604\n");
    let want = "bench 5 100 status 0 bytes 9 sum 1909\n";
    assert_eq!(rt; line.as_bytes(), want.as_bytes());
    let line = bench_line(u64::MAX, 2_000, 255, b"");
    let want = "bench 18446744073709551615 2000 status 255 bytes 0 sum 0\n";
    assert_eq!(rt; line.as_bytes(), want.as_bytes());
}

#[test]
fn plan_done(rt: HostRuntime) {
    let line = plain_line(1_000_000_000, 4_096);
    assert_eq!(rt;
        line.as_bytes(),
        b"steps 1000000000 bytes 4096\n".as_slice()
    );
}

#[test]
fn nothing_yet(rt: HostRuntime) {
    let line = summary(Mode::Voted, &[], u64::MAX);
    let want = "votes 0 copies 0 struck 0 steps 0 bytes 18446744073709551615\n";
    assert_eq!(rt; line.as_bytes(), want.as_bytes());
}

fn lease(replica: u32) -> Lease
    ensures { result ≡ lease_to 0 replica 0 }
{
    Lease {
        driver: 0,
        replica,
        thread: 0,
    }
}

fn take(replica: u32) -> Entry
    ensures { result ≡ Entry.Take (lease_to 0 replica 0) }
{
    Entry::Take(lease(replica))
}

fn put(replica: u32, hit: u32) -> Entry
    ensures { result ≡ Entry.Put (lease_to 0 replica 0) 2 hit }
{
    Entry::Put {
        lease: lease(replica),
        count: 2,
        hit,
    }
}

fn part(replica: u32, hit: u32) -> Entry
    ensures { result ≡ Entry.Part (lease_to 0 replica 0) 2 hit }
{
    Entry::Part {
        lease: lease(replica),
        count: 2,
        hit,
    }
}

fn vote(count: u32, lost: Lost, did: Did) -> Entry
    ensures { result ≡ Entry.Vote 0 count 0 lost did }
{
    Entry::Vote {
        thread: 0,
        count,
        won: 0,
        lost,
        did,
    }
}
