//! What no script can ask of the program: what the call gives besides status, output and report, and the gate that leases pass.
ghost use Rattle.std.specs.Prelude.{◌≡◌, IfOk};

use crate::guests::{GUESTS, HELLO, READ_EXECUTE};
use ro_event::{Call, Stop, Which};
use ro_files::Job;
use ro_image::read_executable;
use ro_io::{Act, Gate, MemSink, MemStore, OpenGate, Place};
use ro_journal::{Entry, How};
use ro_make::image_bytes;
use ro_report::{Answer, FileKind, JournalCode};
use ro_settings::Settings;
use ro_top::{Done, romain, run_job, without_words};
use std::alloc::Global;
use std::process::Abort;
use std::sync::Wait;
use std::sync::atomic::{AtomicU64, Ordering};
use std::test::Fail;
use std::thread::{self, Threads};

// The views that are kept, by what each has in a0 at its exit.
#[test]
fn kept_views(rt: HostRuntime) -> Result<(), Fail> {
    let cases: [(&[&str], &[u32]); 3] = [
        (&["run", "exit_7"], &[]),
        (
            &["run", "exit_7", "--faults", "one", "--replicas", "2"],
            &[7, 6],
        ),
        (&["run", "exit_7", "--faults", "unlike"], &[6, 5, 7]),
    ];
    for (command, statuses) in cases {
        let mut store = store(&rt, rt.alloc())?;
        let Came { done, report: _ } = do_command(&rt, rt.alloc(), command, &mut store, &OpenGate)?;
        assert_eq!(rt; done.views.len(), statuses.len(), "of {command:?}");
        for (view, status) in done.views.iter().zip(statuses) {
            assert_eq!(rt; view.registers()[9], *status, "of {command:?}");
            assert_eq!(rt; *view.stop(), exit_call(*status), "of {command:?}");
        }
    }
    Ok(())
}

// A program that is at hand, and no store.
#[test]
fn job_at_hand(rt: HostRuntime) -> Result<(), Fail> {
    let file = image_bytes(rt.alloc(), &HELLO, READ_EXECUTE, &[])?;
    let image = read_executable(rt.alloc(), file.as_slice())?;
    let job = Job {
        image,
        input: Vec::new(rt.alloc()),
        faults: Vec::new(rt.alloc()),
        settings: Settings::DEFAULT,
    };
    let out = sink(rt.alloc(), &[Act::Take(2)])?;
    let (job, ran) = run_job(&rt, rt.alloc(), job, out, &OpenGate);
    assert_eq!(rt; ran.answer, Answer::Exit(0));
    assert_eq!(rt; ran.bytes, 5);
    assert_eq!(rt; ran.out.bytes(), b"hello".as_slice());
    let end = Entry::End { how: How::Exit(0) };
    assert_eq!(rt; ran.journal.last(), Some(&end));
    assert!(rt; ran.views.is_empty());
    assert_eq!(rt; job.settings, Settings::DEFAULT);
    Ok(())
}

// There is no memory for the words of a command.
#[test]
fn no_words(rt: HostRuntime) -> Result<(), Fail> {
    let mut report = sink(rt.alloc(), &[Act::Take(3)])?;
    assert_eq!(rt; without_words(&mut report), 250);
    assert_eq!(rt; report.bytes(), b"answer no-memory\n".as_slice());
    let mut report = sink(rt.alloc(), &[Act::Take(3), Act::Fail])?;
    assert_eq!(rt; without_words(&mut report), 251);
    assert_eq!(rt; report.bytes(), b"ans".as_slice());
    Ok(())
}

// The stop of a thread that is to exit with this status.
fn exit_call(status: u32) -> Stop {
    Stop::Calls(Call {
        which: Which::System(93),
        a0: status,
        a1: 0,
        a2: 0,
        a3: 0,
    })
}

// The journal of a made program, which no report has.
#[test]
fn made(rt: HostRuntime) -> Result<(), Fail> {
    let mut store = store(&rt, rt.alloc())?;
    let done = do_command(&rt, rt.alloc(), &["bench", "1", "1"], &mut store, &OpenGate)?.done;
    assert_eq!(rt; done.answer, Answer::Exit(0));
    assert_eq!(rt;
        done.out.bytes(),
        b"bench 1 1 status 0 bytes 9 sum 1890\n".as_slice()
    );
    let end = Entry::End { how: How::Exit(0) };
    assert_eq!(rt; done.journal.last(), Some(&end));
    Ok(())
}

// Files of as many bytes as they may have, and of one more: the answer says which of them is too long.
#[test]
fn long_files(rt: HostRuntime) -> Result<(), Fail> {
    for (command, size, answer) in LONG {
        let mut store = store(&rt, rt.alloc())?;
        let long = vec![in rt.alloc(); 0_u8; *size]?;
        store.put("long", long.as_slice())?;
        let done = do_command(&rt, rt.alloc(), command, &mut store, &OpenGate)?.done;
        assert_eq!(rt; done.answer, *answer, "of {command:?}");
    }
    Ok(())
}

// A command, how many bytes its file `long` has, and the answer.
const LONG: &[(&[&str], usize, Answer)] = &[
    (
        &["run", "reads_4", "--input", "long"],
        0x10_0000,
        Answer::Exit(4),
    ),
    (
        &["run", "reads_4", "--input", "long"],
        0x10_0001,
        Answer::TooLong(FileKind::Input),
    ),
    (
        &["run", "exit_7", "--faults", "long"],
        0x1_0001,
        Answer::TooLong(FileKind::Faults),
    ),
    (&["run", "long"], 0x80_0001, Answer::TooLong(FileKind::Exe)),
    (
        &["plain", "exit_7", "--plan", "long"],
        0x100_0000,
        Answer::BadPlan {
            line: 1,
            code: JournalCode::Form,
        },
    ),
    (
        &["plain", "exit_7", "--plan", "long"],
        0x100_0001,
        Answer::TooLong(FileKind::Plan),
    ),
];

// What a command came to, and what was reported.
#[derive(Drop)]
struct Came {
    done: Done<MemSink>,
    report: MemSink,
}

// Runs a command over a store, with sinks that take all.
fn do_command<R: Threads + Wait + Sync, G: Gate + Sync>(
    rt: &R,
    alloc: Global,
    command: &[&str],
    store: &mut MemStore,
    gate: &G,
) -> Result<Came, Fail> {
    let words = words_of(alloc, command)?;
    let mut report = sink(alloc, &[])?;
    let out = sink(alloc, &[])?;
    let done = romain(rt, alloc, words.as_slice(), store, out, &mut report, gate);
    Ok(Came { done, report })
}

// The words behind the program's name.
fn words_of<'a>(alloc: Global, command: &[&'a str]) -> Result<Vec<&'a str>, Fail> {
    let mut words = Vec::new(alloc);
    words.push("romain")?;
    for word in command {
        words.push(*word)?;
    }
    Ok(words)
}

fn sink(alloc: Global, acts: &[Act]) -> Result<MemSink, Fail>
    ensures { IfOk result (λ sink. sink.failures ≡ 0) }
{
    Ok(MemSink::new(alloc, 1_000, Vec::from_slice(alloc, acts)?)?)
}

/// Lists of faults.
const TEXTS: &[(&str, &str)] = &[
    ("one", "1 0 1 reg 10 0\n"),
    ("unlike", "0 0 1 reg 10 0\n1 0 1 reg 10 1\n"),
];

// The store of the rows: all guests and texts.
fn store(rt: &impl Abort, alloc: Global) -> Result<MemStore, Fail> {
    let mut store = MemStore::new(alloc);
    for guest in GUESTS {
        store.put(guest.name, guest.file(rt, alloc)?.as_slice())?;
    }
    for (name, text) in TEXTS {
        store.put(name, text.as_bytes())?;
    }
    Ok(store)
}

/// A gate that lets some leases pass. The first caller behind them waits, for a while, until another driver has come twice.
#[derive(Drop)]
struct Meeting {
    /// How many leases pass before.
    passing: u64,
    /// How many have come.
    come: AtomicU64,
    /// The number of the driver that came first behind them, and one more; 0 before.
    first: AtomicU64,
    /// How often another driver came.
    others: AtomicU64,
    /// Whether the first saw it in time.
    met: AtomicU64,
}

impl Meeting {
    // Waits, where the driver is the first, for the others.
    fn meet(&self, driver: u32) {
        if self.come.fetch_add(1, Ordering::SeqCst) < self.passing {
            return;
        }
        let name = u64::from(driver) + 1;
        match self
            .first
            .compare_exchange(0, name, Ordering::SeqCst, Ordering::SeqCst)
        {
            Ok(_) => {
                for _ in 0..10_000_000u32 {
                    if self.others.load(Ordering::SeqCst) >= 2 {
                        self.met.store(1, Ordering::SeqCst);
                        return;
                    }
                    thread::yield_now();
                }
            }
            Err(first) => {
                if first != name {
                    self.others.fetch_add(1, Ordering::SeqCst);
                }
            }
        }
    }
}

impl Gate for Meeting {
    type Passed = Place;

    ghost place_of = { λ p. (p.driver, p.replica, p.thread) };

    fn pass<R: Wait>(&self, _rt: &R, driver: u32, replica: u32, thread: u32) -> Place {
        self.meet(driver);
        Place {
            driver,
            replica,
            thread,
        }
    }

    fn leave(&self, _passed: Place) {}
}

// While one of two drivers stands at the gate with its lease, the other takes the replicas that are left: before the first vote,
// and behind each, where drivers that went to rest or left would let it wait in vain. Each replica is lent once between votes, in
// either mode.
#[test]
fn two_drivers_at_once(rt: HostRuntime) -> Result<(), Fail> {
    for mode in ["vote", "coop"] {
        for (guest, status, votes) in [("exit_7", 7, 0), ("hello", 0, 0), ("hello", 0, 1)] {
            assert_meeting(&rt, rt.alloc(), mode, guest, status, votes)?;
        }
    }
    Ok(())
}

fn assert_meeting<R: Threads + Wait + Abort + Sync>(
    rt: &R,
    alloc: Global,
    mode: &str,
    guest: &str,
    status: u8,
    votes: u64,
) -> Result<(), Fail> {
    let mut store = store(rt, alloc)?;
    let gate = Meeting {
        passing: votes.saturating_mul(3),
        come: AtomicU64::new(0),
        first: AtomicU64::new(0),
        others: AtomicU64::new(0),
        met: AtomicU64::new(0),
    };
    let words = ["run", guest, "--mode", mode, "--drivers", "2"];
    let done = do_command(rt, alloc, &words, &mut store, &gate)?.done;
    assert_eq!(rt; done.answer, Answer::Exit(status), "of {guest} by {mode}");
    assert_eq!(rt;
        gate.met.load(Ordering::SeqCst),
        1,
        "of {guest} by {mode} behind {votes} votes"
    );
    Ok(())
}

/// A gate at which the third lease of thread 0 in replica 0 waits, for a while, until thread 1 was lent there twice. Where each lease
/// is of a whole replica, it waits in vain: thread 1 is over by then, and was lent there once.
#[derive(Drop)]
struct Holding {
    /// How often thread 0 came.
    come: AtomicU64,
    /// How often thread 1 did.
    beside: AtomicU64,
    /// Whether the one that waits saw it in time.
    met: AtomicU64,
}

impl Holding {
    fn hold(&self) {
        for _ in 0..10_000_000u32 {
            if self.beside.load(Ordering::SeqCst) >= 2 {
                self.met.store(1, Ordering::SeqCst);
                return;
            }
            thread::yield_now();
        }
    }
}

impl Gate for Holding {
    type Passed = Place;

    ghost place_of = { λ p. (p.driver, p.replica, p.thread) };

    fn pass<R: Wait>(&self, _rt: &R, driver: u32, replica: u32, thread: u32) -> Place {
        match (replica, thread) {
            (0, 0) => {
                if self.come.fetch_add(1, Ordering::SeqCst) == 2 {
                    self.hold();
                }
            }
            (0, 1) => {
                self.beside.fetch_add(1, Ordering::SeqCst);
            }
            _ => {}
        }
        Place {
            driver,
            replica,
            thread,
        }
    }

    fn leave(&self, _passed: Place) {}
}

// While one driver stands at the gate with a thread of a replica and the page of its code, the other runs another thread of that
// replica: it comes for the want of that page, and then with it.
#[test]
fn two_drivers_in_one_replica(rt: HostRuntime) -> Result<(), Fail> {
    let alloc = rt.alloc();
    let mut store = store(&rt, alloc)?;
    let gate = Holding {
        come: AtomicU64::new(0),
        beside: AtomicU64::new(0),
        met: AtomicU64::new(0),
    };
    let words = ["run", "joins", "--drivers", "2"];
    let Came { done, report } = do_command(&rt, alloc, &words, &mut store, &gate)?;
    assert_eq!(rt; done.answer, Answer::Exit(0));
    assert_eq!(rt; gate.met.load(Ordering::SeqCst), 1);
    assert_eq!(rt;
        report.bytes(),
        b"votes 4 copies 0 struck 0 steps 17 bytes 0\nanswer exit 0\n".as_slice()
    );
    Ok(())
}
