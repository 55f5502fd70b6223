//! Journals of small guests, and such as are none.
ghost use Rattle.std.specs.Prelude.{◌≡◌};
ghost use Rattle.ro_replica.specs.Seen.{AreFaults};
ghost use Rattle.ro_settings.specs.declared.Mode.TheVariants.{Voted};

use ro_audit::{AuditError, audit};
use ro_core::Core;
use ro_event::TrapCause;
use ro_faults::{Fault, Target};
use ro_image::{Executable, read_executable};
use ro_journal::How;
use ro_journal_text::read_journal;
use ro_make::image_bytes;
use ro_settings::Settings;
use std::alloc::Global;
use std::process::Abort;
use std::test::Fail;

// Ends with the status 7.
const SHORT: &[u32] = &[0x0070_0513, 0x05D0_0893, 0x0000_0073];

// Writes `hello` and ends with the status 0.
const HELLO: &[u32] = &[
    0x0010_0513,
    0x0001_05B7,
    0x0785_8593,
    0x0050_0613,
    0x0400_0893,
    0x0000_0073,
    0x0000_0513,
    0x05D0_0893,
    0x0000_0073,
    0x6C6C_6568,
    0x0000_006F,
];

// Begins with a word that is no instruction.
const BROKEN: &[u32] = &[0x0000_0000];

const NONE: &[Fault] = &[];

// A bit of x10 flips in replica 1 behind its first instruction.
const ONE: &[Fault] = &[Fault {
    replica: 1,
    thread: 0,
    at: 1,
    target: Target::Register { number: 10, bit: 0 },
}];

// A bit of its first instruction flips in replica 1 behind it, where nothing reads it any more.
const UNREAD: &[Fault] = &[Fault {
    replica: 1,
    thread: 0,
    at: 1,
    target: Target::Byte {
        address: 0x1_0054,
        bit: 0,
    },
}];

// And another in replica 2.
const TWO: &[Fault] = &[
    Fault {
        replica: 1,
        thread: 0,
        at: 1,
        target: Target::Register { number: 10, bit: 0 },
    },
    Fault {
        replica: 2,
        thread: 0,
        at: 1,
        target: Target::Register { number: 10, bit: 1 },
    },
];

// The runs that a row may be of.
#[derive(Clone, Copy)]
enum Of {
    // `SHORT` as two replicas.
    Short,
    // The same with two drivers.
    ShortByTwo,
    // The same with a limit of two steps.
    ShortLimited,
    // `SHORT` as two replicas, of which one is struck.
    Differing,
    // `SHORT` as two replicas, of which one is struck where nothing reads it.
    Unread,
    // `SHORT` as three replicas, of which one is struck.
    Struck,
    // `SHORT` as three replicas, of which two are struck.
    Scattered,
    // `HELLO` as two replicas.
    Hello,
    // The same with a scrub after each step.
    HelloScrubbed,
    // `BROKEN` as two replicas.
    Broken,
}

// What must come of a journal.
#[derive(Clone, Copy)]
enum Want {
    // It is legal: how it ends, its steps, its output, how many views it shows, and the place of the first entry that is not what
    // the run does next.
    Legal(Option<How>, u64, &'static str, usize, Option<usize>),
    // The entry at this place is not allowed.
    Illegal(usize),
}

struct Row {
    title: &'static str,
    of: Of,
    lines: &'static [&'static str],
    want: Want,
}

const EXIT: &[&str] = &[
    "take 0 0 0",
    "put 0 0 0 2 0",
    "take 0 1 0",
    "put 0 1 0 2 0",
    "vote 0 2 0 - served",
    "end exit 7",
];

const FRONT: &[&str] = &[
    "take 0 0 0",
    "put 0 0 0 5 0",
    "take 0 1 0",
    "put 0 1 0 5 0",
    "vote 0 5 0 - served",
];

#[rattlefmt::skip]
const LEGAL: &[Row] = &[
    Row { title: "nothing", of: Of::Short, lines: &[], want: Want::Legal(None, 0, "", 0, None) },
    Row { title: "an exit", of: Of::Short, lines: EXIT, want: Want::Legal(Some(How::Exit(7)), 3, "", 0, None) },
    Row { title: "a front of it", of: Of::Short, lines: &["take 0 0 0", "put 0 0 0 2 0", "take 0 1 0"], want: Want::Legal(None, 0, "", 0, None) },
    Row { title: "two drivers", of: Of::ShortByTwo, lines: &["take 0 0 0", "take 1 1 0", "put 1 1 0 2 0", "put 0 0 0 2 0", "vote 0 2 0 - served", "end exit 7"], want: Want::Legal(Some(How::Exit(7)), 3, "", 0, None) },
    Row { title: "replica 1 first", of: Of::Short, lines: &["take 0 1 0", "put 0 1 0 2 0", "take 0 0 0", "put 0 0 0 2 0", "vote 0 2 0 - served", "end exit 7"], want: Want::Legal(Some(How::Exit(7)), 3, "", 0, Some(0)) },
    Row { title: "the limit", of: Of::ShortLimited, lines: &["take 0 0 0", "put 0 0 0 2 0", "take 0 1 0", "put 0 1 0 2 0", "end limit 0 3"], want: Want::Legal(Some(How::Limit { steps: 0, next: 3 }), 0, "", 0, None) },
    Row { title: "two that differ", of: Of::Differing, lines: &["take 0 0 0", "put 0 0 0 2 0", "take 0 1 0", "put 0 1 0 2 1", "end differ"], want: Want::Legal(Some(How::Differ), 0, "", 2, None) },
    Row { title: "one that loses", of: Of::Struck, lines: &["take 0 0 0", "put 0 0 0 2 0", "take 0 1 0", "put 0 1 0 2 1", "take 0 2 0", "put 0 2 0 2 0", "vote 0 2 0 1 served", "end exit 7"], want: Want::Legal(Some(How::Exit(7)), 3, "", 0, None) },
    Row { title: "no majority", of: Of::Scattered, lines: &["take 0 0 0", "put 0 0 0 2 0", "take 0 1 0", "put 0 1 0 2 1", "take 0 2 0", "put 0 2 0 2 1", "end no-majority"], want: Want::Legal(Some(How::NoMajority), 0, "", 3, None) },
    Row { title: "a scrub", of: Of::Short, lines: &["take 0 0 0", "put 0 0 0 2 0", "take 0 1 0", "put 0 1 0 2 0", "scrub 0 -", "vote 0 2 0 - served", "end exit 7"], want: Want::Legal(Some(How::Exit(7)), 3, "", 0, Some(4)) },
    Row { title: "one that loses a scrub", of: Of::Struck, lines: &["take 0 0 0", "put 0 0 0 2 0", "take 0 1 0", "put 0 1 0 2 1", "take 0 2 0", "put 0 2 0 2 0", "scrub 0 1", "vote 0 2 0 - served", "end exit 7"], want: Want::Legal(Some(How::Exit(7)), 3, "", 0, Some(6)) },
    Row { title: "two that differ at a scrub", of: Of::Unread, lines: &["take 0 0 0", "put 0 0 0 2 0", "take 0 1 0", "put 0 1 0 2 1", "end differ"], want: Want::Legal(Some(How::Differ), 0, "", 0, Some(4)) },
    Row { title: "a difference that no vote sees", of: Of::Unread, lines: &["take 0 0 0", "put 0 0 0 2 0", "take 0 1 0", "put 0 1 0 2 1", "vote 0 2 0 - served", "end exit 7"], want: Want::Legal(Some(How::Exit(7)), 3, "", 0, None) },
    Row { title: "a write", of: Of::Hello, lines: FRONT, want: Want::Legal(None, 6, "hello", 0, None) },
    Row { title: "a trap", of: Of::Broken, lines: &["take 0 0 0", "put 0 0 0 0 0", "take 0 1 0", "put 0 1 0 0 0", "vote 0 0 0 - trapped", "end trap 3"], want: Want::Legal(Some(How::Trap(TrapCause::NoInstruction)), 1, "", 0, None) },
];

// One entry of `EXIT` changed, dropped, doubled or swapped with the next.
#[rattlefmt::skip]
const CHANGED: &[(usize, Edit, usize)] = &[
    (0, Edit::To("take 1 0 0"), 0),
    (0, Edit::To("take 0 2 0"), 0),
    (0, Edit::To("take 0 0 1"), 0),
    (0, Edit::Dropped, 0),
    (0, Edit::Doubled, 1),
    (1, Edit::To("put 0 0 0 1 0"), 1),
    (1, Edit::To("put 0 0 0 3 0"), 1),
    (1, Edit::To("put 0 0 0 2 1"), 1),
    (1, Edit::To("put 0 1 0 2 0"), 1),
    (1, Edit::To("put 0 0 1 2 0"), 1),
    (1, Edit::To("put 1 0 0 2 0"), 1),
    (1, Edit::To("part 0 0 0 2 0"), 1),
    (1, Edit::To("part 0 0 0 1 0"), 1),
    (1, Edit::Dropped, 1),
    (1, Edit::Doubled, 2),
    (1, Edit::Swapped, 1),
    (1, Edit::To("scrub 0 -"), 1),
    (2, Edit::To("take 0 0 0"), 2),
    (2, Edit::To("scrub 0 -"), 2),
    (2, Edit::Dropped, 2),
    (3, Edit::Dropped, 3),
    (3, Edit::Swapped, 3),
    (4, Edit::To("vote 0 1 0 - served"), 4),
    (4, Edit::To("vote 0 2 1 - served"), 4),
    (4, Edit::To("vote 0 2 0 1 served"), 4),
    (4, Edit::To("vote 0 2 0 - blocked"), 4),
    (4, Edit::To("vote 1 2 0 - served"), 4),
    (4, Edit::To("free 0"), 4),
    (4, Edit::To("scrub 0 1"), 4),
    (4, Edit::To("scrub 1 -"), 4),
    (4, Edit::Dropped, 4),
    (4, Edit::Doubled, 5),
    (5, Edit::To("end exit 8"), 5),
    (5, Edit::To("end deadlock"), 5),
    (5, Edit::To("end differ"), 5),
    (5, Edit::To("end limit 0 3"), 5),
    (5, Edit::To("end sink 0"), 5),
];

#[derive(Clone, Copy)]
enum Edit {
    To(&'static str),
    Dropped,
    Doubled,
    Swapped,
}

// Ends of a journal that begins with `FRONT`.
#[rattlefmt::skip]
const CUT: &[Row] = &[
    Row { title: "a sink that took nothing", of: Of::Hello, lines: &["end sink 0"], want: Want::Legal(Some(How::Sink(0)), 6, "", 0, None) },
    Row { title: "a sink that took four bytes", of: Of::Hello, lines: &["end sink 4"], want: Want::Legal(Some(How::Sink(4)), 6, "hell", 0, None) },
    Row { title: "a sink that took all", of: Of::Hello, lines: &["end sink 5"], want: Want::Illegal(5) },
    Row { title: "a scrub that is due", of: Of::HelloScrubbed, lines: &["take 0 0 0", "put 0 0 0 2 0", "take 0 1 0", "put 0 1 0 2 0", "scrub 0 -", "vote 0 2 0 - served", "end exit 0"], want: Want::Legal(Some(How::Exit(0)), 9, "hello", 0, None) },
    Row { title: "no scrub where one is due", of: Of::HelloScrubbed, lines: &["take 0 0 0", "put 0 0 0 2 0", "take 0 1 0", "put 0 1 0 2 0", "vote 0 2 0 - served", "end exit 0"], want: Want::Legal(Some(How::Exit(0)), 9, "hello", 0, Some(9)) },
    Row { title: "a sink that fails later", of: Of::Hello, lines: &["take 0 0 0", "end sink 4"], want: Want::Illegal(6) },
];

#[test]
fn legal(rt: HostRuntime) -> Result<(), Fail> {
    for row in LEGAL {
        follow(&rt, rt.alloc(), row.title, row.of, row.lines, row.want)?;
    }
    Ok(())
}

#[test]
fn changed(rt: HostRuntime) -> Result<(), Fail> {
    for (place, edit, want) in CHANGED {
        let lines = edited(rt.alloc(), *place, *edit)?;
        let title = EXIT.get(*place).copied().unwrap_or("");
        follow(
            &rt,
            rt.alloc(),
            title,
            Of::Short,
            lines.as_slice(),
            Want::Illegal(*want),
        )?;
    }
    Ok(())
}

// The lines of `EXIT` with an edit at this place.
fn edited(alloc: Global, place: usize, edit: Edit) -> Result<Vec<&'static str>, Fail> {
    let mut lines = Vec::new(alloc);
    for (number, line) in EXIT.iter().enumerate() {
        match edit {
            Edit::To(other) if number == place => lines.push(other)?,
            Edit::Dropped if number == place => {}
            Edit::Doubled if number == place => {
                lines.push(*line)?;
                lines.push(*line)?;
            }
            Edit::Swapped if number == place => {
                if let Some(next) = EXIT.get(number + 1) {
                    lines.push(*next)?;
                }
                lines.push(*line)?;
            }
            Edit::Swapped if number > 0 && number - 1 == place => {}
            _ => lines.push(*line)?,
        }
    }
    Ok(lines)
}

#[test]
fn cut(rt: HostRuntime) -> Result<(), Fail> {
    for row in CUT {
        let mut lines = Vec::from_slice(rt.alloc(), FRONT)?;
        for line in row.lines {
            lines.push(*line)?;
        }
        follow(
            &rt,
            rt.alloc(),
            row.title,
            row.of,
            lines.as_slice(),
            row.want,
        )?;
    }
    Ok(())
}

// Audits the journal of these lines.
fn follow(
    rt: &impl Abort,
    alloc: Global,
    title: &str,
    of: Of,
    lines: &[&str],
    want: Want,
) -> Result<(), Fail> {
    let mut text = Vec::from_slice(alloc, b"romain 2\n".as_slice())?;
    for line in lines {
        text.extend_from_slice(line.as_bytes())?;
        text.push(b'\n')?;
    }
    let Ok(journal) = read_journal(alloc, text.as_slice()) else {
        panic!(rt; "the journal of {title} is none");
    };
    let settings = settings_of(of);
    let image = image_of(rt, alloc, of)?;
    assert!(rt; settings.is_in_range());
    let (_, audited) = audit::<Core>(
        alloc,
        image,
        &[],
        faults_of(of),
        settings,
        journal.entries.as_slice(),
    );
    match audited {
        Ok(audited) => {
            let Want::Legal(how, steps, output, views, odd) = want else {
                panic!(rt; "{title} is legal");
            };
            assert_eq!(rt; audited.how, how, "of {title}");
            assert_eq!(rt; audited.steps, steps, "of {title}");
            assert_eq!(rt; audited.output.as_slice(), output.as_bytes(), "of {title}");
            assert_eq!(rt; audited.views.len(), views, "of {title}");
            assert_eq!(rt; audited.odd, odd, "of {title}");
        }
        Err(AuditError::Illegal { place, .. }) => {
            let Want::Illegal(first) = want else {
                panic!(rt; "{title} is illegal at {place}");
            };
            assert_eq!(rt; place, first, "of {title}");
        }
        Err(AuditError::NoMemory) => return Err(Fail::from(std::alloc::AllocError)),
    }
    Ok(())
}

fn settings_of(of: Of) -> Settings
    ensures { result.mode ≡ Voted }
{
    let (replicas, drivers, limit, scrub) = match of {
        Of::ShortByTwo => (2, 2, 100, 0),
        Of::ShortLimited => (2, 1, 2, 0),
        Of::Struck | Of::Scattered => (3, 1, 100, 0),
        Of::HelloScrubbed => (2, 1, 100, 1),
        _ => (2, 1, 100, 0),
    };
    Settings {
        replicas,
        drivers,
        limit,
        scrub,
        ..Settings::DEFAULT
    }
}

// Which faults are struck.
fn faults_of(of: Of) -> &'static [Fault]
    ensures { AreFaults result.now }
{
    if of.is_scattered() {
        return TWO;
    }
    if of.is_struck() {
        return ONE;
    }
    if of.is_unread() {
        return UNREAD;
    }
    NONE
}

impl Of {
    fn is_scattered(self) -> bool {
        matches!(self, Of::Scattered)
    }

    fn is_struck(self) -> bool {
        matches!(self, Of::Differing | Of::Struck)
    }

    fn is_unread(self) -> bool {
        matches!(self, Of::Unread)
    }
}

fn image_of(rt: &impl Abort, alloc: Global, of: Of) -> Result<Executable, Fail> {
    let words = match of {
        Of::Hello | Of::HelloScrubbed => HELLO,
        Of::Broken => BROKEN,
        _ => SHORT,
    };
    let bytes = image_bytes(alloc, words, 5, &[])?;
    let Ok(image) = read_executable(alloc, bytes.as_slice()) else {
        panic!(rt; "the image is none");
    };
    Ok(image)
}
