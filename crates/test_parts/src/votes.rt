//! Votes of views that differ in one part.
use ro_event::{Call, Stop, View, Which};
use ro_journal::Lost;
use ro_vote::{Won, verdict};

const KINDS: usize = 6;

// A view of this kind. Of each two kinds, one part is not the same.
fn shown(kind: usize) -> View {
    let mut registers = [0; 31];
    if kind == 1 {
        registers[30] = 1;
    }
    let pc = if kind == 2 { 0x10056 } else { 0x10054 };
    let since = if kind == 3 { 3 } else { 2 };
    let stop = match kind {
        4 => exits(6),
        5 => Stop::Watchdog,
        _ => exits(7),
    };
    View::new(registers, pc, since, stop)
}

fn exits(status: u32) -> Stop {
    Stop::Calls(Call {
        which: Which::System(93),
        a0: status,
        a1: 0,
        a2: 0,
        a3: 0,
    })
}

#[test]
fn two(rt: HostRuntime) {
    for i in 0..KINDS {
        for k in 0..KINDS {
            let want = if i == k { won(0, Lost::Nobody) } else { None };
            assert_eq!(rt; verdict(&[shown(i), shown(k)]), want, "{i} and {k}");
        }
    }
}

#[test]
fn three(rt: HostRuntime) {
    for i in 0..KINDS {
        assert_eq!(rt; of_three(i, i, i), won(0, Lost::Nobody), "all are {i}");
        for k in (0..KINDS).filter(|k| *k != i) {
            assert_eq!(rt; of_three(i, i, k), won(0, Lost::One(2)), "{i} {i} {k}");
            assert_eq!(rt; of_three(i, k, i), won(0, Lost::One(1)), "{i} {k} {i}");
            assert_eq!(rt; of_three(k, i, i), won(1, Lost::One(0)), "{k} {i} {i}");
        }
    }
    assert_eq!(rt; of_three(0, 1, 2), None);
    assert_eq!(rt; of_three(3, 4, 5), None);
}

#[test]
fn five(rt: HostRuntime) {
    for (kinds, want) in [
        ([0, 0, 0, 0, 0], won(0, Lost::Nobody)),
        ([0, 0, 1, 0, 0], won(0, Lost::One(2))),
        ([1, 0, 0, 0, 0], won(1, Lost::One(0))),
        ([0, 1, 0, 1, 0], won(0, Lost::Two(1, 3))),
        ([1, 1, 0, 0, 0], won(2, Lost::Two(0, 1))),
        ([1, 0, 0, 2, 0], won(1, Lost::Two(0, 3))),
        ([0, 0, 0, 1, 2], won(0, Lost::Two(3, 4))),
        ([0, 0, 1, 1, 2], None),
        ([0, 1, 2, 0, 3], None),
        ([0, 1, 2, 3, 4], None),
    ] {
        let views = kinds.map(shown);
        assert_eq!(rt; verdict(&views), want, "{kinds:?}");
    }
}

fn of_three(a: usize, b: usize, c: usize) -> Option<Won> {
    verdict(&[shown(a), shown(b), shown(c)])
}

fn won(won: u32, lost: Lost) -> Option<Won> {
    Some(Won { won, lost })
}
