//! Lists of faults, read and refused.
use ro_faults::{FaultsError, read_faults, write_faults};
use std::alloc::{AllocError, Global};

// A list of so many lines `1 0 1 pc 3` and this text behind them, and the bad line and its code, where it is refused.
struct Row {
    good: u32,
    text: &'static str,
    want: Option<(u32, u8)>,
}

const ROWS: &[Row] = &[
    Row {
        good: 0,
        text: "",
        want: None,
    },
    Row {
        good: 256,
        text: "",
        want: None,
    },
    Row {
        good: 256,
        text: "1 0 1 pc 3\n",
        want: Some((257, 3)),
    },
    Row {
        good: 256,
        text: "1",
        want: Some((257, 3)),
    },
    Row {
        good: 0,
        text: "3 0 1 reg 10 0\n",
        want: Some((1, 2)),
    },
    Row {
        good: 0,
        text: "1 0 1 reg 0 0\n",
        want: Some((1, 2)),
    },
    Row {
        good: 0,
        text: "1 0 01 reg 10 0\n",
        want: Some((1, 1)),
    },
    Row {
        good: 0,
        text: "1 0  1 pc 3\n",
        want: Some((1, 1)),
    },
    Row {
        good: 0,
        text: "1 0 1 pc\n",
        want: Some((1, 1)),
    },
    Row {
        good: 0,
        text: "1 0 1 mem 2 3 4\n",
        want: Some((1, 1)),
    },
    Row {
        good: 0,
        text: "\n",
        want: Some((1, 1)),
    },
    Row {
        good: 2,
        text: "1 0 1 reg 10 0",
        want: Some((3, 1)),
    },
    Row {
        good: 1,
        text: "1 0 1 pc 32\n",
        want: Some((2, 2)),
    },
    Row {
        good: 0,
        text: "1 0 340282366920938463463374607431768211456 pc 3\n",
        want: Some((1, 2)),
    },
    Row {
        good: 0,
        text: "1 0 1000000000001 pc 3\n",
        want: Some((1, 2)),
    },
    Row {
        good: 0,
        text: "1 0 1000000000000 pc 3\n",
        want: None,
    },
    Row {
        good: 0,
        text: "2 15 0 mem 4294967295 7\n",
        want: None,
    },
    Row {
        good: 0,
        text: "2 15 0 mem 4294967296 7\n",
        want: Some((1, 2)),
    },
    Row {
        good: 0,
        text: "2 15 0 mem 4294967295 8\n",
        want: Some((1, 2)),
    },
];

#[test]
fn rows(rt: HostRuntime) -> Result<(), AllocError> {
    for row in ROWS {
        let mut bytes = Vec::new(rt.alloc());
        for _ in 0..row.good {
            bytes.extend_from_slice("1 0 1 pc 3\n".as_bytes())?;
        }
        bytes.extend_from_slice(row.text.as_bytes())?;
        let found = refusal(rt.alloc(), bytes.as_slice());
        assert_eq!(rt; found, row.want, "of {} and {:?}", row.good, row.text);
    }
    Ok(())
}

// The bad line of a list for three replicas, and its code.
fn refusal(alloc: Global, bytes: &[u8]) -> Option<(u32, u8)> {
    match read_faults(alloc, bytes, 3) {
        Err(FaultsError::Bad { line, code }) => Some((line, code.code())),
        _ => None,
    }
}

#[test]
fn reads(rt: HostRuntime) -> Result<(), FaultsError> {
    let text = "0 0 1 reg 10 0\n1 15 1000000000000 pc 31\n2 3 0 mem 4294967295 7\n";
    let faults = read_faults(rt.alloc(), text.as_bytes(), 3)?;
    assert_eq!(rt; faults.len(), 3);
    let bytes = write_faults(rt.alloc(), faults.as_slice())?;
    assert!(rt; bytes.as_slice() == text.as_bytes());
    Ok(())
}
