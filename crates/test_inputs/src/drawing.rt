//! Draws against the lists of the same generator elsewhere.
ghost use Rattle.std.specs.Prelude.{◌≡◌};

use ro_faults::write_faults;
use ro_image::{ImageError, read_executable};
use ro_inject::{Bounds, draw};
use ro_region::Range;
use std::alloc::AllocError;

// The file of three words.
const SHORT: [u8; 96] = [
    0x7F, 0x45, 0x4C, 0x46, 1, 1, 1, 0, 0, 0, 0, 0, 0, 0, 0, 0, 2, 0, 0xF3, 0, 1, 0, 0, 0, 0x54, 0,
    1, 0, 0x34, 0, 0, 0, 0, 0, 0, 0, 0, 0, 0, 0, 0x34, 0, 0x20, 0, 1, 0, 0, 0, 0, 0, 0, 0, 1, 0, 0,
    0, 0, 0, 0, 0, 0, 0, 1, 0, 0, 0, 1, 0, 0x60, 0, 0, 0, 0x60, 0, 0, 0, 5, 0, 0, 0, 0, 0x10, 0, 0,
    0x13, 5, 0x70, 0, 0x93, 8, 0xD0, 5, 0x73, 0, 0, 0,
];

// A range of bytes that may be read.
fn range(start: u32, length: u32) -> Range
    ensures start { result.start ≡ start }
    ensures length { result.length ≡ length }
{
    Range {
        start,
        length,
        read: true,
        write: false,
        execute: false,
    }
}

// A seed, a replica, if one is given, and the lines that are drawn.
struct Row {
    seed: u64,
    only: Option<u32>,
    count: u32,
    want: &'static str,
}

const ROWS: &[Row] = &[
    Row {
        seed: 42,
        only: None,
        count: 6,
        want: "0 1 5824 pc 11\n1 1 6445 reg 5 30\n1 2 9757 reg 4 10\n0 2 2390 reg 12 17\n0 3 6357 pc 4\n0 1 1061 pc 28\n",
    },
    Row {
        seed: 42,
        only: Some(2),
        count: 6,
        want: "2 1 5824 pc 11\n2 1 6445 reg 5 30\n2 2 9757 reg 4 10\n2 2 2390 reg 12 17\n2 3 6357 pc 4\n2 1 1061 pc 28\n",
    },
    Row {
        seed: 7,
        only: None,
        count: 5,
        want: "1 0 333 mem 74145 7\n2 1 6935 reg 19 6\n1 2 6630 mem 77670 2\n0 1 7799 reg 21 2\n1 1 753 mem 75799 4\n",
    },
    Row {
        seed: 1,
        only: None,
        count: 8,
        want: "1 0 6159 mem 77232 3\n1 1 1076 mem 74509 4\n0 0 5866 pc 29\n2 3 580 reg 21 24\n1 0 1284 reg 27 3\n2 2 3445 mem 77339 1\n0 0 8221 reg 20 9\n0 2 994 reg 7 24\n",
    },
];

#[test]
fn rows(rt: HostRuntime) -> Result<(), AllocError> {
    let ranges = [
        range(0x1_0000, 300),
        range(0x2_0000, 1),
        range(0x1_2000, 4096),
    ];
    for row in ROWS {
        let bounds = Bounds {
            ranges: &ranges,
            only: row.only,
        };
        let faults = draw(rt.alloc(), row.seed, row.count, &bounds)?;
        let text = write_faults(rt.alloc(), faults.as_slice())?;
        assert_eq!(rt; text.as_slice(), row.want.as_bytes());
    }
    Ok(())
}

#[test]
fn of_an_executable(rt: HostRuntime) -> Result<(), ImageError> {
    let image = read_executable(rt.alloc(), &SHORT)?;
    for (seed, only, count, want) in [
        (42, None, 1, "0 1 5824 pc 11\n"),
        (
            u64::MAX,
            Some(0),
            4,
            "0 2 9226 mem 65592 0\n0 0 4339 pc 27\n0 1 5073 mem 65554 5\n0 0 9769 pc 6\n",
        ),
    ] {
        let faults = draw(rt.alloc(), seed, count, &Bounds::of(&image, only))?;
        let text = write_faults(rt.alloc(), faults.as_slice())?;
        assert_eq!(rt; text.as_slice(), want.as_bytes());
    }
    Ok(())
}
