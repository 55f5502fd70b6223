//! Which bytes ranges permit, and the code of a page.
use ro_region::{Kind, Range, Regions};
use std::test::Fail;

fn range(start: u32, length: u32, read: bool, write: bool, execute: bool) -> Range {
    Range {
        start,
        length,
        read,
        write,
        execute,
    }
}

const CONTAINED: &[(u32, bool)] = &[
    (0x0_FFFF, false),
    (0x1_0000, true),
    (0x1_0023, true),
    (0x1_0029, true),
    (0x1_002A, false),
    (0xFFFF_FFEF, false),
    (0xFFFF_FFFF, true),
];

#[test]
fn contains_what_the_ranges_do(rt: HostRuntime) -> Result<(), Fail> {
    let list = [
        range(0x1_0000, 0x24, true, false, true),
        range(0x1_0024, 6, false, false, false),
        range(0xFFFF_FFF0, 0x10, false, true, false),
    ];
    let regions = Regions::new(rt.alloc(), &list)?;
    for row in CONTAINED {
        let (address, want) = *row;
        assert_eq!(rt; regions.contains(address), want, "at {address:x}");
    }
    Ok(())
}

#[test]
fn finds_the_code_of_a_page(rt: HostRuntime) -> Result<(), Fail> {
    let list = [
        range(0x1_0002, 0x24, true, false, true),
        range(0x2_0000, 0x1800, true, false, true),
        range(0x3_0000, 0x1000, true, true, false),
        range(0x4_0FFD, 2, true, false, true),
    ];
    let regions = Regions::new(rt.alloc(), &list)?;
    for (page, want) in [
        (0x10u32, (0x1_0004, 0x1_0024)),
        (0x20, (0x2_0000, 0x2_1000)),
        (0x21, (0x2_1000, 0x2_1800)),
        (0x30, (0x3_0000, 0x3_0000)),
        (0x40, (0x4_0000, 0x4_0000)),
    ] {
        assert_eq!(rt; regions.code_in_page(page), want, "page {page:x}");
    }
    Ok(())
}

const PERMITTED: &[(u32, u32, Kind, bool)] = &[
    (0x1_0000, 4, Kind::Execute, true),
    (0x1_0020, 4, Kind::Execute, true),
    (0x1_0021, 4, Kind::Execute, false),
    (0x1_0024, 4, Kind::Execute, false),
    // over the border of two ranges
    (0x1_0022, 4, Kind::Read, true),
    (0x1_0028, 2, Kind::Read, true),
    (0x1_0028, 4, Kind::Read, false),
    (0x0_FFFF, 1, Kind::Read, false),
    (0x1_0000, 1, Kind::Write, false),
    // a whole page, a part of the next one, and a second range in that
    (0x1_1FFC, 4, Kind::Write, true),
    (0x1_1FFE, 4, Kind::Write, true),
    (0x1_27FF, 1, Kind::Write, true),
    (0x1_27FF, 2, Kind::Write, false),
    (0x1_2900, 4, Kind::Write, true),
    (0x1_290E, 4, Kind::Write, false),
    // the end of the addresses
    (0xFFFF_FFFC, 4, Kind::Read, true),
    (0xFFFF_FFFE, 4, Kind::Read, false),
    (0xFFFF_FFFE, 1, Kind::Write, true),
    (0xFFFF_FFFF, 1, Kind::Write, false),
    (0x5000_0000, 0, Kind::Read, true),
    // over three pages, from the middle of one to the middle of another
    (0x2_0800, 0x2000, Kind::Read, true),
    (0x2_0FFF, 0x1002, Kind::Read, true),
    // into a page of which only the beginning is permitted, and into a forbidden one
    (0x2_0800, 0x2401, Kind::Read, false),
    (0x2_0800, 0x3000, Kind::Read, false),
    (0x1_FFFF, 0x1001, Kind::Read, false),
    (0xFFFF_F800, 0x800, Kind::Read, true),
    (0xFFFF_EFFF, 0x1001, Kind::Write, false),
    (0xFFFF_EFFF, 0x1000, Kind::Write, true),
    (0xFFFF_F800, 0x801, Kind::Read, false),
    (1, u32::MAX, Kind::Read, false),
];

#[test]
fn permits_what_the_ranges_do(rt: HostRuntime) -> Result<(), Fail> {
    let list = [
        range(0x1_0000, 0x24, true, false, true),
        range(0x1_0024, 6, true, false, false),
        range(0x1_1000, 0x1800, true, true, false),
        range(0x1_2900, 0x10, true, true, false),
        range(0x2_0000, 0x2C00, true, false, false),
        range(0xFFFF_F000, 0x1000, true, false, false),
        range(0xFFFF_0000, 0xFFFF, false, true, false),
    ];
    let regions = Regions::new(rt.alloc(), &list)?;
    for row in PERMITTED {
        let (address, len, kind, want) = *row;
        assert_eq!(rt;
            regions.permits(address, len, kind),
            want,
            "{kind:?} {len} at {address:x}"
        );
    }
    Ok(())
}

const PERMITTED_SINCE: &[(u32, u32, Kind, bool)] = &[
    (0x5000_0000, 0x3000, Kind::Read, true),
    (0x5000_0000, 0x3001, Kind::Read, false),
    (0x5000_0FFF, 2, Kind::Read, true),
    (0x5000_0FFF, 1, Kind::Write, false),
    (0x5000_0FFF, 2, Kind::Write, false),
    (0x5000_1000, 0x2000, Kind::Write, true),
    (0x5000_1000, 4, Kind::Execute, false),
    // over the border of the first ranges and those that were given
    (0x4FFF_FFFE, 4, Kind::Read, true),
    (0x4FFF_FFFE, 4, Kind::Write, false),
];

#[test]
fn permits_what_was_given_since(rt: HostRuntime) -> Result<(), Fail> {
    let list = [range(0x4FFF_F000, 0x1000, true, true, false)];
    let mut regions = Regions::new(rt.alloc(), &list)?;
    let before = regions.opening(rt.alloc())?;
    regions.add(range(0x5000_0000, 0x1000, true, false, false));
    let both = regions.given().len();
    regions.add(range(0x5000_1000, 0x2000, true, true, false));
    assert_eq!(rt;
        (both, regions.given().len(), before.given().len()),
        (1, 2, 0)
    );
    for row in PERMITTED_SINCE {
        let (address, len, kind, want) = *row;
        assert_eq!(rt;
            regions.permits(address, len, kind),
            want,
            "{kind:?} {len} at {address:x}"
        );
        assert!(rt;
            !before.permits(address, len, kind),
            "{kind:?} {len} at {address:x}"
        );
    }
    assert_eq!(rt;
        regions.words_in_page(0x5_0000, Kind::Read),
        (0x5000_0000, 0x5000_1000)
    );
    assert_eq!(rt;
        regions.words_in_page(0x5_0000, Kind::Write),
        (0x5000_0000, 0x5000_0000)
    );
    assert_eq!(rt;
        regions.words_in_page(0x5_0002, Kind::Write),
        (0x5000_2000, 0x5000_3000)
    );
    assert_eq!(rt;
        regions.words_in_page(0x5_0003, Kind::Read),
        (0x5000_3000, 0x5000_3000)
    );
    assert!(rt; regions.contains(0x5000_2FFF) && !regions.contains(0x5000_3000));
    Ok(())
}
