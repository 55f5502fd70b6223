//! Bytes that are stored, loaded and copied, within a page and over its end.
use ro_pages::{Memory, Pages};
use std::process::Abort;
use std::test::Fail;

fn put(rt: &impl Abort, memory: &mut impl Memory, address: u32, size: u32, value: u32) {
    assert!(rt; size == 1 || size == 2 || size == 4);
    assert!(rt; address % size == 0);
    assert!(rt; memory.backed(address / 4096));
    memory.store(address, size, value);
}

fn get(rt: &impl Abort, memory: &impl Memory, address: u32, size: u32) -> u32 {
    assert!(rt; size == 1 || size == 2 || size == 4);
    assert!(rt; address % size == 0);
    assert!(rt; memory.backed(address / 4096));
    memory.load(address, size)
}

// what bytes are stored at, and what is read afterwards at another place
struct Stretch {
    place: u32,
    bytes: &'static [u8],
    from: u32,
    want: [u8; 12],
}

const STRETCHES: &[Stretch] = &[
    Stretch {
        place: 0x1_0FFD,
        bytes: &[1, 2, 3, 4, 5, 6, 7, 8],
        from: 0x1_0FFB,
        want: [0, 0, 1, 2, 3, 4, 5, 6, 7, 8, 0, 0],
    },
    Stretch {
        place: 0x1_1000,
        bytes: &[17, 18, 19, 20],
        from: 0x1_0FFB,
        want: [0, 0, 1, 2, 3, 17, 18, 19, 20, 8, 0, 0],
    },
    Stretch {
        place: 0x1_0FFE,
        bytes: &[],
        from: 0x1_0FFC,
        want: [0, 1, 2, 3, 17, 18, 19, 20, 8, 0, 0, 0],
    },
    // the next page is not backed
    Stretch {
        place: 0x1_1FFE,
        bytes: &[8, 9],
        from: 0x1_1FF8,
        want: [0, 0, 0, 0, 0, 0, 8, 9, 0, 0, 0, 0],
    },
    Stretch {
        place: 0x1_0FFF,
        bytes: &[5],
        from: 0xFFFF_FFF4,
        want: [0; 12],
    },
];

fn store_bytes(rt: &impl Abort, pages: &mut Pages, place: u32, bytes: &[u8]) {
    assert!(rt; bytes.len() <= 4096);
    assert!(rt; place < 0x1000_0000);
    let last = place + bytes.len() as u32;
    assert!(rt; pages.has_page(place / 4096));
    assert!(rt; last % 4096 == 0 || pages.has_page(last / 4096));
    pages.write_bytes(place, bytes);
}

#[test]
fn stores_and_reads_stretches(rt: HostRuntime) -> Result<(), Fail> {
    let mut pages = Pages::new(rt.alloc())?;
    pages.reserve(2)?;
    assert!(rt; !pages.backed(0x10));
    pages.back(0x10);
    assert!(rt; !pages.backed(0x11));
    pages.back(0x11);
    for stretch in STRETCHES {
        store_bytes(&rt, &mut pages, stretch.place, stretch.bytes);
        assert!(rt; stretch.from <= 0xFFFF_FFF4);
        let mut bytes = [1; 12];
        pages.read_bytes(stretch.from, &mut bytes);
        assert_eq!(rt; bytes, stretch.want, "from {:x}", stretch.from);
    }
    Ok(())
}

const STORED: &[(u32, u32, u32, u32)] = &[
    (0, 1, 0x1234_5678, 0xDDCC_BB78),
    (1, 1, 0x1234_5678, 0xDDCC_78AA),
    (2, 1, 0x1234_5678, 0xDD78_BBAA),
    (3, 1, 0x1234_5678, 0x78CC_BBAA),
    (0, 2, 0x1234_5678, 0xDDCC_5678),
    (2, 2, 0x1234_5678, 0x5678_BBAA),
    (0, 4, 0x1234_5678, 0x1234_5678),
];

// each size at each alignment, over a word of 0xDDCCBBAA
#[test]
fn stores_and_loads(rt: HostRuntime) -> Result<(), Fail> {
    let mut pages = Pages::new(rt.alloc())?;
    pages.reserve(2)?;
    assert!(rt; !pages.backed(0xF_FFFF));
    pages.back(0xF_FFFF);
    assert!(rt; !pages.backed(0));
    pages.back(0);
    for row in STORED {
        let (offset, size, value, want) = *row;
        let word = 0xFFFF_FFFCu32;
        put(&rt, &mut pages, word, 4, 0xDDCC_BBAA);
        put(&rt, &mut pages, word.wrapping_add(offset), size, value);
        assert_eq!(rt; get(&rt, &pages, word, 4), want, "{size} at {offset}");
        assert_eq!(rt; get(&rt, &pages, 0xFFFF_FFF8, 4), 0);
    }
    Ok(())
}

#[test]
fn copies(rt: HostRuntime) -> Result<(), Fail> {
    let mut from = Pages::new(rt.alloc())?;
    let mut to = Pages::new(rt.alloc())?;
    from.reserve(1)?;
    to.reserve(3)?;
    assert!(rt; !from.backed(16));
    from.back(16);
    assert!(rt; !to.backed(16));
    to.back(16);
    from.store(0x1_0000, 4, 0x89AB_CDEF);
    to.store(0x1_0004, 4, 1);
    let first = to.copy_from(&from);
    let second = to.copy_from(&from);
    assert_eq!(rt; (first, second), (1, 0));
    for (address, want) in [
        (0x1_0000, 0xEFu32),
        (0x1_0001, 0xCD),
        (0x1_0002, 0xAB),
        (0x1_0003, 0x89),
        (0x1_0004, 0),
    ] {
        assert_eq!(rt; get(&rt, &to, address, 1), want, "at {address:x}");
    }
    assert_eq!(rt; get(&rt, &from, 0x1_0002, 2), 0x89AB);
    Ok(())
}
