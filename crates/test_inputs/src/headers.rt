//! Files against the codes that they are to be refused with.
use ro_elf::{SectionTable, Segment, read_elf};

// A program of three words that ends with the status 7.
const PROGRAM: [u8; 96] = [
    0x7F, 0x45, 0x4C, 0x46, 1, 1, 1, 0, 0, 0, 0, 0, 0, 0, 0, 0, 2, 0, 0xF3, 0, 1, 0, 0, 0, 0x54, 0,
    1, 0, 0x34, 0, 0, 0, 0, 0, 0, 0, 0, 0, 0, 0, 0x34, 0, 0x20, 0, 1, 0, 0, 0, 0, 0, 0, 0, 1, 0, 0,
    0, 0, 0, 0, 0, 0, 0, 1, 0, 0, 0, 1, 0, 0x60, 0, 0, 0, 0x60, 0, 0, 0, 5, 0, 0, 0, 0, 0x10, 0, 0,
    0x13, 5, 0x70, 0, 0x93, 8, 0xD0, 5, 0x73, 0, 0, 0,
];

#[test]
fn changed_bytes(rt: HostRuntime) {
    // the byte that is changed, what it becomes, and the code (0: accepted)
    let cases = [
        (0, 0x7F, 0),
        (0, 0x7E, 2),
        (3, 0x47, 2),
        (4, 2, 3),
        (5, 2, 4),
        (6, 0, 5),
        (7, 9, 0),
        (16, 3, 6),
        (18, 0xF2, 7),
        (20, 2, 5),
        (24, 0x60, 14),
        (24, 0x56, 14),
        (24, 0x5C, 0),
        (28, 0x41, 10),
        (31, 0xFF, 10),
        (32, 1, 0),
        (36, 1, 8),
        (36, 0x10, 0),
        (42, 31, 9),
        (44, 0, 9),
        (44, 33, 9),
        (44, 2, 10),
        (52, 2, 11),
        (52, 3, 11),
        (52, 7, 11),
        (52, 4, 14),
        (56, 1, 12),
        (59, 0xFF, 12),
        (62, 0, 13),
        (63, 0x40, 13),
        (68, 0x61, 12),
        (72, 0x5F, 12),
        (72, 0x61, 0),
        (74, 0x40, 15),
        (75, 0x40, 13),
        (76, 4, 14),
        (76, 1, 0),
        (76, 0xFF, 0),
    ];
    for (at, value, code) in cases {
        let mut file = PROGRAM;
        assert!(rt; at < file.len());
        file[at] = value;
        match read_elf(&file) {
            Ok(_) => assert_eq!(rt; 0, code, "with byte {at} {value}"),
            Err(error) => assert_eq!(rt; error.number(), code, "with byte {at} {value}"),
        }
    }
}

#[test]
fn one_segment(rt: HostRuntime) {
    let elf = read_elf(&PROGRAM);
    let Ok(elf) = elf else {
        panic!(rt; "it is accepted");
    };
    let whole = Segment {
        offset: 0,
        address: 0x1_0000,
        file_size: 96,
        memory_size: 96,
        flags: 5,
    };
    let none = SectionTable {
        offset: 0,
        entry_size: 0,
        count: 0,
    };
    assert_eq!(rt; elf.entry(), 0x1_0054);
    assert_eq!(rt; elf.sections(), none);
    assert_eq!(rt; elf.segments(), [whole].as_slice());
    assert!(rt; whole.is_readable() && !whole.is_writable() && whole.is_executable());
}
