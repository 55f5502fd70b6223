//! A file's symbols against the table, or the codes, that they are to give.
use ro_elf::read_elf;
use ro_sym::{Within, calls, function_at, object_at};
use std::process::Abort;

// Two threads that write a letter each under one mutex, with the five functions that they call.
const THREADS: [u8; 540] = [
    0x7F, 0x45, 0x4C, 0x46, 1, 1, 1, 0, 0, 0, 0, 0, 0, 0, 0, 0, 2, 0, 0xF3, 0, 1, 0, 0, 0, 0x54, 0,
    1, 0, 0x34, 0, 0, 0, 0xA4, 1, 0, 0, 0, 0, 0, 0, 0x34, 0, 0x20, 0, 1, 0, 0x28, 0, 3, 0, 0, 0, 1,
    0, 0, 0, 0, 0, 0, 0, 0, 0, 1, 0, 0, 0, 1, 0, 0xF0, 0, 0, 0, 0xF0, 0, 0, 0, 7, 0, 0, 0, 0, 0x10,
    0, 0, 0x37, 4, 1, 0, 0x13, 5, 4, 0x0E, 0x93, 5, 0, 0, 0x13, 6, 0x84, 9, 0x93, 6, 0xC4, 0x0E,
    0xEF, 0, 0x40, 6, 0x13, 5, 0x44, 0x0E, 0x93, 6, 0xD4, 0x0E, 0xEF, 0, 0x80, 5, 0x13, 5, 0x10, 0,
    0x93, 5, 0, 0, 0xEF, 0, 0, 5, 0x13, 5, 0x20, 0, 0xEF, 0, 0x80, 4, 0x13, 5, 0, 0, 0x93, 8, 0xD0,
    5, 0x73, 0, 0, 0, 0x93, 4, 5, 0, 0x37, 4, 1, 0, 0x13, 5, 0x84, 0x0E, 0xEF, 0, 0, 3, 0x13, 5,
    0x10, 0, 0x93, 0x85, 4, 0, 0x13, 6, 0x10, 0, 0x93, 8, 0, 4, 0x73, 0, 0, 0, 0x13, 5, 0x84, 0x0E,
    0xEF, 0, 0x80, 1, 0x13, 5, 0, 0, 0xEF, 0, 0x40, 1, 0x67, 0x80, 0, 0, 0x67, 0x80, 0, 0, 0x67,
    0x80, 0, 0, 0x67, 0x80, 0, 0, 0x67, 0x80, 0, 0, 0, 0, 0, 0, 0, 0, 0, 0, 0, 0, 0, 0, 0x41, 0x42,
    0, 0, 0, 0, 0, 0, 0, 0, 0, 0, 0, 0, 0, 0, 0, 0, 0, 0, 1, 0, 0, 0, 0xCC, 0, 1, 0, 0, 0, 0, 0,
    0x12, 0, 1, 0, 0x10, 0, 0, 0, 0xD0, 0, 1, 0, 0, 0, 0, 0, 0x12, 0, 1, 0, 0x1D, 0, 0, 0, 0xD4, 0,
    1, 0, 0, 0, 0, 0, 0x12, 0, 1, 0, 0x30, 0, 0, 0, 0xD8, 0, 1, 0, 0, 0, 0, 0, 0x12, 0, 1, 0, 0x45,
    0, 0, 0, 0xDC, 0, 1, 0, 0, 0, 0, 0, 0x12, 0, 1, 0, 0, 0x70, 0x74, 0x68, 0x72, 0x65, 0x61, 0x64,
    0x5F, 0x63, 0x72, 0x65, 0x61, 0x74, 0x65, 0, 0x70, 0x74, 0x68, 0x72, 0x65, 0x61, 0x64, 0x5F,
    0x6A, 0x6F, 0x69, 0x6E, 0, 0x70, 0x74, 0x68, 0x72, 0x65, 0x61, 0x64, 0x5F, 0x6D, 0x75, 0x74,
    0x65, 0x78, 0x5F, 0x6C, 0x6F, 0x63, 0x6B, 0, 0x70, 0x74, 0x68, 0x72, 0x65, 0x61, 0x64, 0x5F,
    0x6D, 0x75, 0x74, 0x65, 0x78, 0x5F, 0x75, 0x6E, 0x6C, 0x6F, 0x63, 0x6B, 0, 0x70, 0x74, 0x68,
    0x72, 0x65, 0x61, 0x64, 0x5F, 0x65, 0x78, 0x69, 0x74, 0, 0, 0, 0, 0, 0, 0, 0, 0, 0, 0, 0, 0, 0,
    0, 0, 0, 0, 0, 0, 0, 0, 0, 0, 0, 0, 0, 0, 0, 0, 0, 0, 0, 0, 0, 0, 0, 0, 0, 0, 0, 0, 0, 0, 0, 0,
    0, 2, 0, 0, 0, 0, 0, 0, 0, 0, 0, 0, 0, 0xF0, 0, 0, 0, 0x60, 0, 0, 0, 2, 0, 0, 0, 1, 0, 0, 0, 4,
    0, 0, 0, 0x10, 0, 0, 0, 0, 0, 0, 0, 3, 0, 0, 0, 0, 0, 0, 0, 0, 0, 0, 0, 0x50, 1, 0, 0, 0x54, 0,
    0, 0, 0, 0, 0, 0, 0, 0, 0, 0, 1, 0, 0, 0, 0, 0, 0, 0,
];

// The answer for a file, with 0 as the code of a table.
fn code_of(rt: &impl Abort, file: &[u8]) -> u8 {
    let Ok(elf) = read_elf(file) else {
        panic!(rt; "its headers are accepted");
    };
    match calls(file, &elf) {
        Ok(_) => 0,
        Err(error) => error.number(),
    }
}

#[test]
fn five_functions(rt: HostRuntime) {
    let Ok(elf) = read_elf(&THREADS) else {
        panic!(rt; "its headers are accepted");
    };
    let Ok(table) = calls(&THREADS, &elf) else {
        panic!(rt; "its symbols are accepted");
    };
    let want = [
        Some(0x1_00CC),
        Some(0x1_00D0),
        Some(0x1_00DC),
        None,
        None,
        None,
        Some(0x1_00D4),
        None,
        Some(0x1_00D8),
        None,
        None,
        None,
        None,
        None,
    ];
    assert_eq!(rt; *table.addresses(), want);
}

#[test]
fn changed_bytes(rt: HostRuntime) {
    // the byte that is changed, what it becomes, and the code (0: accepted)
    let cases = [
        (46, 39, 16), // the size of section headers
        (32, 0xA5, 16), // where they stand
        (48, 4, 16), // how many there are
        (48, 0, 0),
        (48, 2, 16), // the strings are none of them
        (464, 3, 0), // no symbol table but one of strings
        (464, 1, 0), // no symbol table
        (480, 0x50, 0), // the symbols' size
        (480, 0x61, 16),
        (481, 4, 16),
        (484, 3, 16), // their link
        (484, 1, 16),
        (504, 2, 16), // the type of the strings
        (520, 0xFF, 16), // their size
        (520, 1, 16),
        (256, 0x54, 16), // a name outside the strings
        (256, 0x53, 0), // another name
        (268, 1, 0), // no function, which need not be named
        (268, 0x22, 0), // a weak function
        (270, 0, 0), // a function of no section
        (276, 0xCC, 17), // pthread_join where pthread_create is
        (272, 1, 17), // pthread_create at two values
        (336, 1, 0),
    ];
    for (at, value, code) in cases {
        let mut file = THREADS;
        assert!(rt; at < file.len());
        file[at] = value;
        assert_eq!(rt; code_of(&rt, &file), code, "with byte {at} {value}");
    }
}

#[test]
fn cut_files(rt: HostRuntime) {
    for (len, code) in [(540, 0), (539, 16), (421, 16), (240, 16)] {
        assert!(rt; len <= THREADS.len());
        assert_eq!(rt; code_of(&rt, &THREADS[..len]), code, "of {len} bytes");
    }
}

// Bytes of the file that are changed, an address, and the function or the object that it lies in with the place in it.
struct Row {
    changes: &'static [(usize, u8)],
    address: u32,
    want: Option<(&'static str, u32)>,
}

const FUNCTIONS: &[Row] = &[
    // five functions in a row, none with a size
    Row {
        changes: &[],
        address: 0x1_00CB,
        want: None,
    },
    Row {
        changes: &[],
        address: 0x1_00CC,
        want: Some(("pthread_create", 0)),
    },
    Row {
        changes: &[],
        address: 0x1_00CD,
        want: None,
    },
    Row {
        changes: &[],
        address: 0x1_00DC,
        want: Some(("pthread_exit", 0)),
    },
    // the first has three bytes
    Row {
        changes: &[(264, 3)],
        address: 0x1_00CE,
        want: Some(("pthread_create", 2)),
    },
    Row {
        changes: &[(264, 3)],
        address: 0x1_00CF,
        want: None,
    },
    // the first has the bytes of all, but for the last
    Row {
        changes: &[(264, 16)],
        address: 0x1_00DB,
        want: Some(("pthread_create", 15)),
    },
    Row {
        changes: &[(264, 16)],
        address: 0x1_00DC,
        want: Some(("pthread_exit", 0)),
    },
    // the last has a byte, and 256
    Row {
        changes: &[(328, 1)],
        address: 0x1_00DD,
        want: None,
    },
    Row {
        changes: &[(329, 1)],
        address: 0x1_01DB,
        want: Some(("pthread_exit", 255)),
    },
    Row {
        changes: &[(329, 1)],
        address: 0x1_01DC,
        want: None,
    },
    // the first is no function, or of no section
    Row {
        changes: &[(268, 1)],
        address: 0x1_00CC,
        want: None,
    },
    Row {
        changes: &[(270, 0)],
        address: 0x1_00CC,
        want: None,
    },
    // the first has eight bytes up to the end of the addresses and past it
    Row {
        changes: &[(260, 0xFC), (261, 0xFF), (262, 0xFF), (263, 0xFF), (264, 8)],
        address: 0xFFFF_FFFF,
        want: Some(("pthread_create", 3)),
    },
    Row {
        changes: &[(260, 0xFC), (261, 0xFF), (262, 0xFF), (263, 0xFF), (264, 8)],
        address: 0,
        want: None,
    },
    // its name is another one, or ends with the strings, or stands behind them
    Row {
        changes: &[(256, 9)],
        address: 0x1_00CC,
        want: Some(("create", 0)),
    },
    Row {
        changes: &[(520, 5)],
        address: 0x1_00CC,
        want: Some(("pthr", 0)),
    },
    Row {
        changes: &[(257, 1)],
        address: 0x1_00CC,
        want: Some(("", 0)),
    },
    // no symbol table, and section headers of another size
    Row {
        changes: &[(464, 1)],
        address: 0x1_00CC,
        want: None,
    },
    Row {
        changes: &[(46, 39)],
        address: 0x1_00CC,
        want: None,
    },
];

const OBJECTS: &[Row] = &[
    // five functions, and no object
    Row {
        changes: &[],
        address: 0x1_00CC,
        want: None,
    },
    // the first is an object of four bytes, and a function follows
    Row {
        changes: &[(268, 0x11), (264, 4)],
        address: 0x1_00CB,
        want: None,
    },
    Row {
        changes: &[(268, 0x11), (264, 4)],
        address: 0x1_00CC,
        want: Some(("pthread_create", 0)),
    },
    Row {
        changes: &[(268, 0x11), (264, 4)],
        address: 0x1_00CF,
        want: Some(("pthread_create", 3)),
    },
    Row {
        changes: &[(268, 0x11), (264, 4)],
        address: 0x1_00D0,
        want: None,
    },
    // it has no size
    Row {
        changes: &[(268, 0x11)],
        address: 0x1_00CC,
        want: None,
    },
    // it has no type, or that of a variable of each thread, or is of no section
    Row {
        changes: &[(268, 0x10), (264, 4)],
        address: 0x1_00CC,
        want: None,
    },
    Row {
        changes: &[(268, 0x16), (264, 4)],
        address: 0x1_00CC,
        want: None,
    },
    Row {
        changes: &[(268, 0x11), (264, 4), (270, 0)],
        address: 0x1_00CC,
        want: None,
    },
    // the second is an object, and a function in front of it has its bytes too
    Row {
        changes: &[(264, 0x10), (280, 4), (284, 0x11)],
        address: 0x1_00D2,
        want: Some(("pthread_join", 2)),
    },
    // the first two are objects, side by side, and one over the other
    Row {
        changes: &[(268, 0x11), (264, 4), (280, 4), (284, 0x11)],
        address: 0x1_00CF,
        want: Some(("pthread_create", 3)),
    },
    Row {
        changes: &[(268, 0x11), (264, 4), (280, 4), (284, 0x11)],
        address: 0x1_00D0,
        want: Some(("pthread_join", 0)),
    },
    Row {
        changes: &[(264, 8), (268, 0x11), (280, 4), (284, 0x11)],
        address: 0x1_00D1,
        want: Some(("pthread_create", 5)),
    },
    // the first has eight bytes up to the end of the addresses and past it
    Row {
        changes: &[
            (260, 0xFC),
            (261, 0xFF),
            (262, 0xFF),
            (263, 0xFF),
            (264, 8),
            (268, 0x11),
        ],
        address: 0xFFFF_FFFF,
        want: Some(("pthread_create", 3)),
    },
    Row {
        changes: &[
            (260, 0xFC),
            (261, 0xFF),
            (262, 0xFF),
            (263, 0xFF),
            (264, 8),
            (268, 0x11),
        ],
        address: 0,
        want: None,
    },
    // its name ends with the strings, or stands behind them
    Row {
        changes: &[(268, 0x11), (264, 4), (520, 5)],
        address: 0x1_00CC,
        want: Some(("pthr", 0)),
    },
    Row {
        changes: &[(268, 0x11), (264, 4), (257, 1)],
        address: 0x1_00CC,
        want: Some(("", 0)),
    },
    // no symbol table, and section headers of another size
    Row {
        changes: &[(268, 0x11), (264, 4), (464, 1)],
        address: 0x1_00CC,
        want: None,
    },
    Row {
        changes: &[(268, 0x11), (264, 4), (46, 0x27)],
        address: 0x1_00CC,
        want: None,
    },
];

// The file with the changes of a row.
fn changed(rt: &impl Abort, row: &Row) -> [u8; 540] {
    let mut file = THREADS;
    for (at, value) in row.changes {
        assert!(rt; *at < file.len());
        file[*at] = *value;
    }
    file
}

// What was found for a row against what is wanted.
fn check_found(rt: &impl Abort, found: Option<Within<'_>>, row: &Row) {
    let want = row.want.map(|(name, offset)| (name.as_bytes(), offset));
    assert_eq!(rt;
        found.map(|within| (within.name, within.offset)),
        want,
        "at {:x}",
        row.address
    );
}

#[test]
fn functions_at_addresses(rt: HostRuntime) {
    for row in FUNCTIONS {
        let file = changed(&rt, row);
        let Ok(elf) = read_elf(&file) else {
            panic!(rt; "its headers are accepted");
        };
        check_found(&rt, function_at(&file, elf.sections(), row.address), row);
    }
}

#[test]
fn objects_at_addresses(rt: HostRuntime) {
    for row in OBJECTS {
        let file = changed(&rt, row);
        let Ok(elf) = read_elf(&file) else {
            panic!(rt; "its headers are accepted");
        };
        check_found(&rt, object_at(&file, elf.sections(), row.address), row);
    }
}
