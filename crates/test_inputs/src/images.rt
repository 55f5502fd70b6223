//! Made files, whole, changed and cut, against the codes that they are to be refused with.
use ro_image::{ImageError, read_executable};
use ro_region::Range;
use std::alloc::Global;
use std::process::Abort;

// A program of three words that ends with the status 7.
const SHORT: [u8; 96] = [
    0x7F, 0x45, 0x4C, 0x46, 1, 1, 1, 0, 0, 0, 0, 0, 0, 0, 0, 0, 2, 0, 0xF3, 0, 1, 0, 0, 0, 0x54, 0,
    1, 0, 0x34, 0, 0, 0, 0, 0, 0, 0, 0, 0, 0, 0, 0x34, 0, 0x20, 0, 1, 0, 0, 0, 0, 0, 0, 0, 1, 0, 0,
    0, 0, 0, 0, 0, 0, 0, 1, 0, 0, 0, 1, 0, 0x60, 0, 0, 0, 0x60, 0, 0, 0, 5, 0, 0, 0, 0, 0x10, 0, 0,
    0x13, 5, 0x70, 0, 0x93, 8, 0xD0, 5, 0x73, 0, 0, 0,
];

// Two threads that write a letter each under one mutex.
const THREADS: [u8; 540] = [
    0x7F, 0x45, 0x4C, 0x46, 1, 1, 1, 0, 0, 0, 0, 0, 0, 0, 0, 0, 2, 0, 0xF3, 0, 1, 0, 0, 0, 0x54, 0,
    1, 0, 0x34, 0, 0, 0, 0xA4, 1, 0, 0, 0, 0, 0, 0, 0x34, 0, 0x20, 0, 1, 0, 0x28, 0, 3, 0, 0, 0, 1,
    0, 0, 0, 0, 0, 0, 0, 0, 0, 1, 0, 0, 0, 1, 0, 0xF0, 0, 0, 0, 0xF0, 0, 0, 0, 7, 0, 0, 0, 0, 0x10,
    0, 0, 0x37, 4, 1, 0, 0x13, 5, 4, 0x0E, 0x93, 5, 0, 0, 0x13, 6, 0x84, 9, 0x93, 6, 0xC4, 0x0E,
    0xEF, 0, 0x40, 6, 0x13, 5, 0x44, 0x0E, 0x93, 6, 0xD4, 0x0E, 0xEF, 0, 0x80, 5, 0x13, 5, 0x10, 0,
    0x93, 5, 0, 0, 0xEF, 0, 0, 5, 0x13, 5, 0x20, 0, 0xEF, 0, 0x80, 4, 0x13, 5, 0, 0, 0x93, 8, 0xD0,
    5, 0x73, 0, 0, 0, 0x93, 4, 5, 0, 0x37, 4, 1, 0, 0x13, 5, 0x84, 0x0E, 0xEF, 0, 0, 3, 0x13, 5,
    0x10, 0, 0x93, 0x85, 4, 0, 0x13, 6, 0x10, 0, 0x93, 8, 0, 4, 0x73, 0, 0, 0, 0x13, 5, 0x84, 0x0E,
    0xEF, 0, 0x80, 1, 0x13, 5, 0, 0, 0xEF, 0, 0x40, 1, 0x67, 0x80, 0, 0, 0x67, 0x80, 0, 0, 0x67,
    0x80, 0, 0, 0x67, 0x80, 0, 0, 0x67, 0x80, 0, 0, 0, 0, 0, 0, 0, 0, 0, 0, 0, 0, 0, 0, 0x41, 0x42,
    0, 0, 0, 0, 0, 0, 0, 0, 0, 0, 0, 0, 0, 0, 0, 0, 0, 0, 1, 0, 0, 0, 0xCC, 0, 1, 0, 0, 0, 0, 0,
    0x12, 0, 1, 0, 0x10, 0, 0, 0, 0xD0, 0, 1, 0, 0, 0, 0, 0, 0x12, 0, 1, 0, 0x1D, 0, 0, 0, 0xD4, 0,
    1, 0, 0, 0, 0, 0, 0x12, 0, 1, 0, 0x30, 0, 0, 0, 0xD8, 0, 1, 0, 0, 0, 0, 0, 0x12, 0, 1, 0, 0x45,
    0, 0, 0, 0xDC, 0, 1, 0, 0, 0, 0, 0, 0x12, 0, 1, 0, 0, 0x70, 0x74, 0x68, 0x72, 0x65, 0x61, 0x64,
    0x5F, 0x63, 0x72, 0x65, 0x61, 0x74, 0x65, 0, 0x70, 0x74, 0x68, 0x72, 0x65, 0x61, 0x64, 0x5F,
    0x6A, 0x6F, 0x69, 0x6E, 0, 0x70, 0x74, 0x68, 0x72, 0x65, 0x61, 0x64, 0x5F, 0x6D, 0x75, 0x74,
    0x65, 0x78, 0x5F, 0x6C, 0x6F, 0x63, 0x6B, 0, 0x70, 0x74, 0x68, 0x72, 0x65, 0x61, 0x64, 0x5F,
    0x6D, 0x75, 0x74, 0x65, 0x78, 0x5F, 0x75, 0x6E, 0x6C, 0x6F, 0x63, 0x6B, 0, 0x70, 0x74, 0x68,
    0x72, 0x65, 0x61, 0x64, 0x5F, 0x65, 0x78, 0x69, 0x74, 0, 0, 0, 0, 0, 0, 0, 0, 0, 0, 0, 0, 0, 0,
    0, 0, 0, 0, 0, 0, 0, 0, 0, 0, 0, 0, 0, 0, 0, 0, 0, 0, 0, 0, 0, 0, 0, 0, 0, 0, 0, 0, 0, 0, 0, 0,
    0, 2, 0, 0, 0, 0, 0, 0, 0, 0, 0, 0, 0, 0xF0, 0, 0, 0, 0x60, 0, 0, 0, 2, 0, 0, 0, 1, 0, 0, 0, 4,
    0, 0, 0, 0x10, 0, 0, 0, 0, 0, 0, 0, 3, 0, 0, 0, 0, 0, 0, 0, 0, 0, 0, 0, 0x50, 1, 0, 0, 0x54, 0,
    0, 0, 0, 0, 0, 0, 0, 0, 0, 0, 1, 0, 0, 0, 0, 0, 0, 0,
];

// The code by which a file is refused, or 0.
fn code_of(rt: &impl Abort, alloc: Global, file: &[u8]) -> u8 {
    match read_executable(alloc, file) {
        Ok(_) => 0,
        Err(ImageError::Bad(error)) => error.number(),
        Err(ImageError::NoMemory) => panic!(rt; "there is memory"),
    }
}

#[test]
fn cut_files(rt: HostRuntime) {
    for (len, code) in [
        (0, 1),
        (51, 1),
        (52, 10),
        (83, 10),
        (84, 12),
        (95, 12),
        (96, 0),
    ] {
        assert!(rt; len <= SHORT.len());
        assert_eq!(rt;
            code_of(&rt, rt.alloc(), &SHORT[..len]),
            code,
            "of {len} bytes"
        );
    }
    for len in 0..541 {
        let code = match len {
            0..=51 => 1,
            52..=83 => 10,
            84..=239 => 12,
            240..=539 => 16,
            _ => 0,
        };
        assert_eq!(rt;
            code_of(&rt, rt.alloc(), &THREADS[..len]),
            code,
            "of {len} bytes"
        );
    }
}

#[test]
fn changed_bytes(rt: HostRuntime) {
    for (at, value, code) in [
        (36, 1, 8),
        (52, 7, 11),
        (24, 0x60, 14),
        (59, 0xFF, 12),
        (75, 0xFF, 13),
    ] {
        let mut file = SHORT;
        assert!(rt; at < file.len());
        file[at] = value;
        assert_eq!(rt;
            code_of(&rt, rt.alloc(), &file),
            code,
            "with byte {at} {value}"
        );
    }
    for (at, value, code) in [(46, 39, 16), (276, 0xCC, 17)] {
        let mut file = THREADS;
        assert!(rt; at < file.len());
        file[at] = value;
        assert_eq!(rt;
            code_of(&rt, rt.alloc(), &file),
            code,
            "with byte {at} {value}"
        );
    }
}

// The program headers behind the program, and one of an attributes section with them.
#[test]
fn an_attributes_header(rt: HostRuntime) {
    let mut file = [0; 160];
    file[..96].copy_from_slice(&SHORT);
    file[28] = 96;
    file[44] = 2;
    file[96..128].copy_from_slice(&SHORT[52..84]);
    file[128] = 3;
    file[131] = 0x70;
    let Ok(image) = read_executable(rt.alloc(), &file) else {
        panic!(rt; "it is accepted");
    };
    let Ok(short) = read_executable(rt.alloc(), &SHORT) else {
        panic!(rt; "it is accepted");
    };
    assert_eq!(rt; image.ranges(), short.ranges());
    assert_eq!(rt; image.entry(), short.entry());
    assert_eq!(rt; image.heap(), short.heap());
    assert_eq!(rt; *image.calls().addresses(), *short.calls().addresses());
    assert_eq!(rt; image.pieces().len(), 1);
    assert_eq!(rt; image.pieces()[0].place, 0x1_0000);
    assert_eq!(rt; image.pieces()[0].bytes.as_slice(), &file[..96]);
}

#[test]
fn a_whole_image(rt: HostRuntime) {
    let Ok(image) = read_executable(rt.alloc(), &THREADS) else {
        panic!(rt; "it is accepted");
    };
    let segment = Range {
        start: 0x1_0000,
        length: 240,
        read: true,
        write: true,
        execute: true,
    };
    let heap = Range {
        start: 0x1_1000,
        length: 0x10_0000,
        read: true,
        write: true,
        execute: false,
    };
    let last = Range {
        start: 0x701E_0000,
        length: 0x1_0000,
        read: true,
        write: true,
        execute: false,
    };
    let calls = [
        Some(0x1_00CC),
        Some(0x1_00D0),
        Some(0x1_00DC),
        None,
        None,
        None,
        Some(0x1_00D4),
        None,
        Some(0x1_00D8),
        None,
        None,
        None,
        None,
        None,
    ];
    assert_eq!(rt; image.ranges().len(), 18);
    assert_eq!(rt; image.ranges()[0], segment);
    assert_eq!(rt; image.ranges()[1], heap);
    assert_eq!(rt; image.ranges()[17], last);
    assert_eq!(rt; *image.calls().addresses(), calls);
    assert_eq!(rt; image.entry(), 0x1_0054);
    assert_eq!(rt; image.heap(), 0x1_1000);
    assert_eq!(rt; image.pieces().len(), 1);
    assert_eq!(rt; image.pieces()[0].bytes.as_slice(), &THREADS[..240]);
}
