//! Guests, by the words of their code. `tests/rows` has each with its words' instructions.
use ro_make::image_bytes;
use std::alloc::Global;
use std::process::Abort;
use std::test::Fail;

/// What a segment may be used for, as the header of an executable says it.
pub(crate) const READ_EXECUTE: u32 = 5;

/// An executable of one segment, which is read and executed.
pub(crate) struct Guest {
    pub(crate) name: &'static str,
    pub(crate) words: &'static [u32],
    /// The functions that its symbols name, and where they are.
    pub(crate) functions: &'static [(&'static str, u32)],
}

impl Guest {
    /// Its file.
    pub(crate) fn file(&self, rt: &impl Abort, alloc: Global) -> Result<Vec<u8>, Fail> {
        assert!(rt; self.words.len() <= 65_536);
        assert!(rt; self.functions.len() <= 65_536);
        assert!(rt; self.functions.iter().all(|function| function.0.len() <= 64));
        Ok(image_bytes(alloc, self.words, READ_EXECUTE, self.functions)?)
    }
}

/// It writes `hello` and exits with 0.
pub(crate) const HELLO: [u32; 11] = [
    0x0010_0513,
    0x0001_05B7,
    0x0785_8593,
    0x0050_0613,
    0x0400_0893,
    0x0000_0073,
    0x0000_0513,
    0x05D0_0893,
    0x0000_0073,
    0x6C6C_6568,
    0x0000_006F,
];

pub(crate) const GUESTS: &[Guest] = &[
    Guest {
        name: "exit_7",
        words: &[0x0070_0513, 0x05D0_0893, 0x0000_0073],
        functions: &[],
    },
    Guest {
        name: "hello",
        words: &HELLO,
        functions: &[],
    },
    Guest {
        name: "hello_in_two",
        words: &[
            0x0010_0513,
            0x0001_05B7,
            0x0885_8593,
            0x0040_0613,
            0x0400_0893,
            0x0000_0073,
            0x0010_0513,
            0x0045_8593,
            0x0010_0613,
            0x0000_0073,
            0x0000_0513,
            0x05D0_0893,
            0x0000_0073,
            0x6C6C_6568,
            0x0000_006F,
        ],
        functions: &[],
    },
    // It reads four bytes into the heap and exits with how many came.
    Guest {
        name: "reads_4",
        words: &[
            0x0000_0513,
            0x0001_15B7,
            0x0040_0613,
            0x03F0_0893,
            0x0000_0073,
            0x05D0_0893,
            0x0000_0073,
        ],
        functions: &[],
    },
    // Thread 0 creates a thread, joins it and exits; thread 1 exits.
    Guest {
        name: "joins",
        words: &[
            0x0001_1537,
            0x0000_0593,
            0x0001_0637,
            0x0906_0613,
            0x0000_0693,
            0x01C0_00EF,
            0x0010_0513,
            0x0000_0593,
            0x0140_00EF,
            0x0000_0513,
            0x05D0_0893,
            0x0000_0073,
            0x0000_8067,
            0x0000_8067,
            0x0000_8067,
            0x0000_0513,
            0xFF9F_F0EF,
        ],
        functions: &[
            ("pthread_create", 0x1_0084),
            ("pthread_join", 0x1_0088),
            ("pthread_exit", 0x1_008C),
        ],
    },
];
