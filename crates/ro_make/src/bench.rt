//! The guest that measures.
ghost use Rattle.std.specs.Prelude.{◌≡◌, IfOk, None};
ghost use Rattle.ro_elf.specs.Elf.{bad_headers};
ghost use Rattle.ro_make.specs.Bench.{bench_file, bench_words, workers_of, base_of};

use crate::make::image_bytes;
use std::alloc::{AllocError, Global};

/// What the bytes of the guest's segment may be: read, written and executed.
const FLAGS: u32 = 7;

/// How many words the guest has.
const WORDS: usize = 67;

/// The functions that the guest calls, with their addresses.
const NAMES: [(&str, u32); 5] = [
    ("pthread_create", 0x1_0128),
    ("pthread_join", 0x1_012C),
    ("pthread_mutex_lock", 0x1_0130),
    ("pthread_mutex_unlock", 0x1_0134),
    ("pthread_exit", 0x1_0138),
];

/// The executable of the guest that measures, of a seed and a size. It has T = 2 + seed mod 14 workers. The worker i, from 1
/// to T, adds seed mod 65,536 + i * k to one word in each of its rounds k, from 1 to the size, under one mutex. The first
/// thread makes and joins the workers, writes the word as eight hexadecimal digits and a line feed, and exits with 0.
///
/// # Errors
/// Memory can run out.
pub fn bench_image(alloc: Global, seed: u64, size: u32) -> Result<Vec<u8>, AllocError>
    ensures made { IfOk result (λ file. file.items ≡ bench_file seed size) }

    // It is accepted.
    ensures accepted { IfOk result (λ file. bad_headers file.items ≡ None) }
{
    image_bytes(alloc, &bench_words(seed, size), FLAGS, &NAMES)
}

// The guest's words.
#[tactic(auto, unfolding(ro_decode::specs::Table::word_of))]
fn bench_words(seed: u64, size: u32) -> [u32; WORDS]
    ensures { result ≡ bench_words seed size }
{
    let workers = 2 + (seed % 14) as u32;
    let base = (seed % 65_536) as u32;
    [
        // makes the workers
        0x0001_0437,
        0x0000_0493,
        0x0014_8493,
        0x13C4_0513,
        0x0000_0593,
        0x0E84_0613,
        0x0004_8693,
        0x0B80_00EF,
        0x1544_2283,
        0xFE54_E2E3,
        // joins them
        0x0000_0493,
        0x0014_8493,
        0x0004_8513,
        0x0000_0593,
        0x0A00_00EF,
        0x1544_2283,
        0xFE54_E6E3,
        // puts the digits of the sum into the text
        0x1444_2283,
        0x1484_0313,
        0x0083_0393,
        0x01C2_D513,
        0x0305_0593,
        0x00A5_3613,
        0x0006_1463,
        0x0575_0593,
        0x00B3_0023,
        0x0042_9293,
        0x0013_0313,
        0xFE73_10E3,
        // writes the text, and exits with 0
        0x0010_0513,
        0x1484_0593,
        0x0090_0613,
        0x0400_0893,
        0x0000_0073,
        0x0000_0513,
        0x05D0_0893,
        0x0000_0073,
        // a worker
        0x0001_0437,
        0x0005_0493,
        0x1584_2903,
        0x15C4_2983,
        // a round of it, and its exit
        0x0099_0933,
        0x1404_0513,
        0x0300_00EF,
        0x1444_2283,
        0x0122_82B3,
        0x1454_2223,
        0x1404_0513,
        0x0200_00EF,
        0xFFF9_8993,
        0xFC09_9EE3,
        0x0000_0513,
        0x0140_00EF,
        // the functions that are called
        0x0000_8067,
        0x0000_8067,
        0x0000_8067,
        0x0000_8067,
        0x0000_8067,
        // a thread's number, the mutex, the sum, and the text
        0,
        0,
        0,
        0,
        0,
        10,
        // how many workers, what each starts from, and the rounds
        workers,
        base,
        size,
    ]
}
