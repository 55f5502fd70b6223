//! The draws.
ghost use Rattle.std.specs.Prelude.{◌≡◌, ◌+◌, ◌^◌, ◌%◌, ◌<◌, ◌≤◌, All, IfOk, length, slice_index, unwrap_or};
ghost use Rattle.ro_image.specs.Image.{AreSegments, addresses_in, segments_in};
ghost use Rattle.ro_inject.specs.Draws.{after, word, target_from, target_words, kind_from, fault_from, faults_drawn};

use rand_core::utils::NextWord;
use rand_pcg::Lcg64Xsh32;
use ro_faults::{Fault, Target};
use ro_image::Executable;
use ro_region::Range;
use std::alloc::{AllocError, Global};

/// The stream of the generator.
const STREAM: u64 = 54;

/// Over how many replicas, threads and instructions faults are drawn.
const REPLICAS: u32 = 3;

const THREADS: u32 = 4;

const STEPS: u32 = 10_000;

/// How many kinds of target there are.
const KINDS: u32 = 3;

/// How many registers may be struck, x1 and those behind it.
const REGISTERS: u32 = 31;

/// How many bits a register or the pc has, and a byte.
const WORD_BITS: u32 = 32;

const BYTE_BITS: u32 = 8;

/// Where faults may strike.
#[derive(Clone, Copy)]
pub struct Bounds<'a> {
    /// The ranges of memory, whose bytes are numbered one range after the other.
    pub ranges: &'a [Range],
    /// The only replica that is struck, if not all are.
    pub only: Option<u32>,
}

impl<'a> Bounds<'a> {
    /// All segments of an executable, in its order.
    pub fn of(image: &'a Executable, only: Option<u32>) -> Bounds<'a>
        ensures ranges { result.ranges.now ≡ segments_in image.now.ranges }
        ensures bounded { AreSegments result.ranges.now }
        ensures only { result.only ≡ only }
    {
        Bounds {
            ranges: image.segments(),
            only,
        }
    }
}

/// Draws faults: `count` of them by the words of the generator PCG-XSH-RR 64/32 of that seed, of the stream 54. The same
/// numbers give the same faults.
///
/// # Errors
/// Memory can run out.
pub fn draw(alloc: Global, seed: u64, count: u32, bounds: &Bounds) -> Result<Vec<Fault>, AllocError>
    requires { AreSegments bounds.now.ranges.now }
    ensures { IfOk result (λ faults. faults.items ≡ faults_drawn bounds.now.ranges.now bounds.now.only seed count) }
{
    let size = byte_count(bounds.ranges);
    let mut generator = Lcg64Xsh32::new(seed, STREAM);
    let mut faults = Vec::with_capacity(alloc, count as usize)?;
    for _ in 0..count {
        faults.push(next_fault(&mut generator, bounds, size))?;
    }
    Ok(faults)
}

// The next fault, of ranges of so many bytes.
fn next_fault(generator: &mut Lcg64Xsh32, bounds: &Bounds, size: u32) -> Fault
    requires bounded { AreSegments bounds.now.ranges.now }
    requires size { size ≡ length (addresses_in bounds.now.ranges.now) }
    ensures fault { result ≡ fault_from bounds.now.ranges.now bounds.now.only generator.old }
    ensures words { generator.new ≡ after (4 + target_words (kind_from generator.old)) generator.old }
{
    let replica = next_replica(generator, bounds.only);
    let thread = below(generator, THREADS);
    let at = u64::from(below(generator, STEPS));
    let kind = below(generator, KINDS);
    let target = next_target(generator, bounds.ranges, size, kind);
    Fault {
        replica,
        thread,
        at,
        target,
    }
}

// The only replica, if there is one; the word is drawn all the same.
fn next_replica(generator: &mut Lcg64Xsh32, only: Option<u32>) -> u32
    ensures replica { result ≡ unwrap_or only (word 0 generator.old % 3) }
    ensures after { generator.new ≡ after 1 generator.old }
{
    let drawn = below(generator, REPLICAS);
    only.unwrap_or(drawn)
}

// The target of a kind.
fn next_target(generator: &mut Lcg64Xsh32, ranges: &[Range], size: u32, kind: u32) -> Target
    requires bounded { AreSegments ranges.now }
    requires size { size ≡ length (addresses_in ranges.now) }
    requires kind { kind < 3 }
    ensures target { result ≡ target_from ranges.now kind generator.old }
    ensures words { generator.new ≡ after (target_words kind) generator.old }
{
    match kind {
        0 => Target::Register {
            number: (1 + below(generator, REGISTERS)) as u8,
            bit: below(generator, WORD_BITS) as u8,
        },
        1 => Target::Pc {
            bit: below(generator, WORD_BITS) as u8,
        },
        _ => Target::Byte {
            address: address_at(ranges, below(generator, size)),
            bit: below(generator, BYTE_BITS) as u8,
        },
    }
}

// The next word of the generator, modulo a number.
fn below(generator: &mut Lcg64Xsh32, modulus: u32) -> u32
    requires { 0 < modulus }
    ensures word { result ≡ word 0 generator.old % modulus }
    ensures after { generator.new ≡ after 1 generator.old }
{
    generator.next_word() % modulus
}

// How many bytes ranges have.
fn byte_count(ranges: &[Range]) -> u32
    requires { length (addresses_in ranges.now) < 2 ^ 32 }
    ensures { result ≡ length (addresses_in ranges.now) }
{
    let mut count = 0;
    for range in ranges {
        count += range.length;
    }
    count
}

// The address of the byte of this number.
fn address_at(ranges: &[Range], number: u32) -> u32
    requires ends { All (λ range. range.start + range.length ≤ 0x40000000) ranges.now }
    requires within { number < length (addresses_in ranges.now) }
    ensures { result ≡ slice_index (addresses_in ranges.now) number }
{
    let mut place = number;
    for range in ranges {
        if place < range.length {
            return range.start + place;
        }
        place -= range.length;
    }
    unreachable!()
}
