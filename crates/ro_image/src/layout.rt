//! The permitted ranges of a program: its segments, its heap and its stacks.
ghost use Rattle.std.specs.Prelude.{◌≡◌, ◌≤◌, ◌++◌, IfOk, OnOk, All, length, map};
ghost use Rattle.ro_image.specs.Image.{stack_ranges, ranges_with};
ghost use Rattle.ro_image.specs.Executable.{EndsLow, range_of, data_range, top_of, heap_over};

use ro_elf::Segment;
use ro_limits::{FIRST_STACK, HEAP_SIZE, MOST_THREADS, PAGE_SIZE, STACK_SIZE, STACK_STEP};
use ro_region::Range;
use std::alloc::{AllocError, Global};

/// How many ranges stand behind those of the segments: the heap and the stacks.
pub(crate) const DATA_RANGES: usize = 1 + MOST_THREADS as usize;

// Where the heap starts: behind the highest segment, at the start of a page.
pub(crate) fn heap_start(segments: &[Segment]) -> u32
    requires { All EndsLow segments.now }
    ensures start { result ≡ heap_over segments.now }
    ensures low { result ≤ 0x40000000 }
{
    (highest_end(segments) + (PAGE_SIZE - 1)) / PAGE_SIZE * PAGE_SIZE
}

// The first address behind all segments.
fn highest_end(segments: &[Segment]) -> u32
    requires { All EndsLow segments.now }
    ensures end { result ≡ top_of segments.now }
    ensures low { result ≤ 0x40000000 }
{
    let mut top = 0;
    for segment in segments {
        top = top.max(segment.address + segment.memory_size);
    }
    top
}

// The permitted ranges of a program: its segments, its heap and its stacks.
pub(crate) fn program_ranges(
    alloc: Global,
    segments: &[Segment],
    heap: u32,
) -> Result<Vec<Range>, AllocError>
    requires { length segments.now ≤ 32 }
    ensures { IfOk result (λ ranges. ranges.items ≡ ranges_with (map range_of segments.now) heap) }
{
    let mut ranges = segment_ranges(alloc, segments)?;
    ranges.push(private_range(heap, HEAP_SIZE))?;
    push_stacks(&mut ranges)?;
    Ok(ranges)
}

// The ranges of segments, with room for the heap and the stacks.
fn segment_ranges(alloc: Global, segments: &[Segment]) -> Result<Vec<Range>, AllocError>
    requires { length segments.now ≤ 32 }
    ensures { IfOk result (λ ranges. ranges.items ≡ map range_of segments.now) }
{
    let mut ranges = Vec::with_capacity(alloc, segments.len() + DATA_RANGES)?;
    for segment in segments {
        ranges.push(segment_range(segment))?;
    }
    Ok(ranges)
}

// The addresses of a segment and what its flags permit.
fn segment_range(segment: &Segment) -> Range
    ensures { result ≡ range_of segment.now }
{
    Range {
        start: segment.address,
        length: segment.memory_size,
        read: segment.is_readable(),
        write: segment.is_writable(),
        execute: segment.is_executable(),
    }
}

// A range whose bytes may be read and written.
fn private_range(start: u32, length: u32) -> Range
    ensures { result ≡ data_range start length }
{
    Range {
        start,
        length,
        read: true,
        write: true,
        execute: false,
    }
}

// The stacks of sixteen threads, behind other ranges.
fn push_stacks(ranges: &mut Vec<Range>) -> Result<(), AllocError>
    ensures { OnOk result (ranges.new.items ≡ ranges.old.items ++ stack_ranges 16) }
{
    for thread in 0..MOST_THREADS {
        ranges.push(private_range(FIRST_STACK + thread * STACK_STEP, STACK_SIZE))?;
    }
    Ok(())
}
