//! Ranges of page numbers, and their text.
ghost use Rattle.std.specs.Prelude.{ℕ, ◌≡◌, ◌≤◌, ◌<◌, ◌^◌, slice_index_or, ◌+◌, ◌*◌, ◌++◌, length, take, drop, IfOk, OnOk, Some, None, if◌then◌else◌};
ghost use Rattle.std.specs.List.{range_with_len};
ghost use Rattle.std.specs.Int.{w32, to_be_bytes, from_be_bytes};
ghost use Rattle.format_spec.specs.declared.limits.TheConstants.{INDEX_RANGE, MAX_MEMORY_PAGES};
ghost use Rattle.page_file.specs.Ranges.{numbers_in, stands, are_ranges, range_text, range_from, ranges_from, text_of};

use byte_codec::{NoMemory, Writer};
use format_spec::INDEX_RANGE;
use std::alloc::{AllocError, Global};

/// Pages that follow each other: the first, how many, and how many pages stand before them in the file.
#[derive(Clone, Copy, Debug, PartialEq, Eq)]
pub struct Range {
    pub first: u32,
    pub length: u32,
    pub place: u32,
}

/// The number in the four bytes from an offset on, the high one first.
pub fn number_at(bytes: &[u8], at: usize) -> u32
    requires { at + 4 ≤ length bytes.now }
    ensures value { result ≡ from_be_bytes w32 (take 4 (drop at bytes.now)) }
    ensures text { to_be_bytes w32 result ≡ take 4 (drop at bytes.now) }
{
    let mut number = [0; 4];
    number.copy_from_slice(&bytes[at..at + 4]);
    u32::from_be_bytes(number)
}

fn write_range(out: &mut Writer, range: Range) -> Result<(), NoMemory>
    ensures { OnOk result (out.new ≡ out.old ++ range_text range) }
{
    out.be32(range.first)?;
    out.be32(range.length)?;
    out.be32(range.place)?;
    Ok(())
}

/// Writes the text of ranges.
pub fn write_ranges(out: &mut Writer, ranges: &[Range]) -> Result<(), NoMemory>
    ensures { OnOk result (out.new ≡ out.old ++ text_of ranges.now) }
{
    for range in ranges {
        write_range(out, *range)?;
    }
    Ok(())
}

// The range in the bytes from an offset on.
fn range_at(bytes: &[u8], at: usize) -> Range
    requires { at + INDEX_RANGE ≤ length bytes.now }
    ensures value { result ≡ range_from (drop at bytes.now) }
    ensures text { range_text result ≡ take INDEX_RANGE (drop at bytes.now) }
{
    Range {
        first: number_at(bytes, at),
        length: number_at(bytes, at + 4),
        place: number_at(bytes, at + 8),
    }
}

/// The ranges that a text of so many has.
pub fn read_ranges(alloc: Global, bytes: &[u8], count: usize) -> Result<Vec<Range>, AllocError>
    requires { length bytes.now ≡ INDEX_RANGE * count }
    ensures value { IfOk result (λ ranges. ranges.items ≡ ranges_from count bytes.now) }
    ensures text { IfOk result (λ ranges. text_of ranges.items ≡ bytes.now) }
{
    let mut ranges = Vec::with_capacity(alloc, count)?;
    for i in 0..count {
        ranges.push(range_at(bytes, INDEX_RANGE * i))?;
    }
    Ok(ranges)
}

/// Adds the pages of a range.
pub fn push_pages(pages: &mut Vec<u32>, range: Range) -> Result<(), AllocError>
    requires { range.first + range.length < 2 ^ 32 }
    ensures { OnOk result (pages.new.items ≡ pages.old.items ++ range_with_len range.first range.length) }
{
    for page in range.first..range.first + range.length {
        pages.push(page)?;
    }
    Ok(())
}

// Whether a range may stand where this page is the least that it may begin at, and so many pages stand before it.
fn may_stand(range: Range, memory: u32, least: u32, place: u32) -> bool
    ensures { result ≡ stands memory least place range }
{
    least <= range.first
        && 1 <= range.length
        && range.first as u64 + range.length as u64 <= memory as u64
        && range.place == place
}

/// How many pages these ranges have, where they ascend within the memory, neither overlap nor touch, and have their
/// places. `None` where they don't.
pub fn pages_in(ranges: &[Range], memory: u32) -> Option<u32>
    requires { memory ≤ MAX_MEMORY_PAGES }
    ensures { result ≡ (if are_ranges memory 0 0 ranges.now then Some (length (numbers_in ranges.now)) else None) }
{
    let mut least = 0;
    let mut place = 0;
    for range in ranges {
        if !may_stand(*range, memory, least, place) {
            return None;
        }
        least = range.first + range.length + 1;
        place += range.length;
    }
    Some(place)
}

/// How many of these ranges, which ascend, begin at this page or before it.
pub fn begun_by(ranges: &[Range], page: u32) -> usize
    requires { (i j : ℕ) (d : Range) → i ≤ j → j < length ranges.now → (slice_index_or ranges.now i d).first ≤ (slice_index_or ranges.now j d).first }
    ensures count { result ≤ length ranges.now }
    ensures begun { (k : ℕ) (d : Range) → k < result → (slice_index_or ranges.now k d).first ≤ page }
    ensures later { (k : ℕ) (d : Range) → result ≤ k → k < length ranges.now → page < (slice_index_or ranges.now k d).first }
{
    ranges.partition_point(|range| range.first <= page)
}
