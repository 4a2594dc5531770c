//! The fields of a manifest's text, each with its rule and the place where it is refused.

ghost use Rattle.std.specs.Prelude.{◌≡◌, ◌==◌, ◌<◌, ◌||◌, ◌-◌, ◌≤◌, ◌^◌, ◌+◌, ◌*◌, ◌%◌, ◌&&◌, nat_le, nat_lt, length, IfOk, IsTrue, OnOk, Some};
ghost use Rattle.std.specs.Int.{w32, w64};
ghost use Rattle.std.specs.List.{before_first, position};
ghost use Rattle.format_spec.specs.Versions.{is_version as is_version_of};
ghost use Rattle.hex.specs.Hex.{decode_of};
ghost use Rattle.format_spec.specs.Bytes.{same_bytes, is_after, bytes_cmp};
ghost use Rattle.format_spec.specs.Fields.{field, number, string8};
ghost use Rattle.state_spec.specs.Files.{system_name};
ghost use Rattle.state_spec.specs.ManifestText.{id_of_hex, id_in, is_next_heap, is_its_stable, is_system_size};
ghost use Rattle.byte_codec.specs.Gives.{Gives, NeedsNoMemory};
ghost use Rattle.manifest.specs.Reading.{fits_memory, only_id, meta_head, counts_rows};

use crate::names::{SYSTEM, memory_name};
use byte_codec::{Blob, FieldError, Reader, is_same};
use format_spec::{
    MAX_CANISTERS, MAX_ID, MAX_PIECES, MAX_STATE_PAGES, MAX_SYSTEM, MIN_SYSTEM, PAGE_SIZE,
    is_version, memory_limit, state_limit,
};
use std::alloc::Global;
use sys_state::CanisterId;

/// The version, which is 1 or 2.
pub(crate) fn read_version(reader: &mut Reader) -> Result<u32, FieldError>
    ensures version { Gives (λ n. (n, reader.new)) result (field (number w32) is_version_of reader.old) }
    ensures memory { NeedsNoMemory result }
{
    let at = reader.at();
    match reader.be32() {
        Ok(version) if is_version(version) => Ok(version),
        _ => Err(FieldError::Bad(at as u64)),
    }
}

/// The number of chunk rows, where the memories and the system text have so many slots.
pub(crate) fn read_row_count(
    reader: &mut Reader,
    version: u32,
    memories: usize,
    system: usize,
) -> Result<u32, FieldError>
    requires { memories + system < 2 ^ 64 }
    ensures count { Gives (λ n. (n, reader.new)) result (field (number w32) (counts_rows version memories system) reader.old) }
    ensures each_first { IfOk result (λ n. version ≡ 1 → n ≡ memories + system) }
    ensures room { IfOk result (λ n. system ≤ n) }
{
    let at = reader.at();
    match reader.be32() {
        Ok(count) if counts(version, memories, system, count as usize) => Ok(count),
        _ => Err(FieldError::Bad(at as u64)),
    }
}

fn counts(version: u32, memories: usize, system: usize, count: usize) -> bool
    requires { memories + system < 2 ^ 64 }
    ensures value { result ≡ counts_rows version memories system count }
    ensures each_first { IsTrue result → version ≡ 1 → count ≡ memories + system }
    ensures room { IsTrue result → system ≤ count }
{
    if version == 1 {
        count == memories + system
    } else {
        system <= count && count <= memories + system
    }
}

/// The version and the number of pieces, which is 1 to 128.
#[tactic(auto, unfolding(crate::specs::Reading::meta_head))]
pub(crate) fn read_meta_head(reader: &mut Reader) -> Result<(u32, u32), FieldError>
    ensures head { Gives (λ x. (x, reader.new)) result (meta_head reader.old) }
    ensures memory { NeedsNoMemory result }
    ensures few { IfOk result (λ x. x.1 ≤ MAX_PIECES) }
{
    let version = read_version(reader)?;
    let count = read_piece_count(reader)?;
    Ok((version, count))
}

fn read_piece_count(reader: &mut Reader) -> Result<u32, FieldError>
    ensures count { Gives (λ n. (n, reader.new)) result (field (number w32) (λ n. nat_lt 0 n && nat_le n MAX_PIECES) reader.old) }
    ensures memory { NeedsNoMemory result }
    ensures few { IfOk result (λ n. n ≤ MAX_PIECES) }
{
    let at = reader.at();
    match reader.be32() {
        Ok(count) if 0 < count && count as usize <= MAX_PIECES => Ok(count),
        _ => Err(FieldError::Bad(at as u64)),
    }
}

/// The number of files, which is odd and at most 2,049.
pub(crate) fn read_file_count(reader: &mut Reader) -> Result<u32, FieldError>
    ensures count { Gives (λ n. (n, reader.new)) result (field (number w32) (λ n. n % 2 == 1 && nat_le n (2 * MAX_CANISTERS + 1)) reader.old) }
    ensures odd { IfOk result (λ n. n % 2 ≡ 1) }
    ensures few { IfOk result (λ n. n ≤ 2049) }
{
    let at = reader.at();
    match reader.be32() {
        Ok(count) if count % 2 == 1 && count as usize <= 2 * MAX_CANISTERS + 1 => Ok(count),
        _ => Err(FieldError::Bad(at as u64)),
    }
}

/// The size of a memory, where those before have this size together.
pub(crate) fn read_memory_size(
    reader: &mut Reader,
    version: u32,
    total: u64,
) -> Result<u64, FieldError>
    ensures size { Gives (λ size. (size, reader.new)) result (field (number w64) (fits_memory version total) reader.old) }
    ensures fits { IfOk result (λ size. total + size ≤ MAX_STATE_PAGES * PAGE_SIZE) }
{
    let at = reader.at();
    match reader.be64() {
        Ok(size) if is_memory_size(version, total, size) => Ok(size),
        _ => Err(FieldError::Bad(at as u64)),
    }
}

fn is_memory_size(version: u32, total: u64, size: u64) -> bool
    ensures value { result ≡ fits_memory version total size }
    ensures most { IsTrue result → total + size ≤ MAX_STATE_PAGES * PAGE_SIZE }
{
    size % PAGE_SIZE as u64 == 0
        && size <= (memory_limit(version) * PAGE_SIZE) as u64
        && total.saturating_add(size) <= (state_limit(version) * PAGE_SIZE) as u64
}

/// The size of the system text.
pub(crate) fn read_system_size(reader: &mut Reader) -> Result<u64, FieldError>
    ensures { Gives (λ size. (size, reader.new)) result (field (number w64) is_system_size reader.old) }
{
    let at = reader.at();
    match reader.be64() {
        Ok(size) if MIN_SYSTEM as u64 <= size && size <= MAX_SYSTEM as u64 => Ok(size),
        _ => Err(FieldError::Bad(at as u64)),
    }
}

/// The name of the system text.
pub(crate) fn read_system_name(alloc: Global, reader: &mut Reader) -> Result<Blob, FieldError>
    ensures name { Gives (λ name. (name, reader.new)) result (field string8 (λ name. same_bytes name system_name) reader.old) }
    ensures short { IfOk result (λ name. length name < 256) }
{
    let at = reader.at();
    match reader.string8() {
        Ok(name) if is_same(name, SYSTEM) => Ok(Blob::from_slice(alloc, SYSTEM)?),
        _ => Err(FieldError::Bad(at as u64)),
    }
}

/// The name of the heap of an id above the last one, and that id.
pub(crate) fn read_heap_name(
    alloc: Global,
    reader: &mut Reader,
    last: &Option<CanisterId>,
) -> Result<(CanisterId, Blob), FieldError>
    ensures name { Gives (λ x. (x.1, reader.new)) result (field string8 (λ name. is_next_heap last.now (id_in name) name) reader.old) }
    ensures id { IfOk result (λ x. id_in x.1 ≡ Some x.0) }
    ensures short { IfOk result (λ x. length x.1 < 256) }
{
    let at = reader.at();
    let bad = FieldError::Bad(at as u64);
    let Ok(name) = reader.string8() else {
        return Err(bad);
    };
    let Some(id) = id_of(name) else {
        return Err(bad);
    };
    let heap = memory_name(alloc, &id, b"heap")?;
    if is_heap(name, heap.bytes(), last, &id) {
        Ok((id, heap))
    } else {
        Err(bad)
    }
}

// The name is the one looked for, and the id is above the last one.
fn is_heap(name: &[u8], wanted: &[u8], last: &Option<CanisterId>, id: &CanisterId) -> bool
    ensures { result ≡ same_bytes name.now wanted.now && is_after bytes_cmp last.now id.now }
{
    is_same(name, wanted) && is_next(last, id)
}

/// The name of the stable memory of this id.
pub(crate) fn read_stable_name(
    alloc: Global,
    reader: &mut Reader,
    id: &CanisterId,
) -> Result<Blob, FieldError>
    ensures name { Gives (λ name. (name, reader.new)) result (field string8 (is_its_stable (Some id.now)) reader.old) }
    ensures id { IfOk result (λ name. id_in name ≡ Some id.now) }
    ensures short { IfOk result (λ name. length name < 256) }
{
    let at = reader.at();
    let stable = memory_name(alloc, id, b"stable")?;
    match reader.string8() {
        Ok(name) if is_same(name, stable.bytes()) => Ok(stable),
        _ => Err(FieldError::Bad(at as u64)),
    }
}

fn is_next(last: &Option<CanisterId>, id: &CanisterId) -> bool
    ensures { result ≡ is_after bytes_cmp last.now id.now }
{
    match last {
        None => true,
        Some(last) => last < id,
    }
}

// The id whose digits stand between the ninth byte of a name and the next slash.
fn id_of(name: &[u8]) -> Option<CanisterId>
    ensures { result ≡ only_id (id_in name.now) }
{
    id_of_digits(before_slash(&name[name.len().min(9)..]))
}

fn before_slash(bytes: &[u8]) -> &[u8]
    ensures { result.now ≡ before_first (λ c. c == 47) bytes.now }
{
    match first_slash(bytes) {
        Some(end) => &bytes[..end],
        None => bytes,
    }
}

fn first_slash(bytes: &[u8]) -> Option<usize>
    ensures { result ≡ position (λ c. c == 47) bytes.now }
{
    bytes.iter().position(|byte| *byte == b'/')
}

fn id_of_digits(digits: &[u8]) -> Option<CanisterId>
    ensures { result ≡ only_id (id_of_hex (decode_of digits.now)) }
{
    let count = digits.len() / 2;
    if count > MAX_ID {
        return None;
    }
    let mut bytes = [0; MAX_ID];
    let room = &mut bytes[..count];
    hex::decode_to_slice(digits, room).ok()?;
    CanisterId::new(room)
}
