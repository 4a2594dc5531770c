//! The fields of a tree's CBOR, each with its rule and the place where it is refused.

ghost use Rattle.std.specs.Prelude.{◌≡◌, ◌==◌, ◌<◌, ◌≤◌, length, option_map, MatchResult};
ghost use Rattle.format_spec.specs.Bytes.{is_after, bytes_cmp};
ghost use Rattle.format_spec.specs.Fields.{field, byte, any};
ghost use Rattle.tree_spec.specs.Cbor.{is_array_head, fits_head, string_form};
ghost use Rattle.byte_codec.specs.Gives.{Gives};
ghost use Rattle.witness.specs.Gives.{TakesForm};
ghost use Rattle.witness.specs.Strings.{length_behind};

use byte_codec::{Blob, FieldError, Reader, Short};
use format_spec::HASH_SIZE;
use hash_domain::Hash32;
use std::alloc::Global;

/// The head of an array of 1, 2 or 3.
pub(crate) fn read_array_head(reader: &mut Reader) -> Result<u8, FieldError>
    ensures { Gives (λ head. (head, reader.new)) result (field byte is_array_head reader.old) }
{
    let at = reader.at();
    match reader.u8() {
        Ok(head) if 0x81 <= head && head <= 0x83 => Ok(head),
        _ => Err(FieldError::Bad(at as u64)),
    }
}

/// The number that says what kind of tree the array is.
pub(crate) fn read_kind(reader: &mut Reader, head: u8, in_fork: bool) -> Result<u8, FieldError>
    ensures { Gives (λ kind. (kind, reader.new)) result (field byte (fits_head head in_fork) reader.old) }
{
    let at = reader.at();
    match reader.u8() {
        Ok(kind) if is_kind(head, in_fork, kind) => Ok(kind),
        _ => Err(FieldError::Bad(at as u64)),
    }
}

// A leaf is no child of a fork.
fn is_kind(head: u8, in_fork: bool, kind: u8) -> bool
    ensures { result ≡ fits_head head in_fork kind }
{
    match head {
        0x81 => kind == 0,
        0x82 => kind == 3 && !in_fork || kind == 4,
        _ => kind == 1 || kind == 2,
    }
}

/// A label above the last one of its level.
pub(crate) fn read_label<'a>(
    reader: &mut Reader<'a>,
    last: Option<&[u8]>,
) -> Result<&'a [u8], FieldError>
    ensures { Gives (λ label. (label.now, reader.new)) result (field string_form (is_after bytes_cmp (option_map (λ s. s.now) last.entry)) reader.old) }
{
    let at = reader.at();
    match read_string(reader) {
        Ok(label) if is_next(last, label) => Ok(label),
        _ => Err(FieldError::Bad(at as u64)),
    }
}

fn is_next(last: Option<&[u8]>, label: &[u8]) -> bool
    ensures { result ≡ is_after bytes_cmp (option_map (λ s. s.now) last.entry) label.now }
{
    match last {
        None => true,
        Some(last) => last.cmp(&label).is_lt(),
    }
}

/// The bytes of a leaf.
pub(crate) fn read_value(alloc: Global, reader: &mut Reader) -> Result<Blob, FieldError>
    ensures { Gives (λ bytes. (bytes, reader.new)) result (field string_form any reader.old) }
{
    let at = reader.at();
    match read_string(reader) {
        Ok(bytes) => Ok(Blob::from_slice(alloc, bytes)?),
        Err(_) => Err(FieldError::Bad(at as u64)),
    }
}

/// The hash of a tree that is left out.
pub(crate) fn read_hash(reader: &mut Reader) -> Result<Hash32, FieldError>
    ensures { Gives (λ hash. (hash, reader.new)) result (field string_form (λ s. length s == HASH_SIZE) reader.old) }
{
    let at = reader.at();
    match read_string(reader) {
        Ok(bytes) if bytes.len() == HASH_SIZE => Ok(Hash32::from_slice(bytes)),
        _ => Err(FieldError::Bad(at as u64)),
    }
}

// A byte string behind its shortest head.
fn read_string<'a>(reader: &mut Reader<'a>) -> Result<&'a [u8], Short>
    ensures { TakesForm (λ string. string.now) string_form reader.old reader.new result }
{
    let head = reader.u8()?;
    let count = read_count(reader, head)?;
    reader.bytes(count)
}

// The length behind the first byte of a head, where it needs a head as long as that.
fn read_count(reader: &mut Reader, head: u8) -> Result<usize, Short>
    ensures { TakesForm (λ count. count) (length_behind head) reader.old reader.new result }
{
    match head {
        0x40..=0x57 => Ok((head - 0x40) as usize),
        0x58 => from(reader.u8()? as usize, 24),
        0x59 => from(reader.be16()? as usize, 1 << 8),
        0x5a => from(reader.be32()? as usize, 1 << 16),
        0x5b => from(reader.be64()? as usize, 1 << 32),
        _ => Err(Short),
    }
}

fn from(count: usize, least: usize) -> Result<usize, Short>
    ensures { MatchResult result (λ n. (n ≡ count) × (least ≤ count)) (λ _. count < least) }
{
    if count < least { Err(Short) } else { Ok(count) }
}
