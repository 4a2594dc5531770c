//! The fields of a row of a memory's chunk in version 2, each with its rule.

ghost use Rattle.std.specs.Prelude.{◌≡◌, ◌<◌, ◌-◌, length, IfOk, IsTrue, Some, None};
ghost use Rattle.std.specs.Int.{w32, w64};
ghost use Rattle.std.specs.List.{last_or};
ghost use Rattle.format_spec.specs.Bytes.{part_count};
ghost use Rattle.format_spec.specs.Fields.{field, number};
ghost use Rattle.state_spec.specs.Manifest.{chunk_size_at};
ghost use Rattle.state_spec.specs.ManifestText.{row_after, is_row_file, is_row_size, is_row_offset};
ghost use Rattle.state_spec.specs.ManifestText.{is_not_below as has_file, is_chunk_at as has_chunk, is_further as has_offset};
ghost use Rattle.byte_codec.specs.Gives.{Gives};

use crate::rows::{ChunkRow, FileRow};
use byte_codec::{FieldError, Reader};
use format_spec::CHUNK_SIZE;
use hash_domain::read_hash;

/// The row of a chunk of one of these memories, behind these rows.
#[tactic(auto, unfolding(state_spec::specs::ManifestText::row_after))]
pub(crate) fn read_row(
    reader: &mut Reader,
    memories: &[FileRow],
    before: &[ChunkRow],
) -> Result<ChunkRow, FieldError>
    ensures row { Gives (λ row. (row, reader.new)) result (row_after memories.now before.now reader.old) }
    ensures inside { IfOk result (λ row. row.file < length memories.now) }
    ensures order { IfOk result (λ row. IsTrue (has_file (last_or None before.now) row.file)) }
{
    let file = read_file(reader, memories, before)?;
    let memory = &memories[file as usize];
    let size = read_size(reader, memory)?;
    let offset = read_offset(reader, memory, before, file, size)?;
    let hash = read_hash(reader)?;
    Ok(ChunkRow {
        file,
        size,
        offset,
        hash,
    })
}

// The number of a memory that isn't below that of the row before.
fn read_file(
    reader: &mut Reader,
    memories: &[FileRow],
    before: &[ChunkRow],
) -> Result<u32, FieldError>
    ensures file { Gives (λ n. (n, reader.new)) result (field (number w32) (is_row_file memories.now (last_or None before.now)) reader.old) }
    ensures inside { IfOk result (λ n. n < length memories.now) }
    ensures order { IfOk result (λ n. IsTrue (has_file (last_or None before.now) n)) }
{
    let at = reader.at();
    match reader.be32() {
        Ok(file) if (file as usize) < memories.len() && is_not_below(before, file) => Ok(file),
        _ => Err(FieldError::Bad(at as u64)),
    }
}

fn is_not_below(before: &[ChunkRow], file: u32) -> bool
    ensures { result ≡ has_file (last_or None before.now) file }
{
    match before.last() {
        None => true,
        Some(last) => last.file <= file,
    }
}

// The size of a whole chunk, or of the memory's last one.
fn read_size(reader: &mut Reader, memory: &FileRow) -> Result<u32, FieldError>
    ensures { Gives (λ n. (n, reader.new)) result (field (number w32) (is_row_size (Some memory.now)) reader.old) }
{
    let at = reader.at();
    match reader.be32() {
        Ok(size) if is_size(memory, size) => Ok(size),
        _ => Err(FieldError::Bad(at as u64)),
    }
}

fn is_size(memory: &FileRow, size: u32) -> bool
    ensures { result ≡ is_row_size (Some memory.now) size }
{
    0 < size && (size as usize == CHUNK_SIZE || u64::from(size) == last_size(memory.size))
}

// The size of the last chunk of a file of this size.
fn last_size(total: u64) -> u64
    ensures { result ≡ chunk_size_at total (part_count CHUNK_SIZE total - 1) }
{
    let last = total.div_ceil(CHUNK_SIZE as u64).saturating_sub(1);
    (total - last * CHUNK_SIZE as u64).min(CHUNK_SIZE as u64)
}

// The offset of a chunk of this size of the memory, above that of the row before where that is of this memory.
fn read_offset(
    reader: &mut Reader,
    memory: &FileRow,
    before: &[ChunkRow],
    file: u32,
    size: u32,
) -> Result<u64, FieldError>
    ensures { Gives (λ n. (n, reader.new)) result (field (number w64) (is_row_offset (Some memory.now) (last_or None before.now) file size) reader.old) }
{
    let at = reader.at();
    match reader.be64() {
        Ok(offset) if is_chunk_at(memory, size, offset) && is_further(before, file, offset) => {
            Ok(offset)
        }
        _ => Err(FieldError::Bad(at as u64)),
    }
}

fn is_chunk_at(memory: &FileRow, size: u32, offset: u64) -> bool
    ensures { result ≡ has_chunk (Some memory.now) size offset }
{
    if offset % CHUNK_SIZE as u64 != 0 {
        return false;
    }
    if offset >= memory.size {
        return false;
    }
    u64::from(size) == (memory.size - offset).min(CHUNK_SIZE as u64)
}

fn is_further(before: &[ChunkRow], file: u32, offset: u64) -> bool
    ensures { result ≡ has_offset (last_or None before.now) file offset }
{
    match before.last() {
        None => true,
        Some(last) => last.file != file || last.offset < offset,
    }
}
