//! All chunk rows of a manifest's text: those of the memories, then those of the system text.

ghost use Rattle.std.specs.Prelude.{◌≡◌, ◌<◌, ◌≤◌, ◌+◌, ◌^◌, [], length, IfOk};
ghost use Rattle.format_spec.specs.Fields.{each};
ghost use Rattle.state_spec.specs.ManifestText.{slots, row_after, memory_rows, memory_slots, system_slots};
ghost use Rattle.byte_codec.specs.Gives.{Gives};
ghost use Rattle.manifest.specs.Reading.{rows_in, file_rows, memory_row, InOrder};

use crate::chunks::read_chunks;
use crate::fields::read_row_count;
use crate::row_fields::read_row;
use crate::rows::{ChunkRow, FileRow};
use crate::slots::{Slot, slots_of};
use byte_codec::{FieldError, Reader};
use std::alloc::Global;

/// The rows of all chunks of these files, behind their number.
pub(crate) fn read_rows(
    alloc: Global,
    reader: &mut Reader,
    version: u32,
    files: &[FileRow],
) -> Result<Vec<ChunkRow>, FieldError>
    requires some { 1 ≤ length files.now }
    requires few { length files.now ≤ 2049 }
    ensures rows { Gives (λ rows. (rows.items, reader.new)) result (file_rows version files.now reader.old) }
    ensures order { IfOk result (λ rows. InOrder 0 (length files.now) rows.items) }
    ensures few { IfOk result (λ rows. length rows.items < 2 ^ 32) }
{
    let last = files.len() - 1;
    let wanted = slots_of(alloc, 0, &files[..last])?;
    let own = slots_of(alloc, last as u32, &files[last..])?;
    read_both(alloc, reader, version, files, &wanted, &own)
}

// The rows of all chunks of these files, where memories and the system text have these slots.
#[tactic(auto, unfolding(crate::specs::Reading::rows_in))]
fn read_both(
    alloc: Global,
    reader: &mut Reader,
    version: u32,
    files: &[FileRow],
    wanted: &[Slot],
    own: &[Slot],
) -> Result<Vec<ChunkRow>, FieldError>
    requires some { 1 ≤ length files.now }
    requires memories { wanted.now ≡ memory_slots files.now }
    requires system { own.now ≡ system_slots files.now }
    ensures rows { Gives (λ rows. (rows.items, reader.new)) result (rows_in version (memory_rows files.now) wanted.now own.now reader.old) }
    ensures order { IfOk result (λ rows. InOrder 0 (length files.now) rows.items) }
    ensures few { IfOk result (λ rows. length rows.items < 2 ^ 32) }
{
    let memories = &files[..files.len() - 1];
    let count = read_row_count(reader, version, wanted.len(), own.len())? as usize - own.len();
    let mut rows = read_memories(alloc, reader, version, memories, wanted, count)?;
    let mut system = read_chunks(alloc, reader, own)?;
    rows.append(&mut system)?;
    Ok(rows)
}

// So many rows of chunks of these memories, which have these slots.
fn read_memories(
    alloc: Global,
    reader: &mut Reader,
    version: u32,
    memories: &[FileRow],
    wanted: &[Slot],
    count: usize,
) -> Result<Vec<ChunkRow>, FieldError>
    requires slots { wanted.now ≡ slots 0 memories.now }
    requires each_first { version ≡ 1 → count ≡ length wanted.now }
    ensures rows { Gives (λ rows. (rows.items, reader.new)) result (each (memory_row version memories.now wanted.now) count [] reader.old) }
    ensures order { IfOk result (λ rows. InOrder 0 (length memories.now) rows.items) }
    ensures count { IfOk result (λ rows. length rows.items ≡ count) }
{
    if version == 1 {
        read_chunks(alloc, reader, wanted)
    } else {
        read_some(alloc, reader, memories, count)
    }
}

// So many rows of chunks of these memories, each by the rules of version 2.
fn read_some(
    alloc: Global,
    reader: &mut Reader,
    memories: &[FileRow],
    count: usize,
) -> Result<Vec<ChunkRow>, FieldError>
    ensures rows { Gives (λ rows. (rows.items, reader.new)) result (each (row_after memories.now) count [] reader.old) }
    ensures order { IfOk result (λ rows. InOrder 0 (length memories.now) rows.items) }
    ensures count { IfOk result (λ rows. length rows.items ≡ count) }
{
    let mut rows = Vec::new(alloc);
    for _ in 0..count {
        let row = read_row(reader, memories, &rows)?;
        rows.push(row)?;
    }
    Ok(rows)
}
