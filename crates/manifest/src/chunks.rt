//! The chunk rows of a manifest's text in their slots.

ghost use Rattle.std.specs.Prelude.{◌≡◌, [], length, map, IfOk, Some};
ghost use Rattle.format_spec.specs.Fields.{each};
ghost use Rattle.state_spec.specs.ManifestText.{slot_after, slot_of};
ghost use Rattle.byte_codec.specs.Gives.{Gives};
ghost use Rattle.manifest.specs.Reading.{chunk_in};

use crate::rows::ChunkRow;
use crate::slots::Slot;
use byte_codec::{FieldError, Reader, read_be32, read_be64};
use hash_domain::read_hash;
use std::alloc::Global;

/// The rows of chunks in these slots.
pub(crate) fn read_chunks(
    alloc: Global,
    reader: &mut Reader,
    slots: &[Slot],
) -> Result<Vec<ChunkRow>, FieldError>
    ensures rows { Gives (λ rows. (rows.items, reader.new)) result (each (slot_after slots.now) (length slots.now) [] reader.old) }
    ensures slots { IfOk result (λ rows. map slot_of rows.items ≡ slots.now) }
{
    let mut rows = Vec::new(alloc);
    for slot in slots {
        rows.push(read_chunk(reader, slot)?)?;
    }
    Ok(rows)
}

// The row of a chunk in this slot.
#[tactic(auto, unfolding(crate::specs::Reading::chunk_in))]
fn read_chunk(reader: &mut Reader, slot: &Slot) -> Result<ChunkRow, FieldError>
    ensures row { Gives (λ row. (row, reader.new)) result (chunk_in (Some slot.now) reader.old) }
    ensures slot { IfOk result (λ row. slot_of row ≡ slot.now) }
{
    read_be32(reader, slot.file)?;
    read_be32(reader, slot.size)?;
    read_be64(reader, slot.offset)?;
    let hash = read_hash(reader)?;
    Ok(ChunkRow {
        file: slot.file,
        size: slot.size,
        offset: slot.offset,
        hash,
    })
}
