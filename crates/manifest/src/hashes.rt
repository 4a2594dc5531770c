//! Whether the hash of each file is that of its chunk rows.

ghost use Rattle.std.specs.Prelude.{◌≡◌, ◌<◌, ◌≤◌, ◌^◌, ◌==◌, length, map, IfOk, OnOk};
ghost use Rattle.std.specs.List.{AllByRecursion, prefix_len};
ghost use Rattle.state_spec.specs.ManifestText.{wrong_hash as place_of_wrong_hash};
ghost use Rattle.manifest.specs.Reading.{InOrder};

use crate::rows::{ChunkRow, FileRow};
use byte_codec::{NoMemory, is_same};
use format_spec::{HASH_SIZE, MANIFEST_HEAD};
use hash_domain::{ChunkSum, file_hash};
use std::alloc::Global;

/// The place of the first file hash that isn't the hash of the file's chunk rows, which stand in the order of files.
pub(crate) fn wrong_hash(
    alloc: Global,
    files: &[FileRow],
    chunks: &[ChunkRow],
) -> Result<Option<u64>, NoMemory>
    requires order { InOrder 0 (length files.now) chunks.now }
    requires files { length files.now < 2 ^ 32 }
    requires chunks { length chunks.now < 2 ^ 32 }
    requires names { AllByRecursion (λ row. length row.name < 256) files.now }
    ensures { IfOk result (λ place. place ≡ place_of_wrong_hash 0 MANIFEST_HEAD files.now chunks.now) }
{
    let mut sums = Vec::new(alloc);
    let mut at = MANIFEST_HEAD as u64;
    let mut begin = 0;
    for (number, row) in files.iter().enumerate() {
        let end = begin + rows_of(&chunks[begin..], number as u32);
        copy_sums(&mut sums, &chunks[begin..end])?;
        let hash_at = at + 9 + row.name.bytes().len() as u64;
        if !is_same(row.hash.bytes(), file_hash(&sums).bytes()) {
            return Ok(Some(hash_at));
        }
        at = hash_at + HASH_SIZE as u64;
        begin = end;
    }
    Ok(None)
}

// How many rows at the front are of this file.
fn rows_of(rows: &[ChunkRow], file: u32) -> usize
    ensures { result ≡ prefix_len (λ row. row.file == file) rows.now }
{
    'rows: for (i, row) in rows.iter().enumerate() {
        if row.file != file {
            return i;
        }
    }
    rows.len()
}

// The sums of these rows, in place of what was there.
fn copy_sums(sums: &mut Vec<ChunkSum>, rows: &[ChunkRow]) -> Result<(), NoMemory>
    ensures { OnOk result (sums.new.items ≡ map (λ row. row.sum) rows.now) }
{
    sums.clear();
    for row in rows {
        sums.push(ChunkSum {
            size: row.size,
            offset: row.offset,
            hash: row.hash,
        })?;
    }
    Ok(())
}
