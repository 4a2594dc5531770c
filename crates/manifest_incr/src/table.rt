//! The sums of a memory's chunks.

ghost use Rattle.std.specs.Prelude.{◌≡◌, ℕ, ◌*◌, ◌<◌, ◌≤◌, false, List, [], length, map as each_of, min, None, slice_index_or, IsTrue, IfOk, OnOk};
ghost use Rattle.std.specs.List.{AllByRecursion, range_with_len};
ghost use Rattle.format_spec.specs.Bytes.{part_count};
ghost use Rattle.format_spec.specs.declared.limits.TheConstants.{PAGE_SIZE as page_size, CHUNK_PAGES as chunk_pages, CHUNK_SIZE as chunk_size};
ghost use Rattle.state_spec.specs.Manifest.{sum_of as sum_of_chunk, chunk_hashes};
ghost use Rattle.page_spec.specs.Layers.{Layer, has_page};
ghost use Rattle.disk_model.specs.Causes.{Fails};
ghost use Rattle.disk_model.specs.OnlyReads.{OnlyReads};
ghost use Rattle.page_file.specs.Files.{IsAsKnown};
ghost use Rattle.layer_stack.specs.Stacks.{AreLayers};
ghost use Rattle.page_map.specs.Reads.{IsLive, bytes_of};
ghost use Rattle.page_map.specs.Changes.{SameMaps};
ghost use Rattle.manifest_incr.specs.Tables.{Sums, chunk_at, sums_after, refreshed, HasRest};

use byte_codec::NoMemory;
use disk_model::{Disk, DiskError};
use format_spec::{CHUNK_PAGES, CHUNK_SIZE, PAGE_SIZE};
use hash_domain::{Hash32, sum_of};
use page_map::{PageMap, Pages};
use std::alloc::Global;
use std::marker::Model;

/// The sums of a memory's chunks: the hash of a chunk that has a row, none for one that has none.
#[derive(Drop)]
pub struct ChunkTable {
    sums: Vec<Option<Hash32>>,
}

// Contracts see the list of its sums.
impl Model for ChunkTable {
    ghost use Rattle.manifest_incr.specs.Tables.{Sums};

    ghost Value = { Sums };

    ghost view = { λ table. table.sums.items };
}

impl ChunkTable {
    /// The table of a memory of no pages.
    pub fn empty(alloc: Global) -> ChunkTable
        ensures { result ≡ [] }
    {
        ChunkTable {
            sums: Vec::new(alloc),
        }
    }

    /// The table of just these sums. NoMemory where memory runs out.
    pub fn from_sums(alloc: Global, sums: &[Option<Hash32>]) -> Result<ChunkTable, NoMemory>
        ensures { IfOk result (λ table. table ≡ sums.now) }
    {
        Ok(ChunkTable {
            sums: Vec::from_slice(alloc, sums)?,
        })
    }

    /// The sums, one a chunk.
    pub fn sums(&self) -> &[Option<Hash32>]
        ensures { result.now ≡ self.now }
    {
        &self.sums
    }

    /// Another table of the same sums. NoMemory where memory runs out.
    pub fn copy(&self, alloc: Global) -> Result<ChunkTable, NoMemory>
        ensures { IfOk result (λ table. table ≡ self.now) }
    {
        ChunkTable::from_sums(alloc, &self.sums)
    }

    /// The table of a map's chunks by a version: the stale chunks are read and hashed, the others have the sums of this table. Where these are
    /// the sums of the map's chunks, the new table is that of all bytes of the map. The stale chunks are chunks of the map, this table has each
    /// other one, and the disk has the files of the map's layers as they were opened or finished. It reads 1,048,576 bytes a stale chunk at
    /// most. Fault where the disk failed, Memory where memory ran out. Every map stays as it is.
    pub fn refresh<D: Disk>(
        &self,
        alloc: Global,
        stale: &[u32],
        pages: &mut Pages,
        map: &PageMap,
        disk: &mut D,
        version: u32,
    ) -> Result<ChunkTable, DiskError>
        requires live { IsLive pages.old map.now }
        requires chunks { AllByRecursion (λ i. i < part_count chunk_pages map.now.length) stale.now }
        requires long { (i : ℕ) → i < part_count chunk_pages map.now.length → has_page i stale.now ≡ false → i < length self.now }
        requires kept { IsTrue D.tells → AllByRecursion (IsAsKnown (D.view disk.old).state.files) map.now.stack }

        ensures sums { IsTrue D.tells → IfOk result (λ table. (layers : List Layer) → AreLayers (D.view disk.old).state.files map.now.stack layers
            → table ≡ refreshed version stale.now self.now (bytes_of layers pages.old map.now)) }
        ensures whole { IsTrue D.tells → IfOk result (λ table. (layers : List Layer) → AreLayers (D.view disk.old).state.files map.now.stack layers
            → HasRest version stale.now self.now (bytes_of layers pages.old map.now) → table ≡ chunk_hashes version (bytes_of layers pages.old map.now)) }
        ensures count { IfOk result (λ table. length table ≡ part_count chunk_pages map.now.length) }
        ensures rest { IfOk result (λ table. (i : ℕ) → i < part_count chunk_pages map.now.length → has_page i stale.now ≡ false → slice_index_or table i None ≡ slice_index_or self.now i None) }
        ensures unchanged { SameMaps pages.old pages.new }
        ensures reads_only { IsTrue D.tells → OnlyReads (chunk_size * length stale.now) (D.view disk.old) (D.view disk.new) }
        ensures cause { Fails D.Disk disk.old disk.new result }
    {
        let count = pages.length(map).div_ceil(CHUNK_PAGES as u32);
        let mut sums = first_sums(alloc, &self.sums, count as usize)?;
        let size = (pages.length(map) as usize * PAGE_SIZE).min(CHUNK_SIZE);
        let mut buffer = vec![in alloc; 0; size]?;
        refresh_each(
            alloc,
            &mut buffer,
            &mut sums,
            stale,
            pages,
            map,
            disk,
            version,
        )?;
        Ok(ChunkTable { sums })
    }
}

// The first sums of a table, and none where it has no more.
fn first_sums(
    alloc: Global,
    sums: &[Option<Hash32>],
    count: usize,
) -> Result<Vec<Option<Hash32>>, NoMemory>
    ensures { IfOk result (λ first. first.items ≡ each_of (λ i. slice_index_or sums.now i None) (range_with_len 0 count)) }
{
    let mut first = Vec::with_capacity(alloc, count)?;
    for i in 0..count {
        first.push(sum_or_none(sums, i))?;
    }
    Ok(first)
}

// A sum of a table, and none where it has no more.
fn sum_or_none(sums: &[Option<Hash32>], i: usize) -> Option<Hash32>
    ensures { result ≡ slice_index_or sums.now i None }
{
    if i < sums.len() { sums[i] } else { None }
}

// Puts the sums of these chunks of a map in their places. Each chunk is read into the buffer.
fn refresh_each<D: Disk>(
    alloc: Global,
    buffer: &mut [u8],
    sums: &mut Vec<Option<Hash32>>,
    stale: &[u32],
    pages: &mut Pages,
    map: &PageMap,
    disk: &mut D,
    version: u32,
) -> Result<(), DiskError>
    requires live { IsLive pages.old map.now }
    requires room { length buffer.old ≡ min (map.now.length * page_size) chunk_size }
    requires count { length sums.old.items ≡ part_count chunk_pages map.now.length }
    requires chunks { AllByRecursion (λ i. i < part_count chunk_pages map.now.length) stale.now }
    requires kept { IsTrue D.tells → AllByRecursion (IsAsKnown (D.view disk.old).state.files) map.now.stack }

    ensures sums { IsTrue D.tells → OnOk result ((layers : List Layer) (first : Sums) → AreLayers (D.view disk.old).state.files map.now.stack layers
        → sums.old.items ≡ sums_after version [] first (bytes_of layers pages.old map.now) (part_count chunk_pages map.now.length)
        → sums.new.items ≡ sums_after version stale.now first (bytes_of layers pages.old map.now) (part_count chunk_pages map.now.length)) }
    ensures count { length sums.new.items ≡ length sums.old.items }
    ensures rest { (i : ℕ) → has_page i stale.now ≡ false → slice_index_or sums.new.items i None ≡ slice_index_or sums.old.items i None }
    ensures unchanged { SameMaps pages.old pages.new }
    ensures reads_only { IsTrue D.tells → OnlyReads (chunk_size * length stale.now) (D.view disk.old) (D.view disk.new) }
    ensures cause { Fails D.Disk disk.old disk.new result }
{
    for i in 0..stale.len() {
        let chunk = stale[i];
        sums[chunk as usize] = read_sum(alloc, buffer, pages, map, disk, version, chunk)?;
    }
    Ok(())
}

// The sum of one chunk of a map, which is read into the buffer whole.
fn read_sum<D: Disk>(
    alloc: Global,
    buffer: &mut [u8],
    pages: &mut Pages,
    map: &PageMap,
    disk: &mut D,
    version: u32,
    chunk: u32,
) -> Result<Option<Hash32>, DiskError>
    requires live { IsLive pages.old map.now }
    requires inside { chunk < part_count chunk_pages map.now.length }
    requires room { length buffer.old ≡ min (map.now.length * page_size) chunk_size }
    requires kept { IsTrue D.tells → AllByRecursion (IsAsKnown (D.view disk.old).state.files) map.now.stack }

    ensures sum { IsTrue D.tells → IfOk result (λ sum. (layers : List Layer) → AreLayers (D.view disk.old).state.files map.now.stack layers
        → sum ≡ sum_of_chunk version (chunk_at (bytes_of layers pages.old map.now) chunk)) }
    ensures unchanged { SameMaps pages.old pages.new }
    ensures reads_only { IsTrue D.tells → OnlyReads chunk_size (D.view disk.old) (D.view disk.new) }
    ensures cause { Fails D.Disk disk.old disk.new result }
{
    let at = u64::from(chunk) * CHUNK_SIZE as u64;
    let left = u64::from(pages.length(map)) * PAGE_SIZE as u64 - at;
    let room = &mut buffer[..left.min(CHUNK_SIZE as u64) as usize];
    pages.read(alloc, map, disk, at, room)?;
    Ok(sum_of(version, room))
}
