//! Chunks of published heights, found by their sizes and hashes.

ghost use Rattle.std.specs.Prelude.{◌≡◌, ◌≤◌, ℕ, List, length, map, Some, IfOk};
ghost use Rattle.std.specs.List.{AllZip};
ghost use Rattle.format_spec.specs.Bytes.{part_count};
ghost use Rattle.format_spec.specs.declared.limits.TheConstants.{CHUNK_PAGES};
ghost use Rattle.store_spec.specs.Image.{Published};
ghost use Rattle.store_spec.specs.Mark.{IsMark};
ghost use Rattle.sync_spec.specs.Local.{manifests_of};
ghost use Rattle.sys_state.specs.System.{part_of};
ghost use Rattle.chunk_index.specs.Index.{Indexes, first_place};
ghost use Rattle.height_store.specs.Chunks.{chunk_in, chunks_in, manifests_in, memory_rows};
ghost use Rattle.height_store.specs.Known.{KnowsHeight};
ghost use Rattle.height_store.specs.Store.{StoredHeight};

use crate::store::{HeightStore, PublishedHeight};
use byte_codec::NoMemory;
use chunk_index::{ChunkIndex, Place};
use format_spec::PAGE_SIZE;
use hash_domain::Hash32;
use mark_file::{Mark, MarkMem};
use std::alloc::Global;
use sys_state::{SysState, memory_pages};

impl HeightStore {
    /// The first published chunk with this size and hash, in the order of heights, files and chunks: its height, the number of its file
    /// in the order of files, and its number in that file. `None` exactly where there is none.
    pub fn find_chunk(&self, size: u32, hash: &Hash32) -> Option<(u64, u32, u32)>
        ensures { result ≡ chunk_in self.now.heights size hash.now }
    {
        find_among(&self.heights, size, hash)
    }
}

// The first chunk with this size and hash of these heights.
fn find_among(heights: &[PublishedHeight], size: u32, hash: &Hash32) -> Option<(u64, u32, u32)>
    ensures { result ≡ chunk_in heights.now size hash.now }
{
    for kept in heights {
        if let Some(place) = kept.find_place(size, hash) {
            return Some((kept.height(), place.file, place.chunk));
        }
    }
    None
}

impl PublishedHeight {
    // The place of its first chunk with this size and hash.
    fn find_place(&self, size: u32, hash: &Hash32) -> Option<Place>
        ensures { result ≡ first_place (chunks_in self.now.mark (part_of self.now.system)) size hash.now }
    {
        self.chunks.find(size, hash)
    }
}

/// The index of the chunks of a state with these parts that has this mark.
pub(crate) fn index_of(alloc: Global, mark: &Mark, sys: &SysState) -> Result<ChunkIndex, NoMemory>
    requires { IsMark mark.now (part_of sys.now) }
    ensures { IfOk result (λ index. Indexes index (chunks_in mark.now (part_of sys.now))) }
{
    let pages = memory_pages(alloc, sys)?;
    let index = index_of_memories(alloc, &mark.mems, &pages)?;
    let size = mark.system.bytes().len() as u64;
    let sums = sums_of(alloc, &mark.system_sums)?;
    index.with_file(pages.len() as u32, size, &sums)
}

// The sums of chunks that have these hashes.
fn sums_of(alloc: Global, hashes: &[Hash32]) -> Result<Vec<Option<Hash32>>, NoMemory>
    ensures { IfOk result (λ sums. sums.items ≡ map Some hashes.now) }
{
    let mut sums = Vec::with_capacity(alloc, hashes.len())?;
    for hash in hashes {
        sums.push(Some(*hash))?;
    }
    Ok(sums)
}

// The index of the chunks of memories of so many pages each.
fn index_of_memories(alloc: Global, mems: &[MarkMem], pages: &[u32]) -> Result<ChunkIndex, NoMemory>
    requires few { length pages.now ≤ 2048 }
    requires sums { AllZip (λ mem count. length mem.sums ≡ part_count CHUNK_PAGES count) mems.now pages.now }
    ensures { IfOk result (λ index. Indexes index (memory_rows 0 mems.now pages.now)) }
{
    let mut index = ChunkIndex::new(alloc);
    for (i, mem) in mems.iter().enumerate() {
        let count = pages[i];
        let size = u64::from(count) * PAGE_SIZE as u64;
        index = index.with_file(i as u32, size, &mem.sums)?;
    }
    Ok(index)
}

/// The manifests by which chunks are found are those of the states that the heights tell.
pub fn chunks_are_found_in_states()
    ensures { (hs : List StoredHeight) (ps : List Published) → AllZip KnowsHeight hs ps
        → manifests_in hs ≡ manifests_of (map (λ p. (p.height, p.state)) ps) }
{}
