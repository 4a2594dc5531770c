//! Which chunks may have changed.

ghost use Rattle.std.specs.Prelude.{◌≡◌, ℕ, ◌/◌, ◌%◌, ◌<◌, ◌≤◌, ◌==◌, ◌&&◌, ◌||◌, not, nat_lt, nat_le, length, slice_index, List, [], ◌∷◌, ◌++◌, if◌then◌else◌, IsTrue, IfOk, OnOk};
ghost use Rattle.std.specs.Ordering.{nat_cmp};
ghost use Rattle.format_spec.specs.Bytes.{ascending, part_count};
ghost use Rattle.format_spec.specs.declared.limits.TheConstants.{CHUNK_PAGES as chunk_pages};
ghost use Rattle.page_spec.specs.Layers.{stale as stale_chunks};

use byte_codec::NoMemory;
use format_spec::CHUNK_PAGES;
use std::alloc::Global;

/// The chunks, ascending, whose sums may have changed since a memory had `old` pages, now that it has `new`: those with a dirty page,
/// the last old one where it wasn't full and the memory grew, and the new ones. The dirty pages ascend. It takes time for each of them and
/// for each chunk. NoMemory where memory runs out.
pub fn stale(alloc: Global, dirty: &[u32], old: u32, new: u32) -> Result<Vec<u32>, NoMemory>
    requires { IsTrue (ascending nat_cmp dirty.now) }
    ensures { IfOk result (λ chunks. chunks.items ≡ stale_chunks dirty.now old new) }
{
    let fresh = first_fresh(old, new);
    let mut chunks = Vec::new(alloc);
    let mut at = 0;
    for chunk in 0..new.div_ceil(CHUNK_PAGES as u32) {
        let behind = behind_chunk(dirty, at, chunk);
        push_stale(&mut chunks, chunk, at < behind, fresh <= chunk)?;
        at = behind;
    }
    Ok(chunks)
}

// Adds a chunk that has a dirty page, or is stale without one.
fn push_stale(
    chunks: &mut Vec<u32>,
    chunk: u32,
    is_dirty: bool,
    is_fresh: bool,
) -> Result<(), NoMemory>
    ensures { OnOk result (chunks.new.items ≡ chunks.old.items ++ (if is_dirty || is_fresh then chunk ∷ [] else [])) }
{
    if is_dirty || is_fresh {
        chunks.push(chunk)?;
    }
    Ok(())
}

// The first chunk that is stale whatever was written.
fn first_fresh(old: u32, new: u32) -> u32
    ensures { (chunk : ℕ) → nat_le result chunk ≡ ((chunk == old / chunk_pages && not (old % chunk_pages == 0) && nat_lt old new) || nat_le (part_count chunk_pages old) chunk) }
{
    if old < new {
        old / CHUNK_PAGES as u32
    } else {
        old.div_ceil(CHUNK_PAGES as u32)
    }
}

// The place of the first page, from a place on, that is in a later chunk.
fn behind_chunk(pages: &[u32], from: usize, chunk: u32) -> usize
    requires { from ≤ length pages.now }
    ensures order { from ≤ result }
    ensures within { result ≤ length pages.now }
    ensures before { (i : ℕ) → from ≤ i → i < result → slice_index pages.now i / chunk_pages ≤ chunk }
    ensures behind { result < length pages.now → chunk < slice_index pages.now result / chunk_pages }
{
    for at in from..pages.len() {
        if chunk < pages[at] / CHUNK_PAGES as u32 {
            return at;
        }
    }
    pages.len()
}
