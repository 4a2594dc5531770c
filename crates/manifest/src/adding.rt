//! Files added to a manifest, one after another.

ghost use Rattle.std.specs.Prelude.{◌≡◌, ◌<◌, ◌≤◌, ◌^◌, ◌++◌, ◌∷◌, [], ◌*◌, ℕ, List, length, map, IfOk, OnOk};
ghost use Rattle.format_spec.specs.Bytes.{part_count};
ghost use Rattle.state_spec.specs.Files.{heap_name, stable_name};
ghost use Rattle.state_spec.specs.Manifest.{FileSums, manifest_from, row_of, chunk_size_at, chunk_offset};
ghost use Rattle.sys_state.specs.System.{IsWithinLimits, part_of};
ghost use Rattle.manifest.specs.Fits.{FitSums};
ghost use Rattle.manifest.specs.Adding.{Adds, canister_sums, all_memory_sums, sums_from};

use crate::names::memory_name;
use crate::rows::{ChunkRow, FileRow, Manifest};
use byte_codec::{Blob, NoMemory};
use format_spec::{CHUNK_SIZE, PAGE_SIZE};
use hash_domain::{ChunkSum, Hash32, file_hash};
use std::alloc::Global;
use sys_state::{CanisterId, CanisterRecord, SysState};

impl Manifest {
    // Adds the memories of all canisters, whose chunks have these sums.
    pub(crate) fn add_memories(
        &mut self,
        alloc: Global,
        sys: &SysState,
        sums: &[Vec<Option<Hash32>>],
    ) -> Result<(), NoMemory>
        requires empty { self.old ≡ manifest_from self.old.version [] }
        requires fit { FitSums (part_of sys.now) (map (λ hashes. hashes.items) sums.now) }
        ensures rows { OnOk result (self.new ≡ manifest_from self.old.version (all_memory_sums (part_of sys.now) (map (λ hashes. hashes.items) sums.now))) }
        ensures kept { OnOk result (IsWithinLimits sys.now) }
    {
        for i in 0..sys.canisters() {
            let Some((id, canister)) = sys.canister_at(i) else {
                unreachable!();
            };
            let at = 2 * i as usize;
            self.add_canister(alloc, id, canister, &sums[at], &sums[at + 1])?;
        }
        Ok(())
    }

    // Adds heap and stable memory of a canister.
    fn add_canister(
        &mut self,
        alloc: Global,
        id: &CanisterId,
        canister: &CanisterRecord,
        heap: &[Option<Hash32>],
        stable: &[Option<Hash32>],
    ) -> Result<(), NoMemory>
        requires files { length self.old.files < 2 ^ 31 }
        requires heap { length heap.now ≡ part_count CHUNK_SIZE (canister.now.heap * PAGE_SIZE) }
        requires stable { length stable.now ≡ part_count CHUNK_SIZE (canister.now.stable * PAGE_SIZE) }
        ensures { OnOk result ((v : ℕ) (fs : List FileSums) → self.old ≡ manifest_from v fs → self.new ≡ manifest_from v (fs ++ canister_sums id.now canister.now heap.now stable.now)) }
    {
        let name = memory_name(alloc, id, b"heap")?;
        self.add_file(alloc, name, size_of_pages(canister.heap), heap)?;
        let name = memory_name(alloc, id, b"stable")?;
        self.add_file(alloc, name, size_of_pages(canister.stable), stable)
    }

    // Adds a file of this name and size, whose chunks have these sums.
    pub(crate) fn add_file(
        &mut self,
        alloc: Global,
        name: Blob,
        size: u64,
        hashes: &[Option<Hash32>],
    ) -> Result<(), NoMemory>
        requires files { length self.old.files < 2 ^ 32 }
        requires hashes { length hashes.now < 2 ^ 32 }
        ensures { OnOk result (Adds self.old self.new (record { name = name; size = size; hashes = hashes.now })) }
    {
        let sums = row_sums(alloc, size, hashes)?;
        let file = self.files.len() as u32;
        add_chunks(&mut self.chunks, file, &sums)?;
        let hash = file_hash(&sums);
        self.files.push(FileRow { name, size, hash })?;
        Ok(())
    }
}

// Adds the rows of the chunks of a file.
fn add_chunks(chunks: &mut Vec<ChunkRow>, file: u32, sums: &[ChunkSum]) -> Result<(), NoMemory>
    ensures { OnOk result (chunks.new.items ≡ chunks.old.items ++ map (λ sum. record { file = file; sum = sum }) sums.now) }
{
    for sum in sums {
        chunks.push(ChunkRow {
            file,
            size: sum.size,
            offset: sum.offset,
            hash: sum.hash,
        })?;
    }
    Ok(())
}

/// The bytes of so many pages.
pub(crate) fn size_of_pages(pages: u32) -> u64
    ensures value { result ≡ pages * PAGE_SIZE }
    ensures fits { result < 2 ^ 44 }
{
    u64::from(pages) * PAGE_SIZE as u64
}

// The sums in the rows of a file of this size, whose chunks have these sums.
fn row_sums(alloc: Global, size: u64, hashes: &[Option<Hash32>]) -> Result<Vec<ChunkSum>, NoMemory>
    requires { length hashes.now < 2 ^ 32 }
    ensures { IfOk result (λ sums. sums.items ≡ sums_from size hashes.now) }
{
    let mut sums = Vec::with_capacity(alloc, hashes.len())?;
    for (i, hash) in hashes.iter().enumerate() {
        add_row(&mut sums, size, i as u64, hash)?;
    }
    Ok(sums)
}

// Adds what stands in the row of a chunk of a file of this size, where it has one.
fn add_row(
    sums: &mut Vec<ChunkSum>,
    size: u64,
    i: u64,
    hash: &Option<Hash32>,
) -> Result<(), NoMemory>
    requires { i < 2 ^ 32 }
    ensures { OnOk result (sums.new.items ≡ sums.old.items ++ row_of size (i, hash.now)) }
{
    match hash {
        Some(hash) => Ok(sums.push(sum_at(size, i, hash))?),
        None => Ok(()),
    }
}

fn sum_at(size: u64, i: u64, hash: &Hash32) -> ChunkSum
    requires { i < 2 ^ 32 }
    ensures { result ≡ record { size = chunk_size_at size i; offset = chunk_offset i; hash = hash.now } }
{
    let offset = i * CHUNK_SIZE as u64;
    ChunkSum {
        size: size.saturating_sub(offset).min(CHUNK_SIZE as u64) as u32,
        offset,
        hash: *hash,
    }
}
