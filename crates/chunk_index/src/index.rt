//! An index of chunks.

ghost use Rattle.std.specs.Prelude.{◌≡◌, ◌≤◌, ◌<◌, ◌^◌, ◌++◌, ◌∷◌, [], length, List, IfOk, OnOk};
ghost use Rattle.state_spec.specs.Manifest.{ChunkRow, chunk_size_at};
ghost use Rattle.chunk_index.specs.Index.{Indexes, place_in, row_at, rows_of, rows_at};

use byte_codec::NoMemory;
use format_spec::{CHUNK_SIZE, HASH_SIZE};
use hash_domain::Hash32;
use std::alloc::Global;
use std::collections::BTreeMap;
use std::marker::Model;

/// Where a chunk is.
#[derive(Clone, Copy, Debug, PartialEq, Eq)]
pub struct Place {
    /// The number of its file, in the order of files.
    pub file: u32,
    /// Its number in that file.
    pub chunk: u32,
}

// What a chunk is found by.
#[derive(Clone, Copy, Debug, PartialEq, Eq, PartialOrd, Ord)]
struct ChunkKey {
    size: u32,
    hash: [u8; HASH_SIZE],
}

/// The first place of each chunk of some files, by its size and hash.
#[derive(Drop)]
pub struct ChunkIndex {
    places: BTreeMap<ChunkKey, Place>,
}

// Contracts see the keys with their places.
impl Model for ChunkIndex {
    ghost use Rattle.chunk_index.specs.Index.{Places};

    ghost Value = { Places };

    ghost view = { λ index. index.places.entries };
}

impl ChunkIndex {
    /// An index of no files.
    pub fn new(alloc: Global) -> ChunkIndex
        ensures { Indexes result [] }
    {
        ChunkIndex {
            places: BTreeMap::new(alloc),
        }
    }

    /// The index with the chunks of one file more, which comes behind the others: a file of this number and size, whose
    /// chunks of 1,048,576 bytes have these hashes: None is a chunk that has no row, and isn't found. NoMemory where memory
    /// runs out; the index is given up then.
    pub fn with_file(
        mut self,
        file: u32,
        size: u64,
        hashes: &[Option<Hash32>],
    ) -> Result<ChunkIndex, NoMemory>
        requires { length hashes.now ≤ 2 ^ 32 }
        ensures { (rows : List ChunkRow) → Indexes self rows → IfOk result (λ index. Indexes index (rows ++ rows_of file size hashes.now)) }
    {
        for (i, sum) in hashes.iter().enumerate() {
            let place = Place {
                file,
                chunk: i as u32,
            };
            put_row(&mut self.places, size_at(size, i), sum, place)?;
        }
        Ok(self)
    }

    /// The place of the first chunk with this size and hash. `None` exactly where no file has one.
    pub fn find(&self, size: u32, hash: &Hash32) -> Option<Place>
        ensures { result ≡ place_in self.now size hash.now }
    {
        let key = ChunkKey { size, hash: hash.0 };
        self.places.get(&key).copied()
    }
}

// The size of a chunk of a file of this size.
fn size_at(size: u64, i: usize) -> u32
    requires { i < 2 ^ 32 }
    ensures { result ≡ chunk_size_at size i }
{
    let left = size.saturating_sub(i as u64 * CHUNK_SIZE as u64);
    left.min(CHUNK_SIZE as u64) as u32
}

// Adds the row of a chunk with this sum, if it has one.
fn put_row(
    places: &mut BTreeMap<ChunkKey, Place>,
    size: u32,
    sum: &Option<Hash32>,
    place: Place,
) -> Result<(), NoMemory>
    ensures { OnOk result ((rows : List ChunkRow) → Indexes places.old.entries rows → Indexes places.new.entries (rows ++ rows_at size sum.now place)) }
{
    match sum {
        Some(hash) => put(places, size, hash, place),
        None => Ok(()),
    }
}

// Adds a chunk, which comes behind those that the places have.
fn put(
    places: &mut BTreeMap<ChunkKey, Place>,
    size: u32,
    hash: &Hash32,
    place: Place,
) -> Result<(), NoMemory>
    ensures { OnOk result ((rows : List ChunkRow) → Indexes places.old.entries rows → Indexes places.new.entries (rows ++ row_at size hash.now place ∷ [])) }
{
    let key = ChunkKey { size, hash: hash.0 };
    if !places.contains_key(&key) {
        places.insert(key, place)?;
    }
    Ok(())
}
