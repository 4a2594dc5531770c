//! The sums of chunks: the hash of a chunk that has a row, none for one that has none.

ghost use Rattle.std.specs.Prelude.{◌≡◌, ◌==◌, IfOk};
ghost use Rattle.format_spec.specs.declared.limits.TheConstants.{CHUNK_SIZE as chunk_size};
ghost use Rattle.state_spec.specs.Manifest.{is_zeros as are_zeros, sum_of as sum_of_chunk, chunk_hashes as sums_of_chunks};

use crate::all_chunks::chunk_hashes;
use crate::chunks::chunk_hash;
use crate::hash32::Hash32;
use byte_codec::NoMemory;
use format_spec::CHUNK_SIZE;
use std::alloc::Global;

/// Bytes that are joined before the next look at what they came to.
const RUN: usize = 4096;

/// Whether each byte is zero. It ends behind the first run of bytes that has another.
pub fn is_zeros(bytes: &[u8]) -> bool
    ensures { result ≡ are_zeros bytes.now }
{
    'runs: for run in bytes.chunks(RUN) {
        if joined(run) != 0 {
            return false;
        }
    }
    true
}

// All bytes joined by `or`, with no test between them.
fn joined(run: &[u8]) -> u8
    ensures { (result == 0) ≡ are_zeros run.now }
{
    let mut all = 0;
    'bytes: for byte in run {
        all |= *byte;
    }
    all
}

/// The sum of a chunk of a file whose chunks have rows by this version: in version 1 its hash, in version 2 none where
/// it is zeros, which is not hashed then.
pub fn sum_of(version: u32, chunk: &[u8]) -> Option<Hash32>
    ensures { result ≡ sum_of_chunk version chunk.now }
{
    if version == 1 || !is_zeros(chunk) {
        Some(chunk_hash(chunk))
    } else {
        None
    }
}

/// The sums of the chunks of these bytes by a version. Each is looked at once, in version 1 not at all. NoMemory where
/// memory runs out.
pub fn chunk_sums(
    alloc: Global,
    version: u32,
    bytes: &[u8],
) -> Result<Vec<Option<Hash32>>, NoMemory>
    ensures { IfOk result (λ sums. sums.items ≡ sums_of_chunks version bytes.now) }
{
    if version == 1 {
        all_sums(alloc, bytes)
    } else {
        some_sums(alloc, version, bytes)
    }
}

// A hash for each chunk.
fn all_sums(alloc: Global, bytes: &[u8]) -> Result<Vec<Option<Hash32>>, NoMemory>
    ensures { IfOk result (λ sums. sums.items ≡ sums_of_chunks 1 bytes.now) }
{
    let hashes = chunk_hashes(alloc, bytes)?;
    let mut sums = Vec::with_capacity(alloc, hashes.len())?;
    'hashes: for hash in &hashes {
        sums.push(Some(*hash))?;
    }
    Ok(sums)
}

fn some_sums(alloc: Global, version: u32, bytes: &[u8]) -> Result<Vec<Option<Hash32>>, NoMemory>
    ensures { IfOk result (λ sums. sums.items ≡ sums_of_chunks version bytes.now) }
{
    let mut sums = Vec::with_capacity(alloc, bytes.len().div_ceil(CHUNK_SIZE))?;
    'chunks: for chunk in bytes.chunks(CHUNK_SIZE) {
        sums.push(sum_of(version, chunk))?;
    }
    Ok(sums)
}
