//! The hashes of files by their chunks, of pieces of a manifest, and of a whole manifest by its pieces.

ghost use Rattle.std.specs.Prelude.{◌≡◌, ◌<◌, ◌^◌, ◌++◌, codes, length};
ghost use Rattle.sha2.specs.Hashers.{Holds256};
ghost use Rattle.sha2.specs.Sha256.{sha256};
ghost use Rattle.format_spec.specs.Bytes.{Bytes};
ghost use Rattle.format_spec.specs.Hashes.{chunk_sum_text, with_separator};
ghost use Rattle.format_spec.specs.Hashes.{file_hash as hash_of_file, piece_hash as hash_of_piece, root_hash as hash_of_root};

use crate::chunk_sum::ChunkSum;
use crate::hash32::Hash32;
use sha2::{Digest, Sha256};

/// The name before a meta-manifest, behind its length.
const ROOT: &[u8] = b"\x16ic-state-meta-manifest";

/// The hash of a file that has these chunks.
#[tactic(auto, unfolding(format_spec::specs::Hashes::file_hash))]
pub fn file_hash(chunks: &[ChunkSum]) -> Hash32
    requires { length chunks.now < 2 ^ 32 }
    ensures { result ≡ hash_of_file chunks.now }
{
    let mut hasher = Sha256::new();
    hasher.update(b"\x0dic-state-file".as_slice());
    hasher.update((chunks.len() as u32).to_be_bytes());
    for chunk in chunks {
        add_sum(&mut hasher, chunk);
    }
    Hash32(hasher.finalize())
}

// Adds the row of a chunk to the message.
fn add_sum(hasher: &mut Sha256, chunk: &ChunkSum)
    ensures { (m : Bytes) → Holds256 hasher.old m → Holds256 hasher.new (m ++ chunk_sum_text chunk.now) }
{
    hasher.update(chunk.size.to_be_bytes());
    hasher.update(chunk.offset.to_be_bytes());
    hasher.update(chunk.hash.bytes());
}

/// The hash of a piece of a manifest.
#[tactic(auto, unfolding(format_spec::specs::Hashes::piece_hash))]
pub fn piece_hash(piece: &[u8]) -> Hash32
    ensures { result ≡ hash_of_piece piece.now }
{
    let mut hasher = Sha256::new();
    hasher.update(b"\x15ic-state-sub-manifest".as_slice());
    hasher.update(piece);
    Hash32(hasher.finalize())
}

/// The hash of a manifest of this version whose pieces have these hashes.
#[tactic(auto, unfolding(format_spec::specs::Hashes::root_hash))]
pub fn root_hash(version: u32, pieces: &[Hash32]) -> Hash32
    requires { length pieces.now < 2 ^ 32 }
    ensures { result ≡ hash_of_root version pieces.now }
{
    let mut hasher = Sha256::new();
    hasher.update(ROOT);
    hasher.update(version.to_be_bytes());
    hasher.update((pieces.len() as u32).to_be_bytes());
    for piece in pieces {
        add_hash(&mut hasher, piece);
    }
    Hash32(hasher.finalize())
}

/// The root hash by a meta-manifest's text: the hash of the text behind its name.
pub fn root_hash_of_text(text: &[u8]) -> Hash32
    ensures { result ≡ sha256 (with_separator (codes "ic-state-meta-manifest") text.now) }
{
    let mut hasher = Sha256::new();
    hasher.update(ROOT);
    hasher.update(text);
    Hash32(hasher.finalize())
}

// Adds the hash of a piece to the message.
fn add_hash(hasher: &mut Sha256, hash: &Hash32)
    ensures { (m : Bytes) → Holds256 hasher.old m → Holds256 hasher.new (m ++ hash.now) }
{
    hasher.update(hash.bytes());
}
