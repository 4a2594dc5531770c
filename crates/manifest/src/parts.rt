//! The text of a manifest cut into pieces, each hashed by one call over all of it.

ghost use Rattle.std.specs.Prelude.{◌≡◌, IfOk, map};
ghost use Rattle.format_spec.specs.Bytes.{parts};
ghost use Rattle.format_spec.specs.Hashes.{piece_hash as hash_of_piece};

use byte_codec::NoMemory;
use format_spec::PIECE_SIZE;
use hash_domain::{Hash32, piece_hash};
use std::alloc::Global;

/// The hashes of the pieces of a manifest's text.
pub(crate) fn piece_hashes(alloc: Global, text: &[u8]) -> Result<Vec<Hash32>, NoMemory>
    ensures { IfOk result (λ hashes. hashes.items ≡ map hash_of_piece (parts PIECE_SIZE text.now)) }
{
    let mut hashes = Vec::with_capacity(alloc, text.len().div_ceil(PIECE_SIZE))?;
    for piece in text.chunks(PIECE_SIZE) {
        hashes.push(piece_hash(piece))?;
    }
    Ok(hashes)
}
