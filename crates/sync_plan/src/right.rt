//! Which bytes are right for an item.

ghost use Rattle.std.specs.Prelude.{◌≡◌, ◌&&◌, ◌==◌, suc, nat_lt, nat_le, if◌then◌else◌, length, slice_get, Some};
ghost use Rattle.format_spec.specs.declared.limits.TheConstants.{PIECE_SIZE as piece_size};
ghost use Rattle.state_spec.specs.Root.{MetaManifest as Meta, read_meta};
ghost use Rattle.sync_spec.specs.Rows.{row_version as version_of_row};
ghost use Rattle.sync_spec.specs.Serving.{is_right as is_right_for, is_taken as is_taken_version, has_root, is_piece as is_this_piece};
ghost use Rattle.sync_spec.specs.Serving.{is_chunk as is_this_chunk};
ghost use Rattle.sync_plan.specs.Views.{item_of, known_of};

use crate::item::Item;
use byte_codec::{Reader, is_same};
use format_spec::PIECE_SIZE;
use hash_domain::{Hash32, chunk_hash, is_zeros, piece_hash, root_hash_of_text};
use manifest::{ChunkRow, Manifest, MetaManifest};

/// What is known of the state that is asked for, which says what is right.
#[derive(Clone, Copy, Debug)]
pub enum Known<'a> {
    /// Its root hash, by which a meta-manifest is judged.
    Root(&'a Hash32),
    /// Its meta-manifest, by which a piece is judged.
    Meta(&'a MetaManifest),
    /// Its manifest, by which a chunk is judged.
    Rows(&'a Manifest),
}

/// Whether these are the bytes of the item: an encoded meta-manifest of version 1 with the root hash; 4,096 bytes with
/// the hash of the piece, or 1 to 4,096 for the last one; bytes with the size and the hash of the chunk's row, and in a
/// manifest of version 2 a chunk of a memory that isn't zeros. False where what is known isn't what such an item is
/// judged by, and where the item's number is past the end. It takes no memory.
pub fn is_right(known: Known, item: Item, bytes: &[u8]) -> bool
    ensures { result ≡ is_right_for (known_of known.entry) (item_of item) bytes.now }
{
    match (known, item) {
        (Known::Root(root), Item::Meta) => has_root_hash(bytes, root),
        (Known::Meta(meta), Item::Piece(index)) => is_piece(&meta.pieces, index as usize, bytes),
        (Known::Rows(manifest), Item::Chunk(index)) => is_chunk(manifest, index as usize, bytes),
        _ => false,
    }
}

// Whether the bytes are an encoded meta-manifest of version 1 with this root hash.
fn has_root_hash(bytes: &[u8], root: &Hash32) -> bool
    ensures { result ≡ has_root root.now (read_meta bytes.now) }
{
    MetaManifest::spells(bytes)
        && is_taken(bytes)
        && is_same(root_hash_of_text(bytes).bytes(), root.bytes())
}

// Whether the version that a meta-manifest's text begins with is 1.
fn is_taken(text: &[u8]) -> bool
    ensures { (m : Meta) → read_meta text.now ≡ Some m → result ≡ is_taken_version m.version }
{
    let mut reader = Reader::new(text);
    match reader.be32() {
        Ok(version) => version == 1,
        Err(_) => false,
    }
}

fn is_piece(pieces: &[Hash32], index: usize, bytes: &[u8]) -> bool
    ensures { result ≡ is_this_piece (suc index == length pieces.now) bytes.now (slice_get pieces.now index) }
{
    match pieces.get(index) {
        Some(hash) => {
            is_piece_size(bytes.len(), index + 1 == pieces.len())
                && is_same(piece_hash(bytes).bytes(), hash.bytes())
        }
        None => false,
    }
}

fn is_chunk(manifest: &Manifest, index: usize, bytes: &[u8]) -> bool
    ensures { result ≡ is_this_chunk manifest.now bytes.now (slice_get manifest.now.chunks index) }
{
    match manifest.chunks.get(index) {
        Some(row) => {
            bytes.len() == row.size as usize
                && is_same(chunk_hash(bytes).bytes(), row.hash.bytes())
                && (row_version(manifest, row) == 1 || !is_zeros(bytes))
        }
        None => false,
    }
}

// The version by which the chunks of this row's file have rows: 1 in the last file, which is the system text.
fn row_version(manifest: &Manifest, row: &ChunkRow) -> u32
    ensures { result ≡ version_of_row manifest.now row.now }
{
    if row.file as usize == manifest.files.len().saturating_sub(1) {
        1
    } else {
        manifest.version
    }
}

// 4,096 bytes, or 1 to 4,096 in the last piece.
fn is_piece_size(size: usize, is_last: bool) -> bool
    ensures { result ≡ (if is_last then nat_lt 0 size && nat_le size piece_size else size == piece_size) }
{
    if is_last {
        0 < size && size <= PIECE_SIZE
    } else {
        size == PIECE_SIZE
    }
}
