//! Trees read from their CBOR, with the place of the first bad field.

ghost use Rattle.std.specs.Prelude.{◌≡◌, ◌⊎◌, ◌++◌, Ok, IfOk, option_map};
ghost use Rattle.format_spec.specs.Fields.{Cursor};
ghost use Rattle.tree_spec.specs.Cbor.{cbor, tag, read_tree, tree_within, behind_tag, last_label, IsSpellable};
ghost use Rattle.hash_tree.specs.View.{tree_view};
ghost use Rattle.byte_codec.specs.Gives as fields;
ghost use Rattle.witness.specs.Gives.{Gives};

use crate::error::WitnessError;
use crate::fields::{read_array_head, read_hash, read_kind, read_label, read_value};
use byte_codec::{Blob, FieldError, Reader};
use format_spec::MAX_DEPTH;
use hash_tree::HashTree;
use std::alloc::Global;

/// The tag that may stand once in front, 55799 (RFC 8949, 3.4.6).
const TAG: &[u8] = b"\xd9\xd9\xf7";

/// The tree that bytes spell: well-formed, at most 256 deep, with the shortest heads and with the tag in front or
/// without. BadWitness with the place where they spell none.
pub fn from_cbor(alloc: Global, bytes: &[u8]) -> Result<HashTree, WitnessError>
    ensures value { Gives tree_view result (read_tree bytes.now) }
    ensures spelled { IfOk result (λ t. (bytes.now ≡ cbor (tree_view t)) ⊎ (bytes.now ≡ tag ++ cbor (tree_view t))) }
    ensures good { IfOk result (λ t. IsSpellable (tree_view t)) }
{
    Ok(read_whole(alloc, bytes)?)
}

#[tactic(auto, unfolding(tree_spec::specs::Cbor::read_tree))]
fn read_whole(alloc: Global, bytes: &[u8]) -> Result<HashTree, FieldError>
    ensures value { fields.Gives tree_view result (read_tree bytes.now) }
    ensures spelled { IfOk result (λ t. (bytes.now ≡ cbor (tree_view t)) ⊎ (bytes.now ≡ tag ++ cbor (tree_view t))) }
    ensures good { IfOk result (λ t. IsSpellable (tree_view t)) }
{
    let mut reader = after_tag(bytes);
    let level = read_within(alloc, &mut reader, MAX_DEPTH as u32, false, None)?;
    if reader.left() != 0 {
        return Err(FieldError::Bad(reader.at() as u64));
    }
    Ok(level.tree)
}

fn after_tag<'a>(bytes: &'a [u8]) -> Reader<'a>
    ensures { result ≡ behind_tag bytes.now }
{
    let mut reader = Reader::new(bytes);
    if bytes.starts_with(TAG) {
        reader.skip(TAG.len());
    }
    reader
}

// A tree, and the last label of its level so far.
#[derive(Drop)]
struct Level<'a> {
    tree: HashTree,
    last: Option<&'a [u8]>,
}

// A tree with at most so many within each other, in a fork or not, behind the last label of its level.
fn read_within<'a>(
    alloc: Global,
    reader: &mut Reader<'a>,
    room: u32,
    in_fork: bool,
    last: Option<&'a [u8]>,
) -> Result<Level<'a>, FieldError>
    ensures value { fields.Gives (λ level. (tree_view level.tree, reader.new)) result (tree_within room in_fork (option_map (λ s. s.now) last.entry) reader.old) }
    ensures last { IfOk result (λ level. option_map (λ s. s.now) level.last ≡ last_label (option_map (λ s. s.now) last.entry) (tree_view level.tree)) }
{
    if room == 0 {
        return Err(FieldError::Bad(reader.at() as u64));
    }
    let head = read_array_head(reader)?;
    match read_kind(reader, head, in_fork)? {
        0 => Ok(Level {
            tree: HashTree::Empty,
            last,
        }),
        1 => {
            let left = read_within(alloc, reader, room - 1, true, last)?;
            let right = read_within(alloc, reader, room - 1, true, left.last)?;
            let tree = HashTree::fork(alloc, left.tree, right.tree)?;
            Ok(Level {
                tree,
                last: right.last,
            })
        }
        2 => {
            let label = read_label(reader, last)?;
            let below = read_within(alloc, reader, room - 1, false, None)?;
            let tree = HashTree::labeled(alloc, Blob::from_slice(alloc, label)?, below.tree)?;
            Ok(Level {
                tree,
                last: Some(label),
            })
        }
        3 => Ok(Level {
            tree: HashTree::Leaf(read_value(alloc, reader)?),
            last,
        }),
        _ => Ok(Level {
            tree: HashTree::Pruned(read_hash(reader)?),
            last,
        }),
    }
}
