//! Trees spelled in CBOR (RFC 8949) with the shortest heads.

ghost use Rattle.std.specs.Prelude.{◌≡◌, Ok, IfOk};
ghost use Rattle.byte_codec.specs.Gives.{Writes};
ghost use Rattle.tree_spec.specs.Cbor.{cbor, byte_string, string_head, read_tree, IsSpellable};
ghost use Rattle.hash_tree.specs.View.{tree_view};
ghost use Rattle.witness.specs.Answers.{Spells};

use byte_codec::{Blob, NoMemory, Writer};
use hash_tree::HashTree;
use std::alloc::Global;

/// The CBOR of a tree, without the tag in front. A well-formed tree at most 256 deep is read again from it. Takes stack
/// by the depth.
pub fn to_cbor(alloc: Global, tree: &HashTree) -> Result<Blob, NoMemory>
    ensures spelled { IfOk result (λ text. text ≡ cbor (tree_view tree.now)) }
    ensures read_again { IsSpellable (tree_view tree.now) → IfOk result (λ text. read_tree text ≡ Ok (tree_view tree.now)) }
{
    let mut out = Writer::new(alloc);
    write_tree(&mut out, tree)?;
    Ok(out.into_blob())
}

#[tactic(auto, unfolding(tree_spec::specs::Cbor::cbor))]
fn write_tree(out: &mut Writer, tree: &HashTree) -> Result<(), NoMemory>
    ensures { Spells result out.old out.new (cbor (tree_view tree.now)) }
{
    match tree {
        HashTree::Empty => out.bytes(b"\x81\x00"),
        HashTree::Fork(left, right) => {
            out.bytes(b"\x83\x01")?;
            write_tree(out, left)?;
            write_tree(out, right)
        }
        HashTree::Labeled(label, below) => {
            out.bytes(b"\x83\x02")?;
            write_string(out, label.bytes())?;
            write_tree(out, below)
        }
        HashTree::Leaf(bytes) => {
            out.bytes(b"\x82\x03")?;
            write_string(out, bytes.bytes())
        }
        HashTree::Pruned(hash) => {
            out.bytes(b"\x82\x04")?;
            write_string(out, hash.bytes())
        }
    }
}

fn write_string(out: &mut Writer, string: &[u8]) -> Result<(), NoMemory>
    ensures { Spells result out.old out.new (byte_string string.now) }
{
    write_head(out, string.len() as u64)?;
    out.bytes(string)
}

fn write_head(out: &mut Writer, count: u64) -> Result<(), NoMemory>
    ensures { Spells result out.old out.new (string_head count) }
{
    if count < 24 {
        out.u8(0x40 + count as u8)
    } else if count < 1 << 8 {
        out.u8(0x58)?;
        out.u8(count as u8)
    } else if count < 1 << 16 {
        out.u8(0x59)?;
        out.be16(count as u16)
    } else if count < 1 << 32 {
        out.u8(0x5a)?;
        out.be32(count as u32)
    } else {
        out.u8(0x5b)?;
        out.be64(count)
    }
}
