//! Witnesses checked against a root.

ghost use Rattle.std.specs.Prelude.{◌≡◌, IfOk};
ghost use Rattle.witness.specs.Answers.{answer_of_look, answer_of_check, Checks, TellsTruth};

use crate::error::WitnessError;
use crate::looking::{Looked, lookup};
use crate::reading::from_cbor;
use byte_codec::{Blob, NoMemory};
use hash_domain::Hash32;
use hash_tree::reconstruct;
use std::alloc::Global;
use sys_state::Path;

/// What a checked witness tells of a path.
#[derive(Debug, Drop)]
pub enum Checked {
    /// The bytes of the leaf at it.
    Found(Blob),
    /// Nothing is there.
    Absent,
    /// The witness doesn't show it.
    Unknown,
    /// It ends above a leaf, or goes on below one.
    Error,
}

/// What the witness in these bytes tells of a path, in a tree of this root. BadWitness where the bytes spell no tree;
/// then WrongRoot where the tree has another hash, with that hash.
pub fn check(
    alloc: Global,
    root: &Hash32,
    bytes: &[u8],
    path: &Path,
) -> Result<Checked, WitnessError>
    ensures answer { Checks root.now bytes.now path.now result }
    ensures truth { IfOk result (λ told. TellsTruth root.now bytes.now path.now told) }
{
    let tree = from_cbor(alloc, bytes)?;
    let hash = reconstruct(&tree);
    if hash != *root {
        return Err(WitnessError::WrongRoot(hash));
    }
    Ok(owned(alloc, lookup(&tree, path))?)
}

fn owned(alloc: Global, told: Looked) -> Result<Checked, NoMemory>
    ensures { IfOk result (λ own. answer_of_check own ≡ answer_of_look told.entry) }
{
    Ok(match told {
        Looked::Found(bytes) => Checked::Found(Blob::from_slice(alloc, bytes)?),
        Looked::Absent => Checked::Absent,
        Looked::Unknown => Checked::Unknown,
        Looked::Error => Checked::Error,
    })
}
