//! Paths looked up in a tree, as in the Internet Computer Interface Specification, "Certification".

ghost use Rattle.std.specs.Prelude.{◌≡◌};
ghost use Rattle.tree_spec.specs.Lookup.{lookup as lookup_of, at_end, missing};
ghost use Rattle.tree_spec.specs.Tree.{flatten};
ghost use Rattle.hash_tree.specs.View.{tree_view};
ghost use Rattle.witness.specs.Answers.{answer_of_look};

use crate::level::{find, has_gap, is_one_leaf};
use hash_tree::HashTree;
use sys_state::Path;

/// What a tree tells of a path.
#[derive(Clone, Copy, Debug, PartialEq, Eq)]
pub enum Looked<'a> {
    /// The bytes of the leaf at it.
    Found(&'a [u8]),
    /// Nothing is there.
    Absent,
    /// A part that is left out may have it.
    Unknown,
    /// It ends above a leaf, or goes on below one.
    Error,
}

/// What the tree tells of a path. That a label below a leaf is an error is a choice of this project.
pub fn lookup<'a>(tree: &'a HashTree, path: &Path) -> Looked<'a>
    ensures { answer_of_look result ≡ lookup_of path.now (tree_view tree.now) }
{
    let mut at = tree;
    for label in path.labels() {
        match find(at, label.bytes()) {
            Some(below) => at = below,
            None => return missing(at, label.bytes()),
        }
    }
    at_end(at)
}

// What a path that ends at this tree gives.
fn at_end<'a>(tree: &'a HashTree) -> Looked<'a>
    ensures { answer_of_look result ≡ at_end (tree_view tree.now) }
{
    match tree {
        HashTree::Empty => Looked::Absent,
        HashTree::Fork(_, _) | HashTree::Labeled(_, _) => Looked::Error,
        HashTree::Leaf(bytes) => Looked::Found(bytes.bytes()),
        HashTree::Pruned(_) => Looked::Unknown,
    }
}

// What a label gives that no entry of this level has.
fn missing<'a>(tree: &'a HashTree, label: &[u8]) -> Looked<'a>
    ensures { answer_of_look result ≡ missing label.now (flatten (tree_view tree.now)) }
{
    if has_gap(tree, label) {
        Looked::Absent
    } else if is_one_leaf(tree) {
        Looked::Error
    } else {
        Looked::Unknown
    }
}
