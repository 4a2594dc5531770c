//! Hash trees, as the Internet Computer Interface Specification has them in its part "Certification".

ghost use Rattle.std.specs.Prelude.{◌≡◌, IfOk};
ghost use Rattle.tree_spec.specs.Tree.{reconstruct as hash_of_tree, fork, labeled};
ghost use Rattle.hash_tree.specs.View.{tree_view};

use byte_codec::{Blob, NoMemory};
use hash_domain::{Hash32, tree_empty, tree_fork, tree_label, tree_leaf};
use std::alloc::Global;

/// A hash tree. Contracts see it as `tree_view` of it.
#[derive(Debug, Drop)]
pub enum HashTree {
    /// Nothing.
    Empty,
    /// Two trees side by side, in order of their labels.
    Fork(Box<HashTree>, Box<HashTree>),
    /// A tree below a label.
    Labeled(Blob, Box<HashTree>),
    /// A value.
    Leaf(Blob),
    /// A tree that is left out, as its hash.
    Pruned(Hash32),
}

impl HashTree {
    /// Two trees side by side. NoMemory where memory runs out.
    pub fn fork(alloc: Global, left: HashTree, right: HashTree) -> Result<HashTree, NoMemory>
        ensures { IfOk result (λ t. tree_view t ≡ fork (tree_view left) (tree_view right)) }
    {
        Ok(HashTree::Fork(Box::new(alloc, left)?, Box::new(alloc, right)?))
    }

    /// A tree below a label. NoMemory where memory runs out.
    pub fn labeled(alloc: Global, label: Blob, below: HashTree) -> Result<HashTree, NoMemory>
        ensures { IfOk result (λ t. tree_view t ≡ labeled label (tree_view below)) }
    {
        Ok(HashTree::Labeled(label, Box::new(alloc, below)?))
    }
}

/// The hash of a tree. It calls itself once for each tree within another, so it takes stack by the depth.
#[tactic(auto, unfolding(tree_spec::specs::Tree::reconstruct))]
pub fn reconstruct(tree: &HashTree) -> Hash32
    ensures { result ≡ hash_of_tree (tree_view tree.now) }
{
    match tree {
        HashTree::Empty => tree_empty(),
        HashTree::Fork(left, right) => tree_fork(&reconstruct(left), &reconstruct(right)),
        HashTree::Labeled(label, below) => tree_label(label.bytes(), &reconstruct(below)),
        HashTree::Leaf(bytes) => tree_leaf(bytes.bytes()),
        HashTree::Pruned(hash) => *hash,
    }
}
