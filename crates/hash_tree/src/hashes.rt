//! The hashes of a tree's parts, kept beside it.

ghost use Rattle.std.specs.Prelude.{◌≡◌, IfOk};
ghost use Rattle.format_spec.specs.Bytes.{Bytes};
ghost use Rattle.tree_spec.specs.Tree.{Tree, reconstruct as hash_of_tree, fork, labeled};
ghost use Rattle.hash_tree.specs.Hashes.{AreHashesOf, AreOfFork, AreOfLabeled};
ghost use Rattle.hash_tree.specs.View.{tree_view};

use crate::tree::HashTree;
use byte_codec::NoMemory;
use hash_domain::{Hash32, tree_empty, tree_fork, tree_label, tree_leaf};
use std::alloc::Global;

/// The hashes of a tree and of each of its parts, in the form of the tree.
#[derive(Debug, Drop)]
pub enum TreeHashes {
    /// The hash of a tree that has no other in it.
    Alone(Hash32),
    /// The hash of two trees side by side, and the hashes of each.
    Fork(Hash32, Box<TreeHashes>, Box<TreeHashes>),
    /// The hash of a tree below a label, and the hashes of that tree.
    Labeled(Hash32, Box<TreeHashes>),
}

impl TreeHashes {
    /// The hashes of a tree, each of whose parts is hashed once. NoMemory where memory runs out. Takes stack by the depth.
    #[tactic(auto, unfolding(tree_spec::specs::Tree::reconstruct))]
    pub fn of(alloc: Global, tree: &HashTree) -> Result<TreeHashes, NoMemory>
        ensures { IfOk result (λ hashes. AreHashesOf hashes (tree_view tree.now)) }
    {
        match tree {
            HashTree::Empty => Ok(TreeHashes::Alone(tree_empty())),
            HashTree::Fork(left, right) => {
                let left = TreeHashes::of(alloc, left)?;
                let right = TreeHashes::of(alloc, right)?;
                left.beside(alloc, right)
            }
            HashTree::Labeled(label, below) => {
                TreeHashes::of(alloc, below)?.under(alloc, label.bytes())
            }
            HashTree::Leaf(bytes) => Ok(TreeHashes::Alone(tree_leaf(bytes.bytes()))),
            HashTree::Pruned(hash) => Ok(TreeHashes::Alone(*hash)),
        }
    }

    /// The hash of the whole tree.
    pub fn hash(&self) -> Hash32
        ensures { (t : Tree) → AreHashesOf self.now t → result ≡ hash_of_tree t }
    {
        match self {
            TreeHashes::Alone(hash) => *hash,
            TreeHashes::Fork(hash, _, _) => *hash,
            TreeHashes::Labeled(hash, _) => *hash,
        }
    }

    /// The hashes of the left one of two trees side by side.
    pub fn left(&self) -> &TreeHashes
        requires { AreOfFork self.now }
        ensures { (l r : Tree) → AreHashesOf self.now (fork l r) → AreHashesOf result.now l }
    {
        match self {
            TreeHashes::Fork(_, left, _) => left,
            TreeHashes::Alone(_) | TreeHashes::Labeled(_, _) => unreachable!(),
        }
    }

    /// The hashes of the right one of two trees side by side.
    pub fn right(&self) -> &TreeHashes
        requires { AreOfFork self.now }
        ensures { (l r : Tree) → AreHashesOf self.now (fork l r) → AreHashesOf result.now r }
    {
        match self {
            TreeHashes::Fork(_, _, right) => right,
            TreeHashes::Alone(_) | TreeHashes::Labeled(_, _) => unreachable!(),
        }
    }

    /// The hashes of the tree below a label.
    pub fn below(&self) -> &TreeHashes
        requires { AreOfLabeled self.now }
        ensures { (l : Bytes) (t : Tree) → AreHashesOf self.now (labeled l t) → AreHashesOf result.now t }
    {
        match self {
            TreeHashes::Labeled(_, below) => below,
            TreeHashes::Alone(_) | TreeHashes::Fork(_, _, _) => unreachable!(),
        }
    }

    // The hashes of the tree below a label, with the label.
    #[tactic(auto, unfolding(tree_spec::specs::Tree::reconstruct))]
    pub(crate) fn under(self, alloc: Global, label: &[u8]) -> Result<TreeHashes, NoMemory>
        ensures { (t : Tree) → AreHashesOf self t → IfOk result (λ hashes. AreHashesOf hashes (labeled label.now t)) }
    {
        let hash = tree_label(label, &self.hash());
        Ok(TreeHashes::Labeled(hash, Box::new(alloc, self)?))
    }

    // The hashes of the tree beside another on its right side.
    #[tactic(auto, unfolding(tree_spec::specs::Tree::reconstruct))]
    pub(crate) fn beside(self, alloc: Global, right: TreeHashes) -> Result<TreeHashes, NoMemory>
        ensures { (l r : Tree) → AreHashesOf self l → AreHashesOf right r → IfOk result (λ hashes. AreHashesOf hashes (fork l r)) }
    {
        let hash = tree_fork(&self.hash(), &right.hash());
        let left = Box::new(alloc, self)?;
        Ok(TreeHashes::Fork(hash, left, Box::new(alloc, right)?))
    }
}
