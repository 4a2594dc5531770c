//! A part of a tree with its hashes, so that each part is hashed once.

ghost use Rattle.std.specs.Prelude.{◌≡◌, IfOk};
ghost use Rattle.tree_spec.specs.Tree.{empty, fork, labeled, leaf};
ghost use Rattle.hash_tree.specs.Hashes.{AreHashesOf};
ghost use Rattle.hash_tree.specs.View.{tree_view};

use crate::hashes::TreeHashes;
use crate::tree::HashTree;
use byte_codec::{Blob, NoMemory};
use hash_domain::{tree_empty, tree_leaf};
use std::alloc::Global;
use std::marker::Model;

#[derive(Debug, Drop)]
pub(crate) struct Branch {
    tree: HashTree,
    hashes: TreeHashes,
}

// Contracts see the tree.
impl Model for Branch {
    ghost use Rattle.hash_tree.specs.declared.tree.HashTree.{HashTree};
    ghost use Rattle.hash_tree.specs.Hashes.{AreHashesOf};
    ghost use Rattle.hash_tree.specs.View.{tree_view};
    ghost use Rattle.hash_tree.specs.contracts.tree.HashTree as trees;
    ghost use Rattle.std.specs.Coded.{codes};

    ghost Value = { HashTree };

    ghost coded = { Prim.hlevel (codes, trees.the_row.coded) };

    ghost view = { λ branch. branch.tree };

    ghost invariant = { λ branch. AreHashesOf branch.hashes (tree_view branch.tree) };
}

#[tactic(auto, unfolding(tree_spec::specs::Tree::reconstruct))]
impl Branch {
    pub(crate) fn empty() -> Branch
        ensures { tree_view result ≡ empty }
    {
        Branch {
            tree: HashTree::Empty,
            hashes: TreeHashes::Alone(tree_empty()),
        }
    }

    pub(crate) fn leaf(bytes: Blob) -> Branch
        ensures { tree_view result ≡ leaf bytes }
    {
        let hash = tree_leaf(bytes.bytes());
        Branch {
            tree: HashTree::Leaf(bytes),
            hashes: TreeHashes::Alone(hash),
        }
    }

    // A leaf of these bytes below a label.
    pub(crate) fn leaf_under(alloc: Global, label: &[u8], bytes: Blob) -> Result<Branch, NoMemory>
        ensures { IfOk result (λ b. tree_view b ≡ labeled label.now (leaf bytes)) }
    {
        Branch::leaf(bytes).under(alloc, Blob::from_slice(alloc, label)?)
    }

    // The branch below a label.
    pub(crate) fn under(self, alloc: Global, label: Blob) -> Result<Branch, NoMemory>
        ensures { IfOk result (λ t. tree_view t ≡ labeled label (tree_view self)) }
    {
        let Branch { tree, hashes } = self;
        let hashes = hashes.under(alloc, label.bytes())?;
        Ok(Branch {
            tree: HashTree::labeled(alloc, label, tree)?,
            hashes,
        })
    }

    // The branch, and another on its right side.
    pub(crate) fn beside(self, alloc: Global, right: Branch) -> Result<Branch, NoMemory>
        ensures { IfOk result (λ t. tree_view t ≡ fork (tree_view self) (tree_view right)) }
    {
        let Branch { tree: left, hashes } = self;
        let Branch {
            tree: right,
            hashes: others,
        } = right;
        let hashes = hashes.beside(alloc, others)?;
        Ok(Branch {
            tree: HashTree::fork(alloc, left, right)?,
            hashes,
        })
    }

    pub(crate) fn tree(&self) -> &HashTree
        ensures { result.now ≡ self.now }
    {
        &self.tree
    }

    pub(crate) fn hashes(&self) -> &TreeHashes
        ensures { AreHashesOf result.now (tree_view self.now) }
    {
        &self.hashes
    }
}
