//! The tree of a state.

ghost use Rattle.std.specs.Prelude.{◌≡◌, IfOk, OnOk, OnErr};
ghost use Rattle.format_spec.specs.Bytes.{leb};
ghost use Rattle.tree_spec.specs.Tree.{reconstruct as hash_of_tree};
ghost use Rattle.tree_spec.specs.Labelled.{child_trees, root_children, state_tree};
ghost use Rattle.sys_state.specs.System.{part_of};
ghost use Rattle.hash_tree.specs.Hashes.{AreHashesOf};
ghost use Rattle.hash_tree.specs.Stack.{Pushes};
ghost use Rattle.hash_tree.specs.View.{tree_view};

use crate::branch::Branch;
use crate::canisters::push_canisters;
use crate::entries::{first_above, push_level};
use crate::forks::take_forks;
use crate::hashes::TreeHashes;
use crate::tree::HashTree;
use byte_codec::{Blob, NoMemory, Writer, leb_write};
use hash_domain::Hash32;
use std::alloc::Global;
use std::marker::Model;
use sys_state::SysState;

/// The tree of a state, with the hash of each of its parts. Contracts see the tree.
#[derive(Debug, Drop)]
pub struct StateTree {
    whole: Branch,
}

impl Model for StateTree {
    ghost use Rattle.hash_tree.specs.declared.tree.HashTree.{HashTree};
    ghost use Rattle.hash_tree.specs.contracts.tree.HashTree as trees;
    ghost use Rattle.std.specs.Coded.{codes};

    ghost Value = { HashTree };

    ghost coded = { Prim.hlevel (codes, trees.the_row.coded) };

    ghost view = { λ tree. tree.whole };
}

impl StateTree {
    /// The tree of a state. Each part of it is hashed once. NoMemory where memory runs out.
    pub fn build(alloc: Global, sys: &SysState) -> Result<StateTree, NoMemory>
        ensures { IfOk result (λ tree. tree_view tree ≡ state_tree (part_of sys.now)) }
    {
        let mut branches = Vec::new(alloc);
        push_children(alloc, sys, &mut branches)?;
        let count = branches.len();
        Ok(StateTree {
            whole: take_forks(alloc, &mut branches, count)?,
        })
    }

    /// Makes it the tree of this state. NoMemory where memory runs out; it is then as it was.
    pub fn update(&mut self, alloc: Global, sys: &SysState) -> Result<(), NoMemory>
        ensures updated { OnOk result (tree_view self.new ≡ state_tree (part_of sys.now)) }
        ensures unchanged { OnErr result (self.new ≡ self.old) }
    {
        *self = StateTree::build(alloc, sys)?;
        Ok(())
    }

    /// The tree.
    pub fn tree(&self) -> &HashTree
        ensures { result.now ≡ self.now }
    {
        self.whole.tree()
    }

    /// The hashes of the tree's parts. They are kept, and not computed again.
    pub fn hashes(&self) -> &TreeHashes
        ensures { AreHashesOf result.now (tree_view self.now) }
    {
        self.whole.hashes()
    }

    /// The hash of the tree. It is kept, and not computed again.
    pub fn root(&self) -> Hash32
        ensures { result ≡ hash_of_tree (tree_view self.now) }
    {
        self.hashes().hash()
    }
}

// The branches of a state in order of their labels.
fn push_children(alloc: Global, sys: &SysState, branches: &mut Vec<Branch>) -> Result<(), NoMemory>
    ensures { IfOk result (λ _. Pushes branches.old.items branches.new.items (child_trees (root_children (part_of sys.now)))) }
{
    let entries = sys.entries();
    let canisters = first_above(sys, 0, b"canister");
    let time = first_above(sys, canisters, b"time");
    push_level(alloc, sys, 0, canisters, 0, branches)?;
    push_canisters(alloc, sys, branches)?;
    push_level(alloc, sys, canisters, time, 0, branches)?;
    branches.push(Branch::leaf_under(alloc, b"time", leb_of(alloc, sys.time())?)?)?;
    push_level(alloc, sys, time, entries, 0, branches)
}

fn leb_of(alloc: Global, time: u64) -> Result<Blob, NoMemory>
    ensures { IfOk result (λ blob. blob ≡ leb time) }
{
    let mut out = Writer::new(alloc);
    leb_write(time, &mut out)?;
    Ok(out.into_blob())
}
