//! The pages of a tree whose stamp is above a bound.

ghost use Rattle.std.specs.Prelude.{◌≡◌, ℕ, ◌+◌, ◌*◌, ◌^◌, ◌<◌, ◌≤◌, ◌++◌, Some, IsSome, IfOk, OnOk};
ghost use Rattle.page_delta.specs.Delta.{pages_after};
ghost use Rattle.page_delta.specs.Nodes.{node_at, level_in, leaf_part, part, pages_below};
ghost use Rattle.page_delta.specs.Shared.{IsShared};

use crate::node::Node;
use byte_codec::NoMemory;
use slab::Slab;
use std::alloc::Global;

// Adds the pages of a leaf whose stamp is above `b`. The digits of its place spell `prefix`.
fn newer_in(leaf: &Node, prefix: u32, b: u64, pages: &mut Vec<u32>) -> Result<(), NoMemory>
    requires { prefix < 2 ^ 15 }
    ensures { OnOk result (pages.new.items ≡ pages.old.items ++ pages_after b (leaf_part (Some leaf.now) prefix 32)) }
{
    for digit in 0..32 {
        if let Some(entry) = leaf.entry(digit) {
            if entry.stamp > b {
                pages.push(prefix * 32 + digit)?;
            }
        }
    }
    Ok(())
}

// Adds the pages of a tree whose stamp is above `b`, ascending. The digits of its place spell `prefix`.
fn newer_below(
    nodes: &Slab<Node>,
    top: usize,
    level: u32,
    prefix: u32,
    b: u64,
    pages: &mut Vec<u32>,
) -> Result<(), NoMemory>
    requires shared { (counts : ℕ → ℕ) × (hands : ℕ → ℕ) × (loose : ℕ → ℕ) × IsShared nodes.now.slots counts hands loose }
    requires top { IsSome (node_at nodes.now.slots top) }
    requires level { level_in (node_at nodes.now.slots top) ≡ level }
    requires prefix { (prefix + 1) * 32 ^ (level + 1) ≤ 2 ^ 20 }
    ensures { OnOk result (pages.new.items ≡ pages.old.items ++ pages_after b (part level nodes.now.slots (Some top) prefix 32)) }
{
    let node = &nodes[top];
    if level == 0 {
        return newer_in(node, prefix, b, pages);
    }
    for digit in 0..32 {
        if let Some(child) = node.child(digit) {
            newer_below(nodes, child, level - 1, prefix * 32 + digit, b, pages)?;
        }
    }
    Ok(())
}

// The pages of a tree whose stamp is above `b`, ascending. Each node is read once.
pub(crate) fn stamped(
    alloc: Global,
    nodes: &Slab<Node>,
    root: usize,
    b: u64,
) -> Result<Vec<u32>, NoMemory>
    requires shared { (counts : ℕ → ℕ) × (hands : ℕ → ℕ) × (loose : ℕ → ℕ) × IsShared nodes.now.slots counts hands loose }
    requires root { level_in (node_at nodes.now.slots root) ≡ 3 }
    ensures { IfOk result (λ pages. pages.items ≡ pages_after b (pages_below nodes.now.slots root)) }
{
    let mut pages = Vec::new(alloc);
    newer_below(nodes, root, 3, 0, b, &mut pages)?;
    Ok(pages)
}
