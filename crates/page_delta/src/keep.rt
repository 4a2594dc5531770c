//! Trees with the entries of others whose stamp is above a bound.

ghost use Rattle.std.specs.Prelude.{◌≡◌, ◌≢◌, ℕ, ◌<◌, None, Some, IsSome, IfOk, OnErr};
ghost use Rattle.page_delta.specs.Nodes.{node_at, level_in};
ghost use Rattle.page_delta.specs.Roots.{root_at, map_below, node_of, size_of, kept_of, hung, IsSmall, AreSound, IsHeld, KeepsTree, HasNewer, KeepsRoot};
ghost use Rattle.page_delta.specs.Shared.{Stands, Grows, KeepsBytes};
ghost use Rattle.page_delta.specs.declared.node.Node.{Node as Held_node};

use crate::node::Node;
use crate::roots::{Root, make_id, make_room};
use crate::tree::{link, put, release, share};
use byte_codec::NoMemory;
use page_pool::PagePool;
use slab::Slab;

// A leaf with the entries of another whose stamp is above `b`, if there are any.
fn keep_leaf(
    nodes: &mut Slab<Node>,
    pool: &mut PagePool,
    from: usize,
    b: u64,
) -> Result<Option<Root>, NoMemory>
    requires stands { Stands nodes.old.slots pool.old }
    requires from { IsSome (node_at nodes.old.slots from) }
    requires level { level_in (node_at nodes.old.slots from) ≡ 0 }
    ensures keeps { KeepsTree nodes.old.slots nodes.new.slots pool.old pool.new (node_of (kept_of result)) }
    ensures newer { IfOk result (λ kept. HasNewer nodes.old.slots nodes.new.slots from 0 b kept) }
    ensures small { IfOk result IsSmall }
{
    let (kept, pages) = nodes[from].newer(b);
    if pages == 0 {
        return Ok(None);
    }
    make_room(nodes, 1)?;
    share(nodes, pool, &kept);
    let node = put(nodes, kept);
    Ok(Some(Root { node, pages }))
}

// Gives a branch the kept tree as a child at a digit, if there is one, and answers how many pages that has.
fn hang(nodes: &mut Slab<Node>, parent: usize, digit: u32, kept: Option<Root>) -> u32
    requires parent { IsSome (node_at nodes.old.slots parent) }
    requires digit { digit < 32 }
    requires small { IsSmall kept }
    ensures size { result ≡ size_of kept }
    ensures now { (node : Held_node) → node_at nodes.old.slots parent ≡ Some node → node_at nodes.new.slots parent ≡ Some (hung node digit (node_of kept)) }
    ensures rest { (m : ℕ) → m ≢ parent → node_at nodes.new.slots m ≡ node_at nodes.old.slots m }
    ensures same { node_of kept ≡ None → nodes.new.slots ≡ nodes.old.slots }
    ensures grows { Grows nodes.old nodes.new 0 }
{
    match kept {
        None => 0,
        Some(root) => {
            link(nodes, parent, digit, root.node);
            root.pages
        }
    }
}

// A tree with the entries of another whose stamp is above `b`, if there are any. Each node of that one is read once.
fn keep_below(
    nodes: &mut Slab<Node>,
    pool: &mut PagePool,
    from: usize,
    level: u32,
    b: u64,
) -> Result<Option<Root>, NoMemory>
    requires stands { Stands nodes.old.slots pool.old }
    requires from { IsSome (node_at nodes.old.slots from) }
    requires level { level_in (node_at nodes.old.slots from) ≡ level }
    ensures keeps { KeepsTree nodes.old.slots nodes.new.slots pool.old pool.new (node_of (kept_of result)) }
    ensures newer { IfOk result (λ kept. HasNewer nodes.old.slots nodes.new.slots from level b kept) }
    ensures small { IfOk result IsSmall }
{
    if level == 0 {
        return keep_leaf(nodes, pool, from, b);
    }
    make_room(nodes, 1)?;
    let node = put(nodes, Node::empty(level));
    let mut pages = 0;
    for digit in 0..32 {
        if let Some(child) = nodes[from].child(digit) {
            match keep_below(nodes, pool, child, level - 1, b) {
                Ok(kept) => pages += hang(nodes, node, digit, kept),
                Err(err) => {
                    release(nodes, pool, node, level);
                    return Err(err);
                }
            }
        }
    }
    if pages == 0 {
        release(nodes, pool, node, level);
        return Ok(None);
    }
    Ok(Some(Root { node, pages }))
}

// A tree, which may be empty, with the entries of another whose stamp is above `b`.
fn keep_tree(
    nodes: &mut Slab<Node>,
    pool: &mut PagePool,
    from: usize,
    b: u64,
) -> Result<Root, NoMemory>
    requires stands { Stands nodes.old.slots pool.old }
    requires from { IsSome (node_at nodes.old.slots from) }
    requires level { level_in (node_at nodes.old.slots from) ≡ 3 }
    ensures keeps { IfOk result (λ root. KeepsTree nodes.old.slots nodes.new.slots pool.old pool.new (Some root.node)) }
    ensures newer { IfOk result (λ root. HasNewer nodes.old.slots nodes.new.slots from 3 b (Some root)) }
    ensures err { OnErr result (KeepsTree nodes.old.slots nodes.new.slots pool.old pool.new None) }
{
    if let Some(root) = keep_below(nodes, pool, from, 3, b)? {
        return Ok(root);
    }
    make_room(nodes, 1)?;
    let node = put(nodes, Node::empty(3));
    Ok(Root { node, pages: 0 })
}

// An id for the entries of a map whose stamp is above `b`.
pub(crate) fn keep_root(
    nodes: &mut Slab<Node>,
    ids: &mut Slab<Root>,
    pool: &mut PagePool,
    id: u32,
    b: u64,
) -> Result<u32, NoMemory>
    requires kept { AreSound nodes.old.slots ids.old.slots }
    requires held { IsHeld nodes.old.slots pool.old (λ slot. 0) }
    requires live { IsSome (root_at ids.old.slots id) }
    ensures kept { AreSound nodes.new.slots ids.new.slots }
    ensures held { IsHeld nodes.new.slots pool.new (λ slot. 0) }
    ensures added { IfOk result (λ kept. KeepsRoot nodes.old.slots nodes.new.slots ids.old.slots ids.new.slots id kept b) }
    ensures err { OnErr result ((other : ℕ) → map_below nodes.new.slots (root_at ids.new.slots other) ≡ map_below nodes.old.slots (root_at ids.old.slots other)) }
    ensures keeps { KeepsBytes pool.old pool.new }
{
    let kept = make_id(ids)?;
    let root = keep_tree(nodes, pool, ids[id as usize].node, b)?;
    ids.insert_reserved(root);
    Ok(kept)
}
