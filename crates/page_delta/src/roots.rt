//! Roots of trees, each under an id.

ghost use Rattle.std.specs.Prelude.{◌≡◌, ◌≢◌, ℕ, ◌+◌, ◌%◌, ◌^◌, ◌<◌, ◌≤◌, [], Some, None, IsSome, IfSome, OnOk, OnErr, IfOk};
ghost use Rattle.slab.specs.Slab.{HasRoomFor, slab_len};
ghost use Rattle.page_pool.specs.Pool.{count_at};
ghost use Rattle.page_delta.specs.Delta.{uses};
ghost use Rattle.page_delta.specs.Nodes.{node_at, count_in};
ghost use Rattle.page_delta.specs.Roots.{root_at, map_below, AreSound, IsHeld, AddsRoot, ForksRoot, PutsOwn, PutsAt, IsOwnPlace};
ghost use Rattle.page_delta.specs.Shared.{Grows, KeepsBytes, KeepsPlaces, StandsAt, IsCounted};
ghost use Rattle.page_delta.specs.declared.roots.Root.{Root as Held_root};

use crate::entry::Entry;
use crate::node::Node;
use crate::tree::{copy, insert, look, lower, own_leaf, put, raise, release};
use byte_codec::NoMemory;
use page_pool::{PagePool, SlotId};
use slab::Slab;

// So many nodes and ids at most: then no count reaches 2^32, since a node has 32 places.
pub(crate) const MAX_NODES: usize = 0x0400_0000;

pub(crate) const MAX_IDS: usize = 0x8000_0000;

// The root of a map, and how many pages it has.
#[derive(Clone, Copy, Drop)]
pub(crate) struct Root {
    pub(crate) node: usize,
    pub(crate) pages: u32,
}

// Where a page stands that no other map has, and its slot that no other leaf has.
#[derive(Drop)]
pub(crate) struct OwnPlace {
    pub(crate) leaf: usize,
    pub(crate) slot: SlotId,
}

// Takes memory for so many nodes, whose keys will be below the mark of `Children`. Nothing else changes.
pub(crate) fn make_room(nodes: &mut Slab<Node>, more: usize) -> Result<(), NoMemory>
    requires { more < 2 ^ 10 }
    ensures nodes { nodes.new.slots ≡ nodes.old.slots }
    ensures room { OnOk result (HasRoomFor nodes.new more) }
    ensures keys { OnOk result (nodes.new.capacity < 2 ^ 32) }
    ensures few { OnOk result (slab_len nodes.new + more ≤ 2 ^ 26) }
{
    if nodes.len() >= MAX_NODES - more {
        return Err(NoMemory);
    }
    nodes.reserve(more)?;
    if nodes.capacity() > u32::MAX as usize {
        return Err(NoMemory);
    }
    Ok(())
}

// Takes memory for an id, and answers it. Nothing else changes.
pub(crate) fn make_id(ids: &mut Slab<Root>) -> Result<u32, NoMemory>
    ensures ids { ids.new.slots ≡ ids.old.slots }
    ensures room { OnOk result (HasRoomFor ids.new 1) }
    ensures few { OnOk result (slab_len ids.new + 1 ≤ 2 ^ 31) }
    ensures id { IfOk result (λ id. id ≡ ids.new.vacant_key) }
{
    if ids.len() >= MAX_IDS {
        return Err(NoMemory);
    }
    ids.reserve(1)?;
    let Ok(id) = u32::try_from(ids.vacant_key()) else {
        return Err(NoMemory);
    };
    Ok(id)
}

// The root of an id, which no other id has: the one that it has, or a copy.
fn own_root(nodes: &mut Slab<Node>, ids: &mut Slab<Root>, pool: &mut PagePool, id: usize) -> usize
    requires kept { AreSound nodes.old.slots ids.old.slots }
    requires held { (loose : ℕ → ℕ) × IsHeld nodes.old.slots pool.old loose × ((slot : ℕ) → loose slot ≤ 1) }
    requires live { IsSome (root_at ids.old.slots id) }
    requires room { HasRoomFor nodes.old 1 }
    requires keys { nodes.old.capacity < 2 ^ 32 }
    requires few { slab_len nodes.old + 1 ≤ 2 ^ 26 }
    ensures kept { AreSound nodes.new.slots ids.new.slots }
    ensures held { (loose : ℕ → ℕ) → IsHeld nodes.old.slots pool.old loose → IsHeld nodes.new.slots pool.new loose }
    ensures own { count_in (node_at nodes.new.slots result) ≡ 1 }
    ensures root { (root : Held_root) → root_at ids.new.slots id ≡ Some root → root.node ≡ result }
    ensures live { IsSome (root_at ids.new.slots id) }
    ensures maps { (other : ℕ) → map_below nodes.new.slots (root_at ids.new.slots other) ≡ map_below nodes.old.slots (root_at ids.old.slots other) }
    ensures places { KeepsPlaces nodes.old.slots nodes.new.slots }
    ensures grows { Grows nodes.old nodes.new 1 }
    ensures keeps { KeepsBytes pool.old pool.new }
{
    let root = ids[id].node;
    if nodes[root].count() == 1 {
        return root;
    }
    let own = copy(nodes, pool, root);
    ids[id].node = own;
    lower(nodes, root);
    own
}

// An id for an empty map.
pub(crate) fn new_root(nodes: &mut Slab<Node>, ids: &mut Slab<Root>) -> Result<u32, NoMemory>
    requires { AreSound nodes.old.slots ids.old.slots }
    ensures kept { AreSound nodes.new.slots ids.new.slots }
    ensures added { IfOk result (λ id. AddsRoot nodes.old.slots nodes.new.slots ids.old.slots ids.new.slots id []) }
    ensures err { OnErr result (nodes.new.slots ≡ nodes.old.slots) }
    ensures err_ids { OnErr result (ids.new.slots ≡ ids.old.slots) }
{
    make_room(nodes, 1)?;
    let id = make_id(ids)?;
    let node = put(nodes, Node::empty(3));
    ids.insert_reserved(Root { node, pages: 0 });
    Ok(id)
}

// Another id for the map of one.
pub(crate) fn fork_root(
    nodes: &mut Slab<Node>,
    ids: &mut Slab<Root>,
    id: u32,
) -> Result<u32, NoMemory>
    requires kept { AreSound nodes.old.slots ids.old.slots }
    requires live { IsSome (root_at ids.old.slots id) }
    ensures kept { AreSound nodes.new.slots ids.new.slots }
    ensures added { IfOk result (λ fork. ForksRoot nodes.old.slots nodes.new.slots ids.old.slots ids.new.slots id fork) }
    ensures err { OnErr result (nodes.new.slots ≡ nodes.old.slots) }
    ensures err_ids { OnErr result (ids.new.slots ≡ ids.old.slots) }
{
    let fork = make_id(ids)?;
    let root = ids[id as usize];
    raise(nodes, root.node);
    ids.insert_reserved(root);
    Ok(fork)
}

// Where a page of a map stands, if no other map has it and its slot is counted once.
pub(crate) fn own_place(
    nodes: &Slab<Node>,
    ids: &Slab<Root>,
    pool: &PagePool,
    id: u32,
    page: u32,
) -> Option<OwnPlace>
    requires kept { AreSound nodes.now.slots ids.now.slots }
    requires held { IsHeld nodes.now.slots pool.now (λ slot. 0) }
    requires live { IsSome (root_at ids.now.slots id) }
    ensures own { IfSome result (λ own. IsOwnPlace nodes.now.slots ids.now.slots pool.now id page own.leaf own.slot) }
    ensures some { (leaf slot : ℕ) → IsOwnPlace nodes.now.slots ids.now.slots pool.now id page leaf slot → IsSome result }
{
    let leaf = own_leaf(nodes, ids[id as usize].node, page)?;
    let entry = nodes[leaf].entry(page % 32)?;
    if pool.count(entry.slot) != 1 {
        return None;
    }
    let slot = entry.slot;
    Some(OwnPlace { leaf, slot })
}

// Puts an entry at a page of the tree of an id, whose root is made its own, and answers what was there before. There is
// room for four nodes, the slot is counted for the entry, and no leaf has it at another place.
fn put_own(
    nodes: &mut Slab<Node>,
    ids: &mut Slab<Root>,
    pool: &mut PagePool,
    id: u32,
    page: u32,
    entry: Entry,
) -> Option<Entry>
    requires kept { AreSound nodes.old.slots ids.old.slots }
    requires held { IsHeld nodes.old.slots pool.old (λ slot. uses slot (Some entry)) }
    requires live { IsSome (root_at ids.old.slots id) }
    requires placed { StandsAt nodes.old.slots entry.slot (page % 32) }
    requires room { HasRoomFor nodes.old 4 }
    requires keys { nodes.old.capacity < 2 ^ 32 }
    requires few { slab_len nodes.old + 4 ≤ 2 ^ 26 }
    ensures puts { PutsOwn nodes.old.slots nodes.new.slots ids.old.slots ids.new.slots (count_at pool.new) id page entry result }
    ensures counted { IsCounted pool.new }
    ensures keeps { KeepsBytes pool.old pool.new }
{
    let root = own_root(nodes, ids, pool, id as usize);
    let before = look(nodes, root, page);
    insert(nodes, pool, root, page, entry);
    before
}

// Puts an entry at a page of a map. There is room for four nodes, the slot is counted for the entry, and no leaf has it at
// another place.
pub(crate) fn put_entry(
    nodes: &mut Slab<Node>,
    ids: &mut Slab<Root>,
    pool: &mut PagePool,
    id: u32,
    page: u32,
    entry: Entry,
)
    requires kept { AreSound nodes.old.slots ids.old.slots }
    requires held { IsHeld nodes.old.slots pool.old (λ slot. uses slot (Some entry)) }
    requires live { IsSome (root_at ids.old.slots id) }
    requires page { page < 2 ^ 20 }
    requires placed { StandsAt nodes.old.slots entry.slot (page % 32) }
    requires room { HasRoomFor nodes.old 4 }
    requires keys { nodes.old.capacity < 2 ^ 32 }
    requires few { slab_len nodes.old + 4 ≤ 2 ^ 26 }
    ensures kept { AreSound nodes.new.slots ids.new.slots }
    ensures held { IsHeld nodes.new.slots pool.new (λ slot. 0) }
    ensures put { PutsAt nodes.old.slots nodes.new.slots ids.old.slots ids.new.slots id page entry }
    ensures keeps { KeepsBytes pool.old pool.new }
{
    match put_own(nodes, ids, pool, id, page, entry) {
        Some(before) => pool.release(before.slot),
        None => ids[id as usize].pages += 1,
    }
}

// Takes an id away, and releases its tree.
pub(crate) fn drop_root(nodes: &mut Slab<Node>, ids: &mut Slab<Root>, pool: &mut PagePool, id: u32)
    requires kept { AreSound nodes.old.slots ids.old.slots }
    requires held { IsHeld nodes.old.slots pool.old (λ slot. 0) }
    requires live { IsSome (root_at ids.old.slots id) }
    ensures kept { AreSound nodes.new.slots ids.new.slots }
    ensures held { IsHeld nodes.new.slots pool.new (λ slot. 0) }
    ensures gone { root_at ids.new.slots id ≡ None }
    ensures others { (other : ℕ) → other ≢ id → map_below nodes.new.slots (root_at ids.new.slots other) ≡ map_below nodes.old.slots (root_at ids.old.slots other) }
    ensures keeps { KeepsBytes pool.old pool.new }
    ensures none { ((other : ℕ) → root_at ids.new.slots other ≡ None) → (slot : ℕ) → count_at pool.new slot ≡ 0 }
{
    let root = ids.remove(id as usize);
    release(nodes, pool, root.node, 3);
}
