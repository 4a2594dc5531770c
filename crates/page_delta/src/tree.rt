//! Trees of nodes, which share their parts.

ghost use Rattle.std.specs.Prelude.{◌≡◌, ◌≢◌, ℕ, ◌+◌, ◌-◌, ◌%◌, ◌^◌, ◌<◌, ◌≤◌, List, length, Option, Some, None, IsSome, IfSome, slice_index_or};
ghost use Rattle.slab.specs.Slab.{HasRoomFor, slab_len};
ghost use Rattle.page_pool.specs.Pool.{count_at, IsLive};
ghost use Rattle.page_delta.specs.declared.entry.Entry.{Entry as Held};
ghost use Rattle.page_delta.specs.declared.node.Node.{Node as Held_node};
ghost use Rattle.page_delta.specs.declared.node.Node.TheVariants.{Leaf};
ghost use Rattle.page_delta.specs.Totals.{total};
ghost use Rattle.page_delta.specs.Delta.{uses};
ghost use Rattle.page_delta.specs.Nodes.{node_at, child_in, entry_in, width, count_in, level_in, node_with_count, with_child, with_entry, once, names, with_node, look};
ghost use Rattle.page_delta.specs.Shared.{slots_in, IsShared, IsCounted, IsClosed, Stands, SameLooks, KeepsBytes, Shrinks, Grows, Owned, IsOwnLeaf, Inserts};

use crate::entry::Entry;
use crate::node::Node;
use page_pool::PagePool;
use slab::Slab;

// What a tree has at a page.
pub(crate) fn look(nodes: &Slab<Node>, root: usize, page: u32) -> Option<Entry>
    requires root { IsSome (node_at nodes.now.slots root) }
    requires closed { IsClosed nodes.now.slots }
    ensures { result ≡ look 3 nodes.now.slots (Some root) page }
{
    let upper = nodes[root].child(page / 32_768 % 32)?;
    let lower = nodes[upper].child(page / 1024 % 32)?;
    let leaf = nodes[lower].child(page / 32 % 32)?;
    nodes[leaf].entry(page % 32)
}

// The child of a node at a digit, where the node is counted once.
fn own_below(nodes: &Slab<Node>, parent: usize, digit: u32) -> Option<usize>
    requires parent { IsSome (node_at nodes.now.slots parent) }
    requires digit { digit < 32 }
    ensures own { IfSome result (λ child. (count_in (node_at nodes.now.slots parent) ≡ 1) × (child_in (node_at nodes.now.slots parent) digit ≡ Some child)) }
    ensures some { count_in (node_at nodes.now.slots parent) ≡ 1 → IsSome (child_in (node_at nodes.now.slots parent) digit) → IsSome result }
{
    if nodes[parent].count() != 1 {
        return None;
    }
    nodes[parent].child(digit)
}

// The leaf of a page, where each node on the way and the leaf are counted once.
pub(crate) fn own_leaf(nodes: &Slab<Node>, root: usize, page: u32) -> Option<usize>
    requires root { IsSome (node_at nodes.now.slots root) }
    requires closed { IsClosed nodes.now.slots }
    ensures own { IfSome result (λ leaf. IsOwnLeaf nodes.now.slots root page leaf) }
    ensures some { (leaf : ℕ) → IsOwnLeaf nodes.now.slots root page leaf → IsSome result }
{
    let upper = own_below(nodes, root, page / 32_768 % 32)?;
    let lower = own_below(nodes, upper, page / 1024 % 32)?;
    let leaf = own_below(nodes, lower, page / 32 % 32)?;
    if nodes[leaf].count() != 1 {
        return None;
    }
    Some(leaf)
}

// Counts a node once more.
pub(crate) fn raise(nodes: &mut Slab<Node>, node: usize)
    requires live { IsSome (node_at nodes.old.slots node) }
    requires room { count_in (node_at nodes.old.slots node) + 1 < 2 ^ 64 }
    ensures { nodes.new ≡ with_node nodes.old node (node_with_count (node_at nodes.old.slots node) (count_in (node_at nodes.old.slots node) + 1)) }
{
    let shared = &mut nodes[node];
    let count = shared.count();
    shared.set_count(count + 1);
}

// Counts a node that is counted more than once, once less.
pub(crate) fn lower(nodes: &mut Slab<Node>, node: usize)
    requires live { IsSome (node_at nodes.old.slots node) }
    requires some { 0 < count_in (node_at nodes.old.slots node) }
    ensures { nodes.new ≡ with_node nodes.old node (node_with_count (node_at nodes.old.slots node) (count_in (node_at nodes.old.slots node) - 1)) }
{
    let shared = &mut nodes[node];
    let count = shared.count();
    shared.set_count(count - 1);
}

// Counts each of these nodes once more.
fn raise_each(nodes: &mut Slab<Node>, children: &[Option<usize>])
    requires live { (k child : ℕ) → slice_index_or children.now k None ≡ Some child → IsSome (node_at nodes.old.slots child) }
    requires room { (child : ℕ) → count_in (node_at nodes.old.slots child) + length children.now < 2 ^ 64 }
    ensures each { (m : ℕ) → node_at nodes.new.slots m ≡ node_with_count (node_at nodes.old.slots m) (count_in (node_at nodes.old.slots m) + total (once m) children.now) }
    ensures grows { Grows nodes.old nodes.new 0 }
{
    for child in children {
        if let Some(child) = child {
            raise(nodes, *child);
        }
    }
}

// Counts the slot of each of these entries once more.
fn retain_each(pool: &mut PagePool, entries: &[Option<Entry>])
    requires counted { IsCounted pool.old }
    requires live { (k : ℕ) (entry : Held) → slice_index_or entries.now k None ≡ Some entry → IsLive pool.old entry.slot }
    requires room { (slot : ℕ) → count_at pool.old slot + length entries.now < 2 ^ 32 }
    ensures counts { (slot : ℕ) → count_at pool.new slot ≡ count_at pool.old slot + total (uses slot) entries.now }
    ensures counted { IsCounted pool.new }
    ensures keeps { KeepsBytes pool.old pool.new }
{
    for entry in entries {
        if let Some(entry) = entry {
            pool.retain(entry.slot);
        }
    }
}

// Puts a node at a key that is free, with no memory.
pub(crate) fn put(nodes: &mut Slab<Node>, node: Node) -> usize
    requires room { HasRoomFor nodes.old 1 }
    requires keys { nodes.old.capacity < 2 ^ 32 }
    ensures small { result + 1 < 2 ^ 32 }
    ensures fresh { node_at nodes.old.slots result ≡ None }
    ensures here { node_at nodes.new.slots result ≡ Some node }
    ensures rest { (m : ℕ) → m ≢ result → node_at nodes.new.slots m ≡ node_at nodes.old.slots m }
    ensures len { slab_len nodes.new ≡ slab_len nodes.old + 1 }
    ensures capacity { nodes.new.capacity ≡ nodes.old.capacity }
{
    nodes.insert_reserved(node)
}

// Takes a node away.
fn take(nodes: &mut Slab<Node>, node: usize) -> Node
    requires { IsSome (node_at nodes.old.slots node) }
    ensures was { node_at nodes.old.slots node ≡ Some result }
    ensures gone { node_at nodes.new.slots node ≡ None }
    ensures rest { (m : ℕ) → m ≢ node → node_at nodes.new.slots m ≡ node_at nodes.old.slots m }
    ensures len { slab_len nodes.new + 1 ≡ slab_len nodes.old }
    ensures capacity { nodes.new.capacity ≡ nodes.old.capacity }
{
    nodes.remove(node)
}

// Counts what a node has once more.
pub(crate) fn share(nodes: &mut Slab<Node>, pool: &mut PagePool, node: &Node)
    requires stands { Stands nodes.old.slots pool.old }
    requires children { (digit child : ℕ) → child_in (Some node.now) digit ≡ Some child → IsSome (node_at nodes.old.slots child) }
    requires entries { (digit : ℕ) (entry : Held) → entry_in (Some node.now) digit ≡ Some entry → IsLive pool.old entry.slot }
    requires wide { width node.now ≡ 32 }
    ensures each { (m : ℕ) → node_at nodes.new.slots m ≡ node_with_count (node_at nodes.old.slots m) (count_in (node_at nodes.old.slots m) + names m (Some node.now)) }
    ensures grows { Grows nodes.old nodes.new 0 }
    ensures counts { (slot : ℕ) → count_at pool.new slot ≡ count_at pool.old slot + slots_in slot (Some node.now) }
    ensures counted { IsCounted pool.new }
    ensures keeps { KeepsBytes pool.old pool.new }
    ensures leaf { (count : ℕ) (places : List (Option Held)) → node.now ≡ Leaf count places → nodes.new.slots ≡ nodes.old.slots }
{
    match node {
        Node::Branch { children, .. } => raise_each(nodes, &children.all()),
        Node::Leaf { entries, .. } => retain_each(pool, &entries.all()),
    }
}

// A copy of a node, counted once. What the node has is counted once more.
pub(crate) fn copy(nodes: &mut Slab<Node>, pool: &mut PagePool, node: usize) -> usize
    requires stands { Stands nodes.old.slots pool.old }
    requires node { IsSome (node_at nodes.old.slots node) }
    requires room { HasRoomFor nodes.old 1 }
    requires keys { nodes.old.capacity < 2 ^ 32 }
    ensures shared { (hands loose : ℕ → ℕ) → IsShared nodes.old.slots (count_at pool.old) hands loose → IsShared nodes.new.slots (count_at pool.new) (λ m. hands m + once m (Some result)) loose }
    ensures small { result + 1 < 2 ^ 32 }
    ensures fresh { node_at nodes.old.slots result ≡ None }
    ensures copy { node_at nodes.new.slots result ≡ node_with_count (node_at nodes.old.slots node) 1 }
    ensures rest { (m : ℕ) → m ≢ result → node_at nodes.new.slots m ≡ node_with_count (node_at nodes.old.slots m) (count_in (node_at nodes.old.slots m) + names m (node_at nodes.old.slots node)) }
    ensures looks { SameLooks nodes.old.slots nodes.new.slots }
    ensures alike { (level page : ℕ) → look level nodes.new.slots (Some result) page ≡ look level nodes.old.slots (Some node) page }
    ensures grows { Grows nodes.old nodes.new 1 }
    ensures counted { IsCounted pool.new }
    ensures keeps { KeepsBytes pool.old pool.new }
{
    let copy = nodes[node].copied();
    share(nodes, pool, &copy);
    put(nodes, copy)
}

// Gives a node another child at a digit.
pub(crate) fn link(nodes: &mut Slab<Node>, parent: usize, digit: u32, child: usize)
    requires parent { IsSome (node_at nodes.old.slots parent) }
    requires digit { digit < 32 }
    requires child { child + 1 < 2 ^ 32 }
    ensures now { (node : Held_node) → node_at nodes.old.slots parent ≡ Some node → node_at nodes.new.slots parent ≡ Some (with_child node digit child) }
    ensures rest { (m : ℕ) → m ≢ parent → node_at nodes.new.slots m ≡ node_at nodes.old.slots m }
    ensures grows { Grows nodes.old nodes.new 0 }
{
    nodes[parent].set_child(digit, child);
}

// Gives a branch a new child at a digit, where it has none.
fn sprout(nodes: &mut Slab<Node>, parent: usize, digit: u32) -> usize
    requires shared { (counts : ℕ → ℕ) × (hands : ℕ → ℕ) × (loose : ℕ → ℕ) × IsShared nodes.old.slots counts hands loose }
    requires parent { 0 < level_in (node_at nodes.old.slots parent) }
    requires digit { digit < 32 }
    requires none { child_in (node_at nodes.old.slots parent) digit ≡ None }
    requires room { HasRoomFor nodes.old 1 }
    requires keys { nodes.old.capacity < 2 ^ 32 }
    ensures shared { (counts hands loose : ℕ → ℕ) → IsShared nodes.old.slots counts hands loose → IsShared nodes.new.slots counts hands loose }
    ensures owned { Owned nodes.old.slots nodes.new.slots parent digit result }
    ensures grows { Grows nodes.old nodes.new 1 }
{
    let level = nodes[parent].level() - 1;
    let fresh = put(nodes, Node::empty(level));
    link(nodes, parent, digit, fresh);
    fresh
}

// Gives a branch a copy in place of a child that others share.
fn split(
    nodes: &mut Slab<Node>,
    pool: &mut PagePool,
    parent: usize,
    digit: u32,
    child: usize,
) -> usize
    requires stands { Stands nodes.old.slots pool.old }
    requires parent { 0 < level_in (node_at nodes.old.slots parent) }
    requires digit { digit < 32 }
    requires child { child_in (node_at nodes.old.slots parent) digit ≡ Some child }
    requires many { 1 < count_in (node_at nodes.old.slots child) }
    requires room { HasRoomFor nodes.old 1 }
    requires keys { nodes.old.capacity < 2 ^ 32 }
    ensures shared { (hands loose : ℕ → ℕ) → IsShared nodes.old.slots (count_at pool.old) hands loose → IsShared nodes.new.slots (count_at pool.new) hands loose }
    ensures owned { Owned nodes.old.slots nodes.new.slots parent digit result }
    ensures grows { Grows nodes.old nodes.new 1 }
    ensures counted { IsCounted pool.new }
    ensures keeps { KeepsBytes pool.old pool.new }
{
    let fresh = copy(nodes, pool, child);
    link(nodes, parent, digit, fresh);
    lower(nodes, child);
    fresh
}

// The child of a branch at a digit, made or copied where it isn't there or others share it.
fn own_child(nodes: &mut Slab<Node>, pool: &mut PagePool, parent: usize, digit: u32) -> usize
    requires stands { Stands nodes.old.slots pool.old }
    requires parent { 0 < level_in (node_at nodes.old.slots parent) }
    requires digit { digit < 32 }
    requires room { HasRoomFor nodes.old 1 }
    requires keys { nodes.old.capacity < 2 ^ 32 }
    ensures shared { (hands loose : ℕ → ℕ) → IsShared nodes.old.slots (count_at pool.old) hands loose → IsShared nodes.new.slots (count_at pool.new) hands loose }
    ensures owned { Owned nodes.old.slots nodes.new.slots parent digit result }
    ensures grows { Grows nodes.old nodes.new 1 }
    ensures counted { IsCounted pool.new }
    ensures keeps { KeepsBytes pool.old pool.new }
{
    match nodes[parent].child(digit) {
        None => sprout(nodes, parent, digit),
        Some(child) => {
            if nodes[child].count() == 1 {
                child
            } else {
                split(nodes, pool, parent, digit, child)
            }
        }
    }
}

// Gives a leaf another entry at a digit.
pub(crate) fn place(nodes: &mut Slab<Node>, leaf: usize, digit: u32, entry: Entry)
    requires leaf { IsSome (node_at nodes.old.slots leaf) }
    requires digit { digit < 32 }
    ensures now { (node : Held_node) → node_at nodes.old.slots leaf ≡ Some node → node_at nodes.new.slots leaf ≡ Some (with_entry node digit entry) }
    ensures rest { (m : ℕ) → m ≢ leaf → node_at nodes.new.slots m ≡ node_at nodes.old.slots m }
    ensures grows { Grows nodes.old nodes.new 0 }
{
    nodes[leaf].set_entry(digit, entry);
}

// Puts an entry at a page of a tree whose root is counted once.
pub(crate) fn insert(
    nodes: &mut Slab<Node>,
    pool: &mut PagePool,
    root: usize,
    page: u32,
    entry: Entry,
)
    requires stands { Stands nodes.old.slots pool.old }
    requires root { level_in (node_at nodes.old.slots root) ≡ 3 }
    requires own { count_in (node_at nodes.old.slots root) ≡ 1 }
    requires room { HasRoomFor nodes.old 3 }
    requires keys { nodes.old.capacity < 2 ^ 32 }
    requires few { slab_len nodes.old + 3 ≤ 2 ^ 26 }
    ensures inserts { Inserts nodes.old.slots nodes.new.slots pool.old pool.new root page entry }
    ensures grows { Grows nodes.old nodes.new 3 }
    ensures counted { IsCounted pool.new }
    ensures keeps { KeepsBytes pool.old pool.new }
{
    let upper = own_child(nodes, pool, root, page / 32_768 % 32);
    let lower = own_child(nodes, pool, upper, page / 1024 % 32);
    let leaf = own_child(nodes, pool, lower, page / 32 % 32);
    place(nodes, leaf, page % 32, entry);
}

// Counts the slot of each of these entries once less.
fn release_each(pool: &mut PagePool, entries: &[Option<Entry>])
    requires counted { IsCounted pool.old }
    requires enough { (slot : ℕ) → total (uses slot) entries.now ≤ count_at pool.old slot }
    ensures counts { (slot : ℕ) → count_at pool.new slot + total (uses slot) entries.now ≡ count_at pool.old slot }
    ensures counted { IsCounted pool.new }
    ensures keeps { KeepsBytes pool.old pool.new }
{
    for entry in entries {
        if let Some(entry) = entry {
            pool.release(entry.slot);
        }
    }
}

// Counts a node once less. At its last count it is removed, and what it has is counted once less.
pub(crate) fn release(nodes: &mut Slab<Node>, pool: &mut PagePool, node: usize, level: u32)
    requires shared { (hands : ℕ → ℕ) × (loose : ℕ → ℕ) × IsShared nodes.old.slots (count_at pool.old) (λ m. hands m + once m (Some node)) loose }
    requires counted { IsCounted pool.old }
    requires level { level_in (node_at nodes.old.slots node) ≡ level }
    ensures shared { (hands loose : ℕ → ℕ) → IsShared nodes.old.slots (count_at pool.old) (λ m. hands m + once m (Some node)) loose → IsShared nodes.new.slots (count_at pool.new) hands loose }
    ensures shrinks { Shrinks nodes.old.slots nodes.new.slots }
    ensures grows { Grows nodes.old nodes.new 0 }
    ensures counted { IsCounted pool.new }
    ensures keeps { KeepsBytes pool.old pool.new }
{
    if nodes[node].count() > 1 {
        lower(nodes, node);
        return;
    }
    match take(nodes, node) {
        Node::Leaf { entries, .. } => release_each(pool, &entries.all()),
        Node::Branch { children, .. } => {
            for digit in 0..32 {
                if let Some(child) = children.at(digit) {
                    release(nodes, pool, child, level - 1);
                }
            }
        }
    }
}
