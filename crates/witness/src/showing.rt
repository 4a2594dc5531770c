//! Witnesses of paths: the part of a tree that shows what stands at them, with the rest as hashes.

ghost use Rattle.std.specs.Prelude.{◌≡◌, ◌≤◌, ℕ, length, map, filter, option_map, IfOk, IsTrue};
ghost use Rattle.format_spec.specs.Bytes.{bytes_cmp, is_after};
ghost use Rattle.state_spec.specs.State.{SystemPart, IsSystem};
ghost use Rattle.tree_spec.specs.Labelled.{state_tree};
ghost use Rattle.tree_spec.specs.Witness.{rests as rests_of, going_on as going_on_of, begins_some as begins_some_of, first_label as first_label_of, is_it};
ghost use Rattle.hash_tree.specs.Hashes.{AreHashesOf};
ghost use Rattle.hash_tree.specs.View.{tree_view};
ghost use Rattle.witness.specs.Shows.{IsWitness};
ghost use Rattle.witness.specs.Parts.{part as part_of, begins_between as begins_between_of, first_in, last_in, goes_on as goes_on_of, is_under as is_under_of, reached_bytes as reached_of};

use byte_codec::{Blob, NoMemory, is_same};
use hash_tree::{HashTree, StateTree, TreeHashes};
use std::alloc::Global;
use sys_state::Path;

/// The witness of paths, of which there is at least one, in the tree of a valid state: the part of the tree that shows
/// what stands at them, with the rest as hashes. Each part of the tree is hashed once. NoMemory where memory runs out. Takes
/// stack by the depth.
pub fn witness(alloc: Global, tree: &HashTree, paths: &[Path]) -> Result<HashTree, NoMemory>
    ensures { (version : ℕ) (s : SystemPart) → IsSystem version s → tree_view tree.now ≡ state_tree s → IfOk result (λ w. IsWitness s paths.now (tree_view w)) }
{
    let hashes = TreeHashes::of(alloc, tree)?;
    shown(alloc, tree, &hashes, paths)
}

/// The same of a tree that has its hashes beside it. It is one walk along the paths, which hashes nothing.
pub fn witness_of_state(
    alloc: Global,
    tree: &StateTree,
    paths: &[Path],
) -> Result<HashTree, NoMemory>
    ensures { (version : ℕ) (s : SystemPart) → IsSystem version s → tree_view tree.now ≡ state_tree s → IfOk result (λ w. IsWitness s paths.now (tree_view w)) }
{
    shown(alloc, tree.tree(), tree.hashes(), paths)
}

// The witness in a tree that has these hashes.
fn shown(
    alloc: Global,
    tree: &HashTree,
    hashes: &TreeHashes,
    paths: &[Path],
) -> Result<HashTree, NoMemory>
    requires { AreHashesOf hashes.now (tree_view tree.now) }
    ensures { (version : ℕ) (s : SystemPart) → IsSystem version s → tree_view tree.now ≡ state_tree s → IfOk result (λ w. IsWitness s paths.now (tree_view w)) }
{
    let mut rests = Vec::with_capacity(alloc, paths.len())?;
    for path in paths {
        rests.push(path.labels())?;
    }
    part(alloc, tree, hashes, &rests)
}

// The part of a tree with these hashes that shows what is left of paths at it. A path that begins between the two sides of
// a fork goes to both: the neighbours of a label that is missing are shown.
fn part(
    alloc: Global,
    tree: &HashTree,
    hashes: &TreeHashes,
    rests: &[&[Blob]],
) -> Result<HashTree, NoMemory>
    requires { AreHashesOf hashes.now (tree_view tree.now) }
    ensures { IfOk result (λ w. tree_view w ≡ part_of (tree_view tree.now) (map (λ p. p.now) rests.now)) }
{
    if rests.is_empty() {
        return Ok(HashTree::Pruned(hashes.hash()));
    }
    match tree {
        HashTree::Fork(left, right) => {
            let before = between(alloc, rests, None, first_label(right))?;
            let behind = between(alloc, rests, last_label(left), None)?;
            let left = part(alloc, left, hashes.left(), &before)?;
            let right = part(alloc, right, hashes.right(), &behind)?;
            HashTree::fork(alloc, left, right)
        }
        HashTree::Labeled(label, below) => match reached(label.bytes(), below, rests) {
            Some(bytes) => {
                let leaf = HashTree::Leaf(bytes.copy(alloc)?);
                HashTree::labeled(alloc, label.copy(alloc)?, leaf)
            }
            None => {
                let deeper = going_on(alloc, rests, label.bytes())?;
                let below = part(alloc, below, hashes.below(), &deeper)?;
                HashTree::labeled(alloc, label.copy(alloc)?, below)
            }
        },
        HashTree::Empty | HashTree::Leaf(_) | HashTree::Pruned(_) => {
            Ok(HashTree::Pruned(hashes.hash()))
        }
    }
}

// The bytes of a leaf below this label that a path reaches, or would pass through.
fn reached<'a>(label: &[u8], below: &'a HashTree, rests: &[&[Blob]]) -> Option<&'a Blob>
    ensures { option_map (λ bytes. bytes.now) result ≡ reached_of label.now (tree_view below.now) (map (λ p. p.now) rests.now) }
{
    match below {
        HashTree::Leaf(bytes) => {
            if begins_some(label, rests) {
                Some(bytes)
            } else {
                None
            }
        }
        _ => None,
    }
}

fn begins_some(label: &[u8], rests: &[&[Blob]]) -> bool
    ensures { result ≡ begins_some_of label.now (map (λ p. p.now) rests.now) }
{
    for rest in rests {
        if begins(rest, label) {
            return true;
        }
    }
    false
}

fn begins(rest: &[Blob], label: &[u8]) -> bool
    ensures { result ≡ is_it label.now (first_label_of rest.now) }
{
    match rest {
        [] => false,
        [first, ..] => is_same(first.bytes(), label),
    }
}

// What is left behind this label of those that begin with it, where something is left.
fn going_on<'a>(
    alloc: Global,
    rests: &[&'a [Blob]],
    label: &[u8],
) -> Result<Vec<&'a [Blob]>, NoMemory>
    ensures { IfOk result (λ kept. map (λ p. p.now) kept.items ≡ going_on_of (rests_of label.now (map (λ p. p.now) rests.now))) }
{
    let mut kept = Vec::new(alloc);
    for rest in rests {
        if goes_on(rest, label) {
            kept.push(&rest[1..])?;
        }
    }
    Ok(kept)
}

// It begins with this label, and something is left behind.
fn goes_on(rest: &[Blob], label: &[u8]) -> bool
    ensures value { result ≡ goes_on_of label.now rest.now }
    ensures long { IsTrue result → 1 ≤ length rest.now }
{
    rest.len() > 1 && begins(rest, label)
}

// Those that begin between these labels.
fn between<'a>(
    alloc: Global,
    rests: &[&'a [Blob]],
    low: Option<&[u8]>,
    high: Option<&[u8]>,
) -> Result<Vec<&'a [Blob]>, NoMemory>
    ensures { IfOk result (λ kept. map (λ p. p.now) kept.items ≡ filter (begins_between_of (option_map (λ s. s.now) low.entry) (option_map (λ s. s.now) high.entry))
        (map (λ p. p.now) rests.now)) }
{
    let mut kept = Vec::new(alloc);
    for rest in rests {
        if begins_between(rest, low, high) {
            kept.push(*rest)?;
        }
    }
    Ok(kept)
}

fn begins_between(rest: &[Blob], low: Option<&[u8]>, high: Option<&[u8]>) -> bool
    ensures { result ≡ begins_between_of (option_map (λ s. s.now) low.entry) (option_map (λ s. s.now) high.entry) rest.now }
{
    match rest {
        [] => false,
        [first, ..] => is_over(low, first.bytes()) && is_under(high, first.bytes()),
    }
}

fn is_over(low: Option<&[u8]>, label: &[u8]) -> bool
    ensures { result ≡ is_after bytes_cmp (option_map (λ s. s.now) low.entry) label.now }
{
    match low {
        None => true,
        Some(low) => low.cmp(&label).is_lt(),
    }
}

fn is_under(high: Option<&[u8]>, label: &[u8]) -> bool
    ensures { result ≡ is_under_of (option_map (λ s. s.now) high.entry) label.now }
{
    match high {
        None => true,
        Some(high) => label.cmp(&high).is_lt(),
    }
}

// The first label of a level.
fn first_label<'a>(tree: &'a HashTree) -> Option<&'a [u8]>
    ensures { option_map (λ s. s.now) result ≡ first_in (tree_view tree.now) }
{
    match tree {
        HashTree::Fork(left, right) => match first_label(left) {
            Some(label) => Some(label),
            None => first_label(right),
        },
        HashTree::Labeled(label, _) => Some(label.bytes()),
        _ => None,
    }
}

// The last one.
fn last_label<'a>(tree: &'a HashTree) -> Option<&'a [u8]>
    ensures { option_map (λ s. s.now) result ≡ last_in (tree_view tree.now) }
{
    match tree {
        HashTree::Fork(left, right) => match last_label(right) {
            Some(label) => Some(label),
            None => last_label(left),
        },
        HashTree::Labeled(label, _) => Some(label.bytes()),
        _ => None,
    }
}
