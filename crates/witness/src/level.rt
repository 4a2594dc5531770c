//! A level of a tree: its entries in order, as forks join them.

ghost use Rattle.std.specs.Prelude.{◌≡◌, ◌||◌, map, fold, option_map};
ghost use Rattle.tree_spec.specs.Tree.{flatten, label_of};
ghost use Rattle.tree_spec.specs.Lookup.{below_label, has_gap_at, is_outside, is_one_leaf as is_one_leaf_of};
ghost use Rattle.hash_tree.specs.View.{tree_view};
ghost use Rattle.witness.specs.Level.{scan_all, scan_side, contents_of, joined_of};

use byte_codec::is_same;
use hash_tree::HashTree;
use std::cmp::Ordering;

/// The tree below the first entry with this label.
#[tactic(auto, using(crate::proofs::Entries::below_label_append))]
pub(crate) fn find<'a>(tree: &'a HashTree, label: &[u8]) -> Option<&'a HashTree>
    ensures { option_map (λ below. tree_view below.now) result ≡ below_label label.now (flatten (tree_view tree.now)) }
{
    match tree {
        HashTree::Fork(left, right) => match find(left, label) {
            Some(below) => Some(below),
            None => find(right, label),
        },
        HashTree::Labeled(own, below) => {
            if is_same(own.bytes(), label) {
                Some(below)
            } else {
                None
            }
        }
        _ => None,
    }
}

/// What the entries so far say of a label: whether it has a gap between two of them, and whether the last one is below
/// it. Before the first one and behind the last one there is a gap.
#[derive(Clone, Copy)]
struct Scan {
    gap: bool,
    below: bool,
}

/// Whether the entries leave a gap for a label that none of them has.
pub(crate) fn has_gap(tree: &HashTree, label: &[u8]) -> bool
    ensures { result ≡ (has_gap_at label.now (map label_of (flatten (tree_view tree.now))) || is_outside label.now (map label_of (flatten (tree_view tree.now)))) }
{
    let start = Scan {
        gap: false,
        below: true,
    };
    let end = scan_entries(tree, label, start);
    end.gap || end.below
}

#[tactic(auto, using(crate::proofs::Entries::scan_append))]
fn scan_entries(tree: &HashTree, label: &[u8], before: Scan) -> Scan
    ensures { result ≡ scan_all label.now (map label_of (flatten (tree_view tree.now))) before }
{
    match tree {
        HashTree::Empty => before,
        HashTree::Fork(left, right) => scan_entries(
            right,
            label,
            scan_entries(left, label, before),
        ),
        HashTree::Labeled(own, _) => scan_label(own.bytes().cmp(&label), before),
        HashTree::Leaf(_) | HashTree::Pruned(_) => Scan {
            gap: before.gap,
            below: false,
        },
    }
}

fn scan_label(side: Ordering, before: Scan) -> Scan
    ensures { result ≡ scan_side side before }
{
    match side {
        Ordering::Less => Scan {
            gap: before.gap,
            below: true,
        },
        Ordering::Equal => Scan {
            gap: before.gap,
            below: false,
        },
        Ordering::Greater => Scan {
            gap: before.gap || before.below,
            below: false,
        },
    }
}

/// What a level has.
#[derive(Clone, Copy, PartialEq, Eq)]
enum Contents {
    Nothing,
    OneLeaf,
    Others,
}

/// Whether the level is one leaf.
#[tactic(auto, using(crate::proofs::Entries::one_leaf_is))]
pub(crate) fn is_one_leaf(tree: &HashTree) -> bool
    ensures { result ≡ is_one_leaf_of (flatten (tree_view tree.now)) }
{
    matches!(contents_in(tree), Contents::OneLeaf)
}

#[tactic(auto, using(crate::proofs::Entries::contents_append))]
fn contents_in(tree: &HashTree) -> Contents
    ensures { result ≡ contents_of (flatten (tree_view tree.now)) }
{
    match tree {
        HashTree::Empty => Contents::Nothing,
        HashTree::Fork(left, right) => joined(contents_in(left), contents_in(right)),
        HashTree::Labeled(_, _) | HashTree::Pruned(_) => Contents::Others,
        HashTree::Leaf(_) => Contents::OneLeaf,
    }
}

fn joined(left: Contents, right: Contents) -> Contents
    ensures { result ≡ joined_of left right }
{
    match (left, right) {
        (Contents::Nothing, _) => right,
        (_, Contents::Nothing) => left,
        _ => Contents::Others,
    }
}
