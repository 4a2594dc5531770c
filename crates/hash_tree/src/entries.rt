//! The branches of entries, level by level.

ghost use Rattle.std.specs.Prelude.{◌≡◌, ◌<◌, ◌≤◌, ◌∷◌, [], length, IfOk, IsSome, Some};
ghost use Rattle.std.specs.List.{AllByRecursion};
ghost use Rattle.tree_spec.specs.Labelled.{child_trees, entry_children};
ghost use Rattle.hash_tree.specs.Levels.{label_in, level, IsLevel, IsGroup, EndsLabel, Parts, Misses};
ghost use Rattle.hash_tree.specs.Stack.{Pushes};
ghost use Rattle.hash_tree.specs.View.{tree_view};

use crate::branch::Branch;
use crate::forks::take_forks;
use byte_codec::{Blob, NoMemory};
use std::alloc::Global;
use sys_state::SysState;

// The branches below the first labels from this depth on of these entries, in order.
#[cycle(levels)]
pub(crate) fn push_level(
    alloc: Global,
    sys: &SysState,
    from: u32,
    to: u32,
    depth: usize,
    branches: &mut Vec<Branch>,
) -> Result<(), NoMemory>
    requires order { from ≤ to }
    requires within { to ≤ length sys.now.entries }
    requires level { IsLevel (level depth from to sys.now.entries) }
    ensures { IfOk result (λ _. Pushes branches.old.items branches.new.items (child_trees (entry_children (level depth from to sys.now.entries)))) }
{
    let mut at = from;
    while at < to {
        let end = end_of_label(sys, at, to, depth);
        let branch = label_branch(alloc, sys, at, end, depth, branches)?;
        branches.push(branch)?;
        at = end;
    }
    Ok(())
}

// The branch of entries that have one label at this depth.
#[cycle(levels)]
fn label_branch(
    alloc: Global,
    sys: &SysState,
    from: u32,
    to: u32,
    depth: usize,
    branches: &mut Vec<Branch>,
) -> Result<Branch, NoMemory>
    requires some { from < to }
    requires within { to ≤ length sys.now.entries }
    requires level { IsLevel (level depth from to sys.now.entries) }
    requires group { IsGroup (level depth from to sys.now.entries) }
    ensures stays { IfOk result (λ _. branches.new.items ≡ branches.old.items) }
    ensures tree { IfOk result (λ b. child_trees (entry_children (level depth from to sys.now.entries)) ≡ tree_view b ∷ []) }
{
    let (path, value) = sys.entry(from).unwrap();
    let labels = path.labels();
    let label = labels[depth].copy(alloc)?;
    if labels.len() == depth + 1 {
        return Branch::leaf(value.copy(alloc)?).under(alloc, label);
    }
    let before = branches.len();
    push_level(alloc, sys, from, to, depth + 1, branches)?;
    let count = branches.len() - before;
    take_forks(alloc, branches, count)?.under(alloc, label)
}

// The first entry from `from` on whose path begins with a label above this one, or their number where there is none.
pub(crate) fn first_above(sys: &SysState, from: u32, label: &[u8]) -> u32
    requires within { from ≤ length sys.now.entries }
    requires free { AllByRecursion (Misses label.now) sys.now.entries }
    ensures { Parts label.now from result sys.now.entries }
{
    for i in from..sys.entries() {
        if label_of(sys, i, 0).bytes().cmp(&label).is_gt() {
            return i;
        }
    }
    sys.entries()
}

// Where the entries end that have the same label at this depth as the first of them.
fn end_of_label(sys: &SysState, from: u32, to: u32, depth: usize) -> u32
    requires some { from < to }
    requires within { to ≤ length sys.now.entries }
    requires level { IsLevel (level depth from to sys.now.entries) }
    ensures { EndsLabel depth from result to sys.now.entries }
{
    let label = label_of(sys, from, depth);
    for i in from + 1..to {
        if *label_of(sys, i, depth) != *label {
            return i;
        }
    }
    to
}

// The label at this depth in the path of an entry.
fn label_of(sys: &SysState, i: u32, depth: usize) -> &Blob
    requires { IsSome (label_in depth i sys.now.entries) }
    ensures { label_in depth i sys.now.entries ≡ Some result.now }
{
    let (path, _) = sys.entry(i).unwrap();
    &path.labels()[depth]
}
