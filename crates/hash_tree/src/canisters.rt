//! The branches of canisters.

ghost use Rattle.std.specs.Prelude.{◌≡◌, IfOk};
ghost use Rattle.tree_spec.specs.Labelled.{child_trees, canister_children};
ghost use Rattle.sys_state.specs.System.{part_of_record, parts};
ghost use Rattle.hash_tree.specs.Canisters.{record_tree, canister_tree, canister_trees};
ghost use Rattle.hash_tree.specs.Stack.{Pushes};
ghost use Rattle.hash_tree.specs.View.{tree_view};

use crate::branch::Branch;
use crate::forks::take_forks;
use byte_codec::{Blob, NoMemory};
use hash_domain::plain_hash;
use std::alloc::Global;
use sys_state::{CanisterId, CanisterRecord, SysState};

// The branch of all canisters, where there is one.
pub(crate) fn push_canisters(
    alloc: Global,
    sys: &SysState,
    branches: &mut Vec<Branch>,
) -> Result<(), NoMemory>
    ensures { IfOk result (λ _. Pushes branches.old.items branches.new.items (canister_trees (parts sys.now.canisters))) }
{
    if sys.canisters() == 0 {
        return Ok(());
    }
    push_ids(alloc, sys, branches)?;
    let all = take_forks(alloc, branches, sys.canisters() as usize)?;
    branches.push(all.under(alloc, Blob::from_slice(alloc, b"canister")?)?)?;
    Ok(())
}

// The branches below the ids of all canisters.
fn push_ids(alloc: Global, sys: &SysState, branches: &mut Vec<Branch>) -> Result<(), NoMemory>
    ensures { IfOk result (λ _. Pushes branches.old.items branches.new.items (child_trees (canister_children (parts sys.now.canisters)))) }
{
    for i in 0..sys.canisters() {
        let (id, record) = sys.canister_at(i).unwrap();
        branches.push(canister_branch(alloc, id, record)?)?;
    }
    Ok(())
}

fn canister_branch(
    alloc: Global,
    id: &CanisterId,
    record: &CanisterRecord,
) -> Result<Branch, NoMemory>
    ensures { IfOk result (λ b. tree_view b ≡ canister_tree (id.now, part_of_record «record».now)) }
{
    record_branch(alloc, record)?.under(alloc, Blob::from_slice(alloc, id.bytes())?)
}

// What stands below the id of a canister.
fn record_branch(alloc: Global, record: &CanisterRecord) -> Result<Branch, NoMemory>
    ensures { IfOk result (λ b. tree_view b ≡ record_tree (part_of_record «record».now)) }
{
    let certified = Branch::leaf_under(alloc, b"certified_data", record.certified.copy(alloc)?)?;
    match &record.module {
        None => Ok(certified),
        Some(module) => {
            let hash = Blob::from_slice(alloc, plain_hash(module.bytes()).bytes())?;
            certified.beside(alloc, Branch::leaf_under(alloc, b"module_hash", hash)?)
        }
    }
}
