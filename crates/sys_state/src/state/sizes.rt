//! How many bytes the parts of a state have in its system text: the room that is taken for it.

ghost use Rattle.std.specs.List.{AllByRecursion};
ghost use Rattle.state_spec.specs.State.{FitsCanister};
ghost use Rattle.sys_state.specs.System.{part_of_record};

use crate::canister_id::CanisterId;
use crate::path::Path;
use crate::record::CanisterRecord;
use byte_codec::Blob;

fn canister_size(id: &CanisterId, record: &CanisterRecord) -> usize
    requires { FitsCanister 2 (id.now, part_of_record «record».now) }
{
    let module = match &record.module {
        None => 1,
        Some(module) => 5 + module.bytes().len(),
    };
    1 + id.bytes().len() + module + 1 + record.certified.bytes().len() + 8
}

pub(super) fn canisters_size(canisters: &[(CanisterId, CanisterRecord)]) -> usize
    requires { AllByRecursion (λ c. FitsCanister 2 (c.0, part_of_record c.1)) canisters.now }
{
    let mut size = 0usize;
    for (id, record) in canisters {
        size = size.saturating_add(canister_size(id, record));
    }
    size
}

fn path_size(path: &Path) -> usize {
    let mut size = 1usize;
    for label in path.labels() {
        size = size.saturating_add(1 + label.bytes().len());
    }
    size
}

pub(super) fn entries_size(entries: &[(Path, Blob)]) -> usize {
    let mut size = 0usize;
    for (path, value) in entries {
        size = size.saturating_add(path_size(path));
        size = size.saturating_add(2 + value.bytes().len());
    }
    size
}
