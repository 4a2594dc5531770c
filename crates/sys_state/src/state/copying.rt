//! A copy of a state.

ghost use Rattle.std.specs.Prelude.{◌≡◌, IfOk};

use super::SysState;
use crate::canister_id::CanisterId;
use crate::path::Path;
use crate::record::CanisterRecord;
use byte_codec::{Blob, NoMemory};
use std::alloc::Global;

fn copy_canisters(
    alloc: Global,
    canisters: &[(CanisterId, CanisterRecord)],
) -> Result<Vec<(CanisterId, CanisterRecord)>, NoMemory>
    ensures { IfOk result (λ copies. copies.items ≡ canisters.now) }
{
    let mut copies = Vec::with_capacity(alloc, canisters.len())?;
    for (id, record) in canisters {
        copies.push((id.copy(), record.copy(alloc)?))?;
    }
    Ok(copies)
}

fn copy_entries(alloc: Global, entries: &[(Path, Blob)]) -> Result<Vec<(Path, Blob)>, NoMemory>
    ensures { IfOk result (λ copies. copies.items ≡ entries.now) }
{
    let mut copies = Vec::with_capacity(alloc, entries.len())?;
    for (path, value) in entries {
        copies.push((path.copy(alloc)?, value.copy(alloc)?))?;
    }
    Ok(copies)
}

impl SysState {
    /// The same state.
    pub fn copy(&self, alloc: Global) -> Result<SysState, NoMemory>
        ensures { IfOk result (λ copy. copy ≡ self.now) }
    {
        Ok(SysState {
            time: self.time,
            pages: self.pages,
            canisters: copy_canisters(alloc, &self.canisters)?,
            entries: copy_entries(alloc, &self.entries)?,
        })
    }
}
