//! The pages of a state's memories.

ghost use Rattle.std.specs.Prelude.{◌≡◌, map, IfOk, OnOk};
ghost use Rattle.state_spec.specs.Files.{memories_in};
ghost use Rattle.sys_state.specs.System.{IsWithinLimits, part_of};

use crate::state::SysState;
use byte_codec::NoMemory;
use std::alloc::Global;

/// The pages of each memory, heap and stable memory of each canister in order of ids.
pub fn memory_pages(alloc: Global, sys: &SysState) -> Result<Vec<u32>, NoMemory>
    ensures pages { IfOk result (λ pages. pages.items ≡ map (λ memory. memory.1) (memories_in (part_of sys.now))) }
    ensures kept { OnOk result (IsWithinLimits sys.now) }
{
    let mut pages = Vec::new(alloc);
    for i in 0..sys.canisters() {
        let Some((_, canister)) = sys.canister_at(i) else {
            unreachable!();
        };
        pages.push(canister.heap)?;
        pages.push(canister.stable)?;
    }
    Ok(pages)
}
