//! The mark of a state whose memories are written whole.

ghost use Rattle.std.specs.Prelude.{◌≡◌, ◌≤◌, length, map, IfOk};
ghost use Rattle.std.specs.List.{AllZip};
ghost use Rattle.format_spec.specs.declared.limits.TheConstants.{MAX_HEIGHT};
ghost use Rattle.state_spec.specs.State.{State, IsSystem};
ghost use Rattle.state_spec.specs.SystemText.{system_text};
ghost use Rattle.state_spec.specs.Manifest.{chunk_hashes as hashes_of_chunks};
ghost use Rattle.state_spec.specs.Root.{root_of};
ghost use Rattle.store_spec.specs.Mark.{IsMark};
ghost use Rattle.sys_state.specs.System.{part_of};
ghost use Rattle.manifest.specs.Fits.{FitMemories};
ghost use Rattle.height_store.specs.Store.{numbers_of};
ghost use Rattle.whole_state.specs.Whole.{HasParts};
ghost use Rattle.whole_state.specs.Written.{IsWholeStack};

use byte_codec::{Blob, NoMemory};
use hash_domain::{Hash32, chunk_sums};
use layer_stack::Stack;
use mark_file::{Mark, MarkMem};
use std::alloc::Global;
use sys_state::SysState;

/// The mark of a height, from 1 to 2^62, for a state of version 1 with this system text whose memories have these bytes and are
/// written whole to these page files. NoMemory where memory runs out.
pub(crate) fn mark_of(
    alloc: Global,
    height: u64,
    sys: &SysState,
    system: Blob,
    memories: &[Vec<u8>],
    stacks: &[Stack],
) -> Result<Mark, NoMemory>
    requires good { IsSystem 1 (part_of sys.now) }
    requires text { system ≡ system_text (part_of sys.now) }
    requires from_one { 1 ≤ height }
    requires at_most { height ≤ MAX_HEIGHT }
    requires fit { FitMemories (part_of sys.now) (map (λ memory. memory.items) memories.now) }
    requires stacks { AllZip IsWholeStack (map (λ memory. memory.items) memories.now) stacks.now }

    ensures mark { IfOk result (λ m. IsMark m (part_of sys.now)) }
    ensures height { IfOk result (λ m. m.height ≡ height) }
    ensures version { IfOk result (λ m. m.version ≡ 1) }
    ensures layers { IfOk result (λ m. map (λ memory. memory.layers) m.memories ≡ map numbers_of stacks.now) }
    ensures sums { IfOk result (λ m. map (λ memory. memory.sums) m.memories ≡ map (hashes_of_chunks 1) (map (λ memory. memory.items) memories.now)) }
    ensures root { IfOk result (λ m. (s : State) → HasParts s sys.now (map (λ memory. memory.items) memories.now) → m.root ≡ root_of s) }
{
    let sums = all_sums(alloc, memories)?;
    let mems = mems_of(alloc, stacks, &sums)?;
    Mark::made(alloc, height, sys, system, mems, 1)
}

// The sums of the chunks of each memory in version 1: the hash of each.
fn all_sums(alloc: Global, memories: &[Vec<u8>]) -> Result<Vec<Vec<Option<Hash32>>>, NoMemory>
    ensures { IfOk result (λ sums. map (λ hashes. hashes.items) sums.items ≡ map (hashes_of_chunks 1) (map (λ memory. memory.items) memories.now)) }
{
    let mut sums = Vec::with_capacity(alloc, memories.len())?;
    for memory in memories {
        sums.push(chunk_sums(alloc, 1, memory)?)?;
    }
    Ok(sums)
}

// What the mark says of each memory.
fn mems_of(
    alloc: Global,
    stacks: &[Stack],
    sums: &[Vec<Option<Hash32>>],
) -> Result<Vec<MarkMem>, NoMemory>
    requires { length sums.now ≡ length stacks.now }
    ensures layers { IfOk result (λ mems. map (λ memory. memory.layers) mems.items ≡ map numbers_of stacks.now) }
    ensures sums { IfOk result (λ mems. map (λ memory. memory.sums) mems.items ≡ map (λ hashes. hashes.items) sums.now) }
{
    let mut mems = Vec::with_capacity(alloc, stacks.len())?;
    for i in 0..stacks.len() {
        mems.push(MarkMem {
            layers: layers_of(alloc, &stacks[i])?,
            sums: Vec::from_slice(alloc, &sums[i])?,
        })?;
    }
    Ok(mems)
}

fn layers_of(alloc: Global, stack: &Stack) -> Result<Vec<u64>, NoMemory>
    ensures { IfOk result (λ numbers. numbers.items ≡ numbers_of stack.now) }
{
    let mut numbers = Vec::with_capacity(alloc, stack.files().len())?;
    for file in stack.files() {
        numbers.push(file.number())?;
    }
    Ok(numbers)
}
