//! Publishing a state whose memories are written whole.

ghost use Rattle.std.specs.Prelude.{◌≡◌, ℕ, ◌≤◌, ◌<◌, ◌+◌, ◌^◌, ◌++◌, ◌∷◌, [], List, length, map, sum_by, IsTrue, IfOk, OnOk};
ghost use Rattle.std.specs.List.{AllByRecursion, AllZip};
ghost use Rattle.format_spec.specs.declared.limits.TheConstants.{MAX_PUBLISHED, MAX_HEIGHT};
ghost use Rattle.state_spec.specs.State.{State};
ghost use Rattle.state_spec.specs.Root.{root_of};
ghost use Rattle.state_spec.specs.SystemText.{system_text};
ghost use Rattle.store_spec.specs.Image.{Published};
ghost use Rattle.store_spec.specs.Whole.{file_bytes, whole_length};
ghost use Rattle.sys_state.specs.System.{part_of};
ghost use Rattle.sys_state.specs.Memories.{AreWithin};
ghost use Rattle.manifest.specs.Fits.{FitMemories};
ghost use Rattle.disk_model.specs.State.{IsSettled};
ghost use Rattle.disk_model.specs.View.{LeavesOnly};
ghost use Rattle.disk_model.specs.Writing.{Writes};
ghost use Rattle.height_store.specs.Kept.{IsReadable, IsWritable, HasRoom, KeepsHeights, StandsForEither};
ghost use Rattle.height_store.specs.declared.limits.TheConstants.{MAX_GIVEN};
ghost use Rattle.height_store.specs.Store.{StoredHeight, GivesFew};
ghost use Rattle.whole_state.specs.Whole.{HasParts, whole};
ghost use Rattle.whole_state.specs.Written.{IsMemoryBytes, IsWholeStack, AreFinished, AreUsed, GivesNumbers, is_given_for, is_given_since};

use crate::marking::mark_of;
use crate::pages::write_whole;
use disk_model::{Disk, DiskError};
use hash_domain::Hash32;
use height_store::HeightStore;
use layer_stack::Stack;
use std::alloc::Global;
use sys_state::SysState;

/// Publishes a state at a height: writes each memory that isn't empty whole, as a page file of all its pages, then the mark with
/// the hash of each chunk, and answers the root hash of the state's manifest. The height is from 1 to 2^62 and above all
/// that are published, of which there are fewer than 16; there are as many memories as the canisters have, with as many bytes, and
/// they are within the limits of version 1.
///
/// A crash at any moment leaves the heights before or those after; after Ok it leaves those after. Fault where the disk failed,
/// Memory where memory ran out; the store is given up then.
pub fn checkpoint<D: Disk>(
    alloc: Global,
    store: &mut HeightStore,
    disk: &mut D,
    height: u64,
    sys: &SysState,
    memories: &[Vec<u8>],
) -> Result<Hash32, DiskError>
    requires from_one { 1 ≤ height }
    requires at_most { height ≤ MAX_HEIGHT }
    requires above { AllByRecursion (λ h. h.mark.height < height) store.old.heights }
    requires few { length store.old.heights < MAX_PUBLISHED }
    requires fit { FitMemories (part_of sys.now) (map (λ memory. memory.items) memories.now) }
    requires within { AreWithin 1 (map (λ memory. memory.items) memories.now) }
    requires numbers { store.old.numbers_given ≤ 2 ^ 60 }
    requires readable { IsTrue D.tells → IsReadable store.old.heights (D.view disk.old).state.files }
    requires writable { IsTrue D.tells → IsWritable store.old height (D.view disk.old).state.files }

    ensures root { (s : State) → HasParts s sys.now (map (λ memory. memory.items) memories.now) → IfOk result (λ root. root ≡ root_of s) }
    ensures gains { OnOk result ((h : StoredHeight) × (h.mark.height ≡ height) × (store.new.heights ≡ store.old.heights ++ h ∷ [])) }
    ensures numbers_given { GivesFew store.old store.new }
    ensures readable { IsTrue D.tells → OnOk result (IsReadable store.new.heights (D.view disk.new).state.files) }
    ensures writable { IsTrue D.tells → OnOk result ((h : ℕ) → IsWritable store.old h (D.view disk.old).state.files → IsWritable store.new h (D.view disk.new).state.files) }
    ensures stands { IsTrue D.tells → (ps : List Published) (s : State)
        → HasParts s sys.now (map (λ memory. memory.items) memories.now)
        → IsSettled (D.view disk.old).state → KeepsHeights store.old.heights (D.view disk.old).state ps
        → OnOk result (KeepsHeights store.new.heights (D.view disk.new).state (ps ++ whole height s ∷ [])) }
    ensures images { IsTrue D.tells → (ps : List Published) (s : State)
        → HasParts s sys.now (map (λ memory. memory.items) memories.now)
        → IsSettled (D.view disk.old).state → KeepsHeights store.old.heights (D.view disk.old).state ps
        → LeavesOnly (D.view disk.old) (D.view disk.new) (StandsForEither ps (ps ++ whole height s ∷ [])) }
    ensures writes { Writes D.Disk (is_given_for store.old height) (whole_length 1 (length (system_text (part_of sys.now))) (map (λ memory. memory.items) memories.now)) disk.old disk.new result }
{
    let system = sys.encode(alloc)?;
    let stacks = write_memories(alloc, store, disk, memories)?;
    let mark = mark_of(alloc, height, sys, system, memories, &stacks)?;
    let root = mark.root;
    store.publish(alloc, mark, stacks, disk)?;
    Ok(root)
}

// Writes each memory whole, and gives the page files of each.
fn write_memories<D: Disk>(
    alloc: Global,
    store: &mut HeightStore,
    disk: &mut D,
    memories: &[Vec<u8>],
) -> Result<Vec<Stack>, DiskError>
    requires memories { AllByRecursion IsMemoryBytes (map (λ memory. memory.items) memories.now) }
    requires few { length memories.now ≤ MAX_GIVEN }
    requires numbers { store.old.numbers_given ≤ 2 ^ 60 }
    requires room { IsTrue D.tells → HasRoom store.old (D.view disk.old).state.files }

    ensures store { GivesNumbers (length memories.now) store.old store.new }
    ensures whole { IfOk result (λ stacks. AllZip IsWholeStack (map (λ memory. memory.items) memories.now) stacks.items) }
    ensures finished { IsTrue D.tells → IfOk result (λ stacks. AllZip (AreFinished (D.view disk.new).state) (map (λ memory. memory.items) memories.now) stacks.items) }
    ensures room { IsTrue D.tells → OnOk result (HasRoom store.new (D.view disk.new).state.files) }
    ensures writes { Writes D.Disk (is_given_since store.old store.new) (sum_by file_bytes (map (λ memory. memory.items) memories.now)) disk.old disk.new result }
{
    let mut stacks = Vec::with_capacity(alloc, memories.len())?;
    for memory in memories {
        stacks.push(write_memory(alloc, store, disk, memory)?)?;
    }
    Ok(stacks)
}

// Writes a memory whole: one page file of all its pages, and none of an empty memory.
fn write_memory<D: Disk>(
    alloc: Global,
    store: &mut HeightStore,
    disk: &mut D,
    memory: &[u8],
) -> Result<Stack, DiskError>
    requires memory { IsMemoryBytes memory.now }
    requires numbers { store.old.numbers_given < 2 ^ 61 }
    requires room { IsTrue D.tells → HasRoom store.old (D.view disk.old).state.files }

    ensures store { GivesNumbers 1 store.old store.new }
    ensures whole { IfOk result (λ stack. IsWholeStack memory.now stack) }
    ensures used { IfOk result (λ stack. AreUsed store.new stack) }
    ensures finished { IsTrue D.tells → IfOk result (λ stack. AreFinished (D.view disk.new).state memory.now stack) }
    ensures writes { Writes D.Disk (is_given_since store.old store.new) (file_bytes memory.now) disk.old disk.new result }
{
    let mut stack = Stack::empty(alloc);
    if memory.is_empty() {
        return Ok(stack);
    }
    let number = store.next_number();
    stack.push(write_whole(alloc, disk, number, memory)?)?;
    Ok(stack)
}
