//! Published heights, and the lines on them.

ghost use Rattle.std.specs.Prelude.{◌≡◌, ◌≤◌, ◌+◌, ◌*◌, List, length, IsTrue, IfOk};
ghost use Rattle.std.specs.List.{AllZip};
ghost use Rattle.format_spec.specs.declared.limits.TheConstants.{PAGE_SIZE as page_size};
ghost use Rattle.state_spec.specs.Memory.{pages_holding};
ghost use Rattle.state_spec.specs.Root.{root_of};
ghost use Rattle.store_spec.specs.Image.{Published, opened_state};
ghost use Rattle.disk_model.specs.Causes.{Fails};
ghost use Rattle.disk_model.specs.OnlyReads.{OnlyReads};
ghost use Rattle.height_store.specs.Kept.{HasStacks, IsReadable, ShowsHeight};
ghost use Rattle.height_store.specs.Known.{KnowsHeight, bytes_of};
ghost use Rattle.machine_spec.specs.Costs.{pages_told};
ghost use Rattle.machine_spec.specs.HeightSteps.{counts_of, tree_root};
ghost use Rattle.machine_spec.specs.LiveSteps.{read_reply};
ghost use Rattle.machine_spec.specs.Machine.{start};
ghost use Rattle.machine_spec.specs.WitnessSteps.{witness_text};
ghost use Rattle.state_manager.specs.Kept.{newest_bytes};
ghost use Rattle.live_state.specs.StateKept.{KeepsState, live_of};

use byte_codec::NoMemory;
use disk_model::{Disk, DiskError};
use format_spec::PAGE_SIZE;
use height_store::{HeightStore, PublishedHeight};
use live_state::{HeightState, manifest_counts, memory_index, tree_root_of, witness_of};
use script_text::{Refusal, Reply};
use std::alloc::Global;
use sys_state::{CanisterId, Mem, Path};

/// The live state of a store that opens at a published height, with all its bytes, at the height behind it.
pub fn load<D: Disk>(
    alloc: Global,
    found: &PublishedHeight,
    disk: &mut D,
) -> Result<HeightState, DiskError>
    requires { IsTrue D.tells → HasStacks (D.view disk.old).state.files found.now }
    ensures state { IsTrue D.tells → (p : Published) → ShowsHeight (D.view disk.old).state.files found.now p
        → IfOk result (λ state. KeepsState state (p.height + 1, opened_state p)) }
    ensures reads_only { IsTrue D.tells → OnlyReads (bytes_of found.now) (D.view disk.old) (D.view disk.new) }
    ensures cause { Fails D.Disk disk.old disk.new result }
{
    let memories = found.read_memories(alloc, disk)?;
    let next = found.height().saturating_add(1);
    Ok(HeightState::loaded(found.sys().copy(alloc)?, memories, next))
}

/// The state that a store goes on from: that of its newest height, or an empty one.
pub fn begin<D: Disk>(
    alloc: Global,
    store: &HeightStore,
    disk: &mut D,
) -> Result<HeightState, DiskError>
    requires readable { IsTrue D.tells → IsReadable store.now.heights (D.view disk.old).state.files }
    ensures state { IsTrue D.tells → (ps : List Published) → AllZip (ShowsHeight (D.view disk.old).state.files) store.now.heights ps
        → IfOk result (λ state. KeepsState state (live_of (start ps))) }
    ensures reads_only { IsTrue D.tells → OnlyReads (newest_bytes store.now.heights) (D.view disk.old) (D.view disk.new) }
    ensures cause { Fails D.Disk disk.old disk.new result }
{
    match store.last() {
        Some(found) => load(alloc, found, disk),
        None => Ok(HeightState::new(alloc)),
    }
}

/// `read H ID MEM OFFSET LEN` at a published height.
pub fn read_published<D: Disk>(
    alloc: Global,
    found: &PublishedHeight,
    disk: &mut D,
    id: &CanisterId,
    mem: Mem,
    offset: u64,
    len: u64,
) -> Result<Reply, DiskError>
    requires { IsTrue D.tells → HasStacks (D.view disk.old).state.files found.now }
    ensures reply { IsTrue D.tells → (p : Published) → ShowsHeight (D.view disk.old).state.files found.now p
        → IfOk result (λ reply. reply ≡ read_reply p.state id.now mem offset len) }
    ensures reads_only { IsTrue D.tells → OnlyReads (page_size * pages_holding offset len) (D.view disk.old) (D.view disk.new) }
    ensures told { IsTrue D.tells → IfOk result (λ reply. OnlyReads (page_size * pages_told reply offset len) (D.view disk.old) (D.view disk.new)) }
    ensures cause { Fails D.Disk disk.old disk.new result }
{
    let sys = found.sys();
    // Its contract bounds how many canisters there are.
    let _count = sys.canisters();
    let Ok(place) = sys.place(id) else {
        return Ok(Reply::Refused(Refusal::NoCanister));
    };
    let Some(pages) = sys.pages(id, mem) else {
        unreachable!();
    };
    if offset.saturating_add(len) > pages as u64 * PAGE_SIZE as u64 {
        return Ok(Reply::Refused(Refusal::PastEnd));
    }
    let file = memory_index(place, mem) as u32;
    let bytes = found.read_bytes(alloc, disk, file, offset, len)?;
    Ok(Reply::Bytes(bytes))
}

/// `root H` at a published height, by its mark.
pub fn root_published(found: &PublishedHeight) -> Reply
    ensures { (p : Published) → KnowsHeight found.now p → result ≡ Reply.Root (root_of p.state) }
{
    Reply::Root(found.mark().root)
}

/// `manifest H` at a published height, by its mark. It hashes nothing.
pub fn count_published(found: &PublishedHeight) -> Reply
    ensures { (p : Published) → KnowsHeight found.now p → result ≡ counts_of p.state }
{
    manifest_counts(found.mark().system.bytes(), found.sys())
}

/// `tree H` at a published height.
pub fn tree_published(alloc: Global, found: &PublishedHeight) -> Result<Reply, NoMemory>
    ensures { (p : Published) → KnowsHeight found.now p → IfOk result (λ reply. reply ≡ Reply.Tree (tree_root p.state)) }
{
    Ok(Reply::Tree(tree_root_of(alloc, found.sys())?))
}

/// `witness H PATH ..` at a published height.
pub fn witness_published(
    alloc: Global,
    found: &PublishedHeight,
    paths: &[Path],
) -> Result<Reply, NoMemory>
    requires { 1 ≤ length paths.now }
    ensures { (p : Published) → KnowsHeight found.now p → IfOk result (λ reply. reply ≡ Reply.Witness (witness_text p.state paths.now)) }
{
    Ok(Reply::Witness(witness_of(alloc, found.sys(), paths)?))
}
