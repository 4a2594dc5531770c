//! A state at its height, and the lines on it.

ghost use Rattle.std.specs.Prelude.{◌≡◌, ◌≤◌, ◌<◌, ◌+◌, ◌-◌, ◌^◌, ℕ, length, map, IfOk, IfSome};
ghost use Rattle.format_spec.specs.declared.limits.TheConstants.{MAX_MODULE, MAX_CERTIFIED, MAX_VALUE};
ghost use Rattle.state_spec.specs.Manifest.{manifest_of};
ghost use Rattle.state_spec.specs.Root.{root_of};
ghost use Rattle.state_spec.specs.State.{State, memory_bytes, system_of};
ghost use Rattle.state_spec.specs.SystemText.{system_text};
ghost use Rattle.sys_state.specs.System.{part_of};
ghost use Rattle.tree_spec.specs.Labelled.{state_tree};
ghost use Rattle.manifest.specs.Fits.{FitMemories, FitsText};
ghost use Rattle.hash_tree.specs.View.{tree_view};
ghost use Rattle.machine_spec.specs.HeightSteps.{counts_of, tree_root};
ghost use Rattle.machine_spec.specs.LiveSteps.{read_reply};
ghost use Rattle.machine_spec.specs.Machine.{Machine};
ghost use Rattle.machine_spec.specs.States.{empty_state};
ghost use Rattle.machine_spec.specs.WitnessSteps.{witness_text};
ghost use Rattle.sys_state.specs.Memories.{index_of, HaveSizes, AreWithin};
ghost use Rattle.live_state.specs.StateKept.{KeepsState, PerformsState, live_of};

use crate::canisters::{create_canister, remove_canister};
use crate::memories::{copy_memories, grow_memory, write_memory};
use crate::refusals::reply_to;
use byte_codec::{Blob, NoMemory};
use format_spec::VERSION;
use hash_domain::Hash32;
use hash_tree::StateTree;
use manifest::{Manifest, count, from_scratch};
use script_text::{Command, Refusal, Reply};
use std::alloc::Global;
use std::marker::Model;
use sys_state::{CanisterId, Mem, Path, SysState};
use witness::{to_cbor, witness_of_state};

/// A state with all its bytes, and its height.
#[derive(Drop)]
pub struct HeightState {
    sys: SysState,
    // The bytes of the memories, heap and stable of each canister in order of ids.
    memories: Vec<Vec<u8>>,
    height: u64,
    // The tree of the state, from the first line on that asks for it until it may change. Memories have no place in it.
    tree: Option<StateTree>,
}

// Contracts see no tree: each line answers the same with one and without.
impl Model for HeightState {
    ghost use Rattle.std.specs.Prelude.{map};
    ghost use Rattle.live_state.specs.StateKept.{StateView, IsStateView};

    ghost Value = { StateView };

    ghost view = { λ m. record { system = m.sys; memories = map (λ v. v.items) m.memories.items; height = m.height } };

    ghost invariant = { λ m. IsStateView (record { system = m.sys; memories = map (λ v. v.items) m.memories.items; height = m.height }) m.tree };
}

/// Where a memory of the canister at a place stands among all memories.
pub fn memory_index(place: u32, mem: Mem) -> usize
    ensures { result ≡ index_of place mem }
{
    match mem {
        Mem::Heap => 2 * place as usize,
        Mem::Stable => 2 * place as usize + 1,
    }
}

impl HeightState {
    /// The state of an empty store: no canister and no entry, at time 0 and height 1.
    pub fn new(alloc: Global) -> HeightState
        ensures { KeepsState result (1, empty_state) }
    {
        HeightState {
            sys: SysState::new(alloc),
            memories: Vec::new(alloc),
            height: 1,
            tree: None,
        }
    }

    /// The state with these parts and these bytes of memories, heap and stable of each canister in order of ids, at a height.
    /// It is within the limits of version 1.
    pub fn loaded(sys: SysState, memories: Vec<Vec<u8>>, height: u64) -> HeightState
        requires sizes { HaveSizes sys.canisters (map (λ memory. memory.items) memories.items) }
        requires within { AreWithin 1 (map (λ memory. memory.items) memories.items) }
        requires from_one { 1 ≤ height }
        ensures { result ≡ record { system = sys; memories = map (λ memory. memory.items) memories.items; height = height } }
    {
        HeightState {
            sys,
            memories,
            height,
            tree: None,
        }
    }

    /// `canister ID`
    pub fn create(&mut self, alloc: Global, id: &CanisterId) -> Result<Reply, NoMemory>
        ensures { (m : Machine) → KeepsState self.old (live_of m) → PerformsState result self.new m (Command.Canister id.now) }
    {
        self.tree = None;
        create_canister(alloc, &mut self.sys, &mut self.memories, id, self.height)
    }

    /// `drop ID`
    pub fn remove(&mut self, id: &CanisterId) -> Result<Reply, NoMemory>
        ensures { (m : Machine) → KeepsState self.old (live_of m) → PerformsState result self.new m (Command.Remove id.now) }
    {
        self.tree = None;
        remove_canister(&mut self.sys, &mut self.memories, id)
    }

    /// `grow ID MEM N`
    pub fn grow(&mut self, id: &CanisterId, mem: Mem, pages: u64) -> Result<Reply, NoMemory>
        ensures { (m : Machine) → KeepsState self.old (live_of m) → PerformsState result self.new m (Command.Grow id.now mem pages) }
    {
        let Ok(place) = self.sys.place(id) else {
            return Ok(Reply::Refused(Refusal::NoCanister));
        };
        let memory = &mut self.memories[memory_index(place, mem)];
        grow_memory(&mut self.sys, memory, id, mem, pages)
    }

    /// `write ID MEM OFFSET HEX`
    pub fn write(
        &mut self,
        id: &CanisterId,
        mem: Mem,
        offset: u64,
        bytes: &[u8],
    ) -> Result<Reply, NoMemory>
        ensures { (m : Machine) → KeepsState self.old (live_of m) → PerformsState result self.new m (Command.Write id.now mem offset bytes.now) }
    {
        let Ok(place) = self.sys.place(id) else {
            return Ok(Reply::Refused(Refusal::NoCanister));
        };
        let memory = &mut self.memories[memory_index(place, mem)];
        write_memory(&mut self.sys, memory, id, mem, offset, bytes)
    }

    /// `module ID HEX` and `module ID none`
    pub fn install(&mut self, id: &CanisterId, module: Option<Blob>) -> Result<Reply, NoMemory>
        requires { IfSome «module» (λ wasm. length wasm ≤ MAX_MODULE) }
        ensures { (m : Machine) → KeepsState self.old (live_of m) → PerformsState result self.new m (Command.Module id.now «module») }
    {
        self.tree = None;
        reply_to(self.sys.set_module(id, module))
    }

    /// `certify ID HEX`
    pub fn certify(&mut self, id: &CanisterId, bytes: Blob) -> Result<Reply, NoMemory>
        requires { length bytes ≤ MAX_CERTIFIED }
        ensures { (m : Machine) → KeepsState self.old (live_of m) → PerformsState result self.new m (Command.Certify id.now bytes) }
    {
        self.tree = None;
        reply_to(self.sys.set_certified(id, bytes))
    }

    /// `put PATH HEX`
    pub fn put(&mut self, alloc: Global, path: Path, value: Blob) -> Result<Reply, NoMemory>
        requires { length value ≤ MAX_VALUE }
        ensures { (m : Machine) → KeepsState self.old (live_of m) → PerformsState result self.new m (Command.Put path value) }
    {
        self.tree = None;
        reply_to(self.sys.put(alloc, path, value))
    }

    /// `time N`
    pub fn set_time(&mut self, time: u64) -> Result<Reply, NoMemory>
        ensures { (m : Machine) → KeepsState self.old (live_of m) → PerformsState result self.new m (Command.Time time) }
    {
        self.tree = None;
        self.sys.set_time(time);
        Ok(Reply::Fine)
    }

    /// `del PATH`
    pub fn delete(&mut self, path: &Path) -> Result<Reply, NoMemory>
        ensures { (m : Machine) → KeepsState self.old (live_of m) → PerformsState result self.new m (Command.Del path.now) }
    {
        self.tree = None;
        reply_to(self.sys.del(path))
    }

    /// `read` of the state.
    pub fn read(
        &self,
        alloc: Global,
        id: &CanisterId,
        mem: Mem,
        offset: u64,
        len: u64,
    ) -> Result<Reply, NoMemory>
        ensures { (k : ℕ × State) → KeepsState self.now k → IfOk result (λ reply. reply ≡ read_reply k.1 id.now mem offset len) }
    {
        let Ok(place) = self.sys.place(id) else {
            return Ok(Reply::Refused(Refusal::NoCanister));
        };
        let memory = &self.memories[memory_index(place, mem)];
        if offset.saturating_add(len) > memory.len() as u64 {
            return Ok(Reply::Refused(Refusal::PastEnd));
        }
        let bytes = &memory[offset as usize..offset as usize + len as usize];
        Ok(Reply::Bytes(Blob::from_slice(alloc, bytes)?))
    }

    // The manifest of the state, all of whose bytes are hashed.
    pub fn manifest(&self, alloc: Global) -> Result<Manifest, NoMemory>
        ensures value { (k : ℕ × State) → KeepsState self.now k → IfOk result (λ found. found ≡ manifest_of k.1) }
        ensures fits { IfOk result FitsText }
    {
        let system = self.sys.encode(alloc)?;
        from_scratch(alloc, system.bytes(), &self.sys, &self.memories, VERSION)
    }

    /// The root hash of the manifest of the state, all of whose bytes are hashed.
    pub fn root(&self, alloc: Global) -> Result<Hash32, NoMemory>
        ensures { (k : ℕ × State) → KeepsState self.now k → IfOk result (λ root. root ≡ root_of k.1) }
    {
        let manifest = self.manifest(alloc)?;
        let meta = manifest.meta(alloc)?;
        Ok(meta.root())
    }

    /// What the manifest of the state counts. It hashes nothing.
    pub fn count_manifest(&self, alloc: Global) -> Result<Reply, NoMemory>
        ensures { (k : ℕ × State) → KeepsState self.now k → IfOk result (λ reply. reply ≡ counts_of k.1) }
    {
        let system = self.sys.encode(alloc)?;
        Ok(manifest_counts(system.bytes(), &self.sys))
    }

    /// The height, 1 or above.
    pub fn height(&self) -> u64
        ensures value { result ≡ self.now.height }
        ensures from_one { 1 ≤ result }
    {
        self.height
    }

    /// The state but for its memories.
    pub fn system(&self) -> &SysState
        ensures { result.now ≡ self.now.system }
    {
        &self.sys
    }

    /// The bytes of the memories, heap and stable of each canister in order of ids, as many as its pages have, and within
    /// the limits of version 1.
    pub fn memories(&self) -> &[Vec<u8>]
        ensures value { map (λ memory. memory.items) result.now ≡ self.now.memories }
        ensures fit { FitMemories (part_of self.now.system) self.now.memories }
        ensures within { AreWithin 1 self.now.memories }
    {
        &self.memories
    }

    /// Goes on at the next height.
    pub fn advance(&mut self)
        requires { self.old.height < 2 ^ 64 - 1 }
        ensures { self.new ≡ record self.old { height = self.old.height + 1 } }
    {
        self.height += 1;
    }

    /// The same state at the same height. A tree that is kept goes to the copy.
    pub fn copy(&mut self, alloc: Global) -> Result<HeightState, NoMemory>
        ensures copy { IfOk result (λ copy. copy ≡ self.old) }
        ensures same { self.new ≡ self.old }
    {
        Ok(HeightState {
            sys: self.sys.copy(alloc)?,
            memories: copy_memories(alloc, &self.memories)?,
            height: self.height,
            tree: self.tree.take(),
        })
    }

    /// Keeps the tree of the state until it may change, so that lines that ask for it build none. NoMemory where memory runs out.
    pub fn keep_tree(&mut self, alloc: Global) -> Result<(), NoMemory>
        ensures { self.new ≡ self.old }
    {
        if self.tree.is_none() {
            self.tree = Some(StateTree::build(alloc, &self.sys)?);
        }
        Ok(())
    }

    /// The root of the tree of the state.
    pub fn tree_root(&self, alloc: Global) -> Result<Hash32, NoMemory>
        ensures { (k : ℕ × State) → KeepsState self.now k → IfOk result (λ root. root ≡ tree_root k.1) }
    {
        match &self.tree {
            Some(tree) => Ok(tree.root()),
            None => tree_root_of(alloc, &self.sys),
        }
    }

    /// The witness of these paths in the tree of the state.
    pub fn witness(&self, alloc: Global, paths: &[Path]) -> Result<Blob, NoMemory>
        requires { 1 ≤ length paths.now }
        ensures { (k : ℕ × State) → KeepsState self.now k → IfOk result (λ text. text ≡ witness_text k.1 paths.now) }
    {
        match &self.tree {
            Some(tree) => witness_in(alloc, &self.sys, tree, paths),
            None => witness_of(alloc, &self.sys, paths),
        }
    }
}

/// The root hash of the tree of a state with these parts.
pub fn tree_root_of(alloc: Global, sys: &SysState) -> Result<Hash32, NoMemory>
    ensures { (s : State) → system_of s ≡ part_of sys.now → IfOk result (λ root. root ≡ tree_root s) }
{
    let tree = StateTree::build(alloc, sys)?;
    Ok(tree.root())
}

/// The bytes of the witness of these paths in the tree of a state with these parts.
pub fn witness_of(alloc: Global, sys: &SysState, paths: &[Path]) -> Result<Blob, NoMemory>
    requires { 1 ≤ length paths.now }
    ensures { (s : State) → system_of s ≡ part_of sys.now → IfOk result (λ text. text ≡ witness_text s paths.now) }
{
    let tree = StateTree::build(alloc, sys)?;
    witness_in(alloc, sys, &tree, paths)
}

// The same, where the tree is there.
fn witness_in(
    alloc: Global,
    sys: &SysState,
    tree: &StateTree,
    paths: &[Path],
) -> Result<Blob, NoMemory>
    requires tree { tree_view tree.now ≡ state_tree (part_of sys.now) }
    requires paths { 1 ≤ length paths.now }
    ensures { (s : State) → system_of s ≡ part_of sys.now → IfOk result (λ text. text ≡ witness_text s paths.now) }
{
    // Its contract says that the state is valid, as `witness_of_state` needs.
    let _count = sys.canisters();
    let shown = witness_of_state(alloc, tree, paths)?;
    to_cbor(alloc, &shown)
}

/// What the manifest of a state with these parts counts, by the sizes of its memories. It hashes nothing and takes no memory.
pub fn manifest_counts(system: &[u8], sys: &SysState) -> Reply
    requires { system.now ≡ system_text (part_of sys.now) }
    ensures { (s : State) → s.version ≡ 1 → system_of s ≡ part_of sys.now → FitMemories (part_of sys.now) (memory_bytes s) → result ≡ counts_of s }
{
    let counts = count(system, sys);
    Reply::Manifest {
        files: counts.files,
        chunks: counts.chunks,
        pieces: counts.pieces,
        bytes: counts.bytes,
    }
}
