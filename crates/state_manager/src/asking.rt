//! Lines that ask about a height: of what is published there first, and else of the state in memory.

ghost use Rattle.std.specs.Prelude.{◌≡◌, ◌≤◌, length, IsTrue};
ghost use Rattle.std.specs.Option.{option_copied};
ghost use Rattle.disk_model.specs.Causes.{Fails};
ghost use Rattle.height_store.specs.Kept.{MatchesFiles};
ghost use Rattle.machine_spec.specs.Machine.{Machine};
ghost use Rattle.state_manager.specs.Kept.{KeepsStates, Performs, DoesLine, held_at, published_height};

use crate::in_memory::{find_height, keep_tree_at};
use crate::manager::Manager;
use crate::published::{
    count_published, load, read_published, root_published, tree_published, witness_published,
};
use byte_codec::NoMemory;
use disk_model::{Disk, DiskError};
use height_store::PublishedHeight;
use live_state::HeightState;
use script_text::{Command, HeightOrLive, Refusal, Reply};
use std::alloc::Global;
use sys_state::{CanisterId, Mem, Path};

impl Manager {
    // `read HL ID MEM OFFSET LEN`
    pub(crate) fn read<D: Disk>(
        &self,
        alloc: Global,
        at: HeightOrLive,
        id: &CanisterId,
        mem: Mem,
        offset: u64,
        len: u64,
        disk: &mut D,
    ) -> Result<Reply, DiskError>
        requires over { IsTrue D.tells → MatchesFiles self.now.store (D.view disk.old).state.files }
        ensures line { DoesLine D.tells self.now self.now (D.view disk.old) (D.view disk.new) result (Command.Read at id.now mem offset len) }
        ensures cause { Fails D.Disk disk.old disk.new result }
    {
        if let Some(found) = self.published_at(at) {
            return read_published(alloc, found, disk, id, mem, offset, len);
        }
        match self.state_at(at) {
            Some(state) => Ok(state.read(alloc, id, mem, offset, len)?),
            None => Ok(Reply::Refused(Refusal::NoHeight)),
        }
    }

    // `scratch HL`
    pub(crate) fn scratch<D: Disk>(
        &self,
        alloc: Global,
        at: HeightOrLive,
        disk: &mut D,
    ) -> Result<Reply, DiskError>
        requires over { IsTrue D.tells → MatchesFiles self.now.store (D.view disk.old).state.files }
        ensures line { DoesLine D.tells self.now self.now (D.view disk.old) (D.view disk.new) result (Command.Scratch at) }
        ensures cause { Fails D.Disk disk.old disk.new result }
    {
        if let Some(found) = self.published_at(at) {
            let state = load(alloc, found, disk)?;
            return Ok(Reply::Scratch(state.root(alloc)?));
        }
        match self.state_at(at) {
            Some(state) => Ok(Reply::Scratch(state.root(alloc)?)),
            None => Ok(Reply::Refused(Refusal::NoHeight)),
        }
    }

    // `root HL`
    pub(crate) fn root(&self, alloc: Global, at: HeightOrLive) -> Result<Reply, NoMemory>
        ensures { (m : Machine) → KeepsStates self.now m → Performs result self.now m (Command.Root at) }
    {
        if let Some(found) = self.published_at(at) {
            return Ok(root_published(found));
        }
        match self.state_at(at) {
            Some(state) => Ok(Reply::Root(state.root(alloc)?)),
            None => Ok(Reply::Refused(Refusal::NoHeight)),
        }
    }

    // `manifest HL`
    pub(crate) fn count_manifest(&self, alloc: Global, at: HeightOrLive) -> Result<Reply, NoMemory>
        ensures { (m : Machine) → KeepsStates self.now m → Performs result self.now m (Command.Manifest at) }
    {
        if let Some(found) = self.published_at(at) {
            return Ok(count_published(found));
        }
        match self.state_at(at) {
            Some(state) => state.count_manifest(alloc),
            None => Ok(Reply::Refused(Refusal::NoHeight)),
        }
    }

    // `tree HL`
    pub(crate) fn tree(&mut self, alloc: Global, at: HeightOrLive) -> Result<Reply, NoMemory>
        ensures step { (m : Machine) → KeepsStates self.old m → Performs result self.new m (Command.Tree at) }
        ensures same { self.new ≡ self.old }
    {
        if let Some(found) = self.published_at(at) {
            return tree_published(alloc, found);
        }
        self.keep_tree(alloc, at)?;
        match self.state_at(at) {
            Some(state) => Ok(Reply::Tree(state.tree_root(alloc)?)),
            None => Ok(Reply::Refused(Refusal::NoHeight)),
        }
    }

    // `witness HL PATH ..`
    pub(crate) fn witness(
        &mut self,
        alloc: Global,
        at: HeightOrLive,
        paths: &[Path],
    ) -> Result<Reply, NoMemory>
        requires { 1 ≤ length paths.now }
        ensures step { (m : Machine) → KeepsStates self.old m → Performs result self.new m (Command.Witness at paths.now) }
        ensures same { self.new ≡ self.old }
    {
        if let Some(found) = self.published_at(at) {
            return witness_published(alloc, found, paths);
        }
        self.keep_tree(alloc, at)?;
        match self.state_at(at) {
            Some(state) => Ok(Reply::Witness(state.witness(alloc, paths)?)),
            None => Ok(Reply::Refused(Refusal::NoHeight)),
        }
    }

    // The state in memory that a line asks about.
    fn state_at(&self, at: HeightOrLive) -> Option<&HeightState>
        ensures { option_copied result ≡ held_at self.now at }
    {
        match at {
            HeightOrLive::Live => Some(&self.live),
            HeightOrLive::Height(height) => find_height(&self.memory, height),
        }
    }

    // What is published at the height that a line asks about.
    fn published_at(&self, at: HeightOrLive) -> Option<&PublishedHeight>
        ensures { option_copied result ≡ published_height self.now at }
    {
        match at {
            HeightOrLive::Live => None,
            HeightOrLive::Height(height) => self.store.find(height),
        }
    }

    // Keeps the tree of the state in memory that a line asks about.
    fn keep_tree(&mut self, alloc: Global, at: HeightOrLive) -> Result<(), NoMemory>
        ensures { self.new ≡ self.old }
    {
        match at {
            HeightOrLive::Live => self.live.keep_tree(alloc),
            HeightOrLive::Height(height) => keep_tree_at(alloc, &mut self.memory, height),
        }
    }
}
