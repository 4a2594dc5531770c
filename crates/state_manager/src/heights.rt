//! Lines on the heights that there are, in memory and published.

ghost use Rattle.std.specs.Prelude.{◌≡◌, ◌≤◌, ◌^◌, IsTrue};
ghost use Rattle.disk_model.specs.Causes.{Fails};
ghost use Rattle.height_store.specs.Errors.{IsBadFile};
ghost use Rattle.height_store.specs.Kept.{MatchesFiles};
ghost use Rattle.machine_spec.specs.Machine.{Machine};
ghost use Rattle.state_manager.specs.Causes.{purge_reply};
ghost use Rattle.state_manager.specs.Kept.{KeepsStates, Performs, DoesLine};

use crate::in_memory::{drop_height, find_height, heights_of};
use crate::manager::Manager;
use crate::published::begin;
use crate::publishing::publish;
use byte_codec::NoMemory;
use disk_model::{Disk, DiskError};
use format_spec::{MAX_HEIGHT, MAX_HEIGHTS, MAX_PUBLISHED};
use height_store::StoreError;
use script_text::{Command, Numbers, Refusal, Reply};
use std::alloc::Global;

impl Manager {
    // `heights`
    pub(crate) fn heights(&self, alloc: Global) -> Result<Reply, NoMemory>
        ensures { (m : Machine) → KeepsStates self.now m → Performs result self.now m Command.Heights }
    {
        Ok(Reply::Heights {
            live: self.live.height(),
            memory: heights_of(alloc, &self.memory)?,
            published: Numbers::new(self.store.heights(alloc)?),
        })
    }

    // `round`
    pub(crate) fn round(&mut self, alloc: Global) -> Result<Reply, NoMemory>
        ensures step { (m : Machine) → KeepsStates self.old m → Performs result self.new m Command.Round }
        ensures store { self.new.store ≡ self.old.store }
        ensures same { self.new.stopped ≡ self.old.stopped }
    {
        if self.memory.len() >= MAX_HEIGHTS {
            return Ok(Reply::Refused(Refusal::ManyHeights));
        }
        let height = self.live.height();
        if height > MAX_HEIGHT {
            return Ok(Reply::Refused(Refusal::HeightLimit));
        }
        self.live.keep_tree(alloc)?;
        let tree = self.live.tree_root(alloc)?;
        self.memory.push(self.live.copy(alloc)?)?;
        self.live.advance();
        Ok(Reply::Round { height, tree })
    }

    // `forget H`
    pub(crate) fn forget(&mut self, height: u64) -> Result<Reply, NoMemory>
        ensures step { (m : Machine) → KeepsStates self.old m → Performs result self.new m (Command.Forget height) }
        ensures store { self.new.store ≡ self.old.store }
        ensures same { self.new.stopped ≡ self.old.stopped }
    {
        match find_height(&self.memory, height) {
            Some(_) => {
                drop_height(&mut self.memory, height);
                Ok(Reply::Fine)
            }
            None => Ok(Reply::Refused(Refusal::NoHeight)),
        }
    }

    // `checkpoint`
    pub(crate) fn checkpoint<D: Disk>(
        &mut self,
        alloc: Global,
        disk: &mut D,
    ) -> Result<Reply, DiskError>
        requires numbers { self.old.store.numbers_given ≤ 2 ^ 60 }
        requires over { IsTrue D.tells → MatchesFiles self.old.store (D.view disk.old).state.files }
        ensures line { DoesLine D.tells self.old self.new (D.view disk.old) (D.view disk.new) result Command.Checkpoint }
        ensures cause { Fails D.Disk disk.old disk.new result }
    {
        let Some(state) = self.memory.last() else {
            return Ok(Reply::Refused(Refusal::NoHeight));
        };
        let height = state.height();
        if self.store.is_low(height) {
            return Ok(Reply::Refused(Refusal::HeightLow));
        }
        if self.store.count() as usize >= MAX_PUBLISHED {
            return Ok(Reply::Refused(Refusal::ManyMarks));
        }
        let root = publish(alloc, state, &mut self.store, disk)?;
        Ok(Reply::Published { height, root })
    }

    // `purge H`
    pub(crate) fn purge<D: Disk>(
        &mut self,
        alloc: Global,
        height: u64,
        disk: &mut D,
    ) -> Result<Reply, DiskError>
        requires over { IsTrue D.tells → MatchesFiles self.old.store (D.view disk.old).state.files }
        ensures line { DoesLine D.tells self.old self.new (D.view disk.old) (D.view disk.new) result (Command.Purge height) }
        ensures cause { Fails D.Disk disk.old disk.new result }
    {
        match self.store.purge(alloc, height, disk) {
            Ok(()) => Ok(Reply::Fine),
            Err(error) => refused_purge(error),
        }
    }

    // `reset H`
    pub(crate) fn reset<D: Disk>(
        &mut self,
        alloc: Global,
        height: u64,
        disk: &mut D,
    ) -> Result<Reply, DiskError>
        requires over { IsTrue D.tells → MatchesFiles self.old.store (D.view disk.old).state.files }
        ensures line { DoesLine D.tells self.old self.new (D.view disk.old) (D.view disk.new) result (Command.Reset height) }
        ensures cause { Fails D.Disk disk.old disk.new result }
    {
        if !self.store.is_published(height) {
            return Ok(Reply::Refused(Refusal::NoHeight));
        }
        if !self.store.is_newest(height) {
            return Ok(Reply::Refused(Refusal::HeightLow));
        }
        self.live = begin(alloc, &self.store, disk)?;
        self.memory.clear();
        Ok(Reply::Fine)
    }
}

// The reply to a purge that the store refused; an error of the disk stays. The error names no bad file.
fn refused_purge(error: StoreError) -> Result<Reply, DiskError>
    requires { IsBadFile error → ⊥ }
    ensures { result ≡ purge_reply error }
{
    match error {
        StoreError::NoHeight => Ok(Reply::Refused(Refusal::NoHeight)),
        StoreError::LastHeight => Ok(Reply::Refused(Refusal::LastHeight)),
        StoreError::Fault => Err(DiskError::Fault),
        StoreError::Memory => Err(DiskError::Memory),
        StoreError::BadMark(_) | StoreError::BadPage(_) => unreachable!(),
    }
}
