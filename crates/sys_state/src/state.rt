ghost use Rattle.std.specs.Prelude.{◌≡◌, ◌≤◌, [], length, IfOk, IfSome, MatchOption, slice_get, Some, option_map};
ghost use Rattle.std.specs.Option.{option_copied};
ghost use Rattle.std.specs.FinMap.{find};
ghost use Rattle.format_spec.specs.Bytes.{bytes_cmp};
ghost use Rattle.sys_state.specs.System.{IsWithinLimits};
ghost use Rattle.format_spec.specs.declared.limits.TheConstants.{MAX_MEMORY_PAGES};
ghost use Rattle.state_spec.specs.Places.{Places};
ghost use Rattle.sys_state.specs.Calls.{canister_in, pages_of};

mod canisters;
mod copying;
mod decoding;
mod encoding;
mod entries;
mod sizes;

use crate::canister_id::CanisterId;
use crate::mem::Mem;
use crate::path::Path;
use crate::place::search;
use crate::record::CanisterRecord;
use byte_codec::{Blob, NoMemory};
use std::alloc::Global;
use std::marker::Model;

/// All of a state but the bytes of its memories: its time, its canisters by id and its entries by path.
#[derive(Debug, Drop)]
pub struct SysState {
    time: u64,
    // The pages of all memories.
    pages: u32,
    // In order of ids.
    canisters: Vec<(CanisterId, CanisterRecord)>,
    // In order of paths.
    entries: Vec<(Path, Blob)>,
}

impl Model for SysState {
    ghost use Rattle.sys_state.specs.System.{System};

    ghost Value = { System };

    ghost use Rattle.std.specs.Prelude.{◌≡◌};
    ghost use Rattle.sys_state.specs.System.{IsWithinLimits, system};
    ghost use Rattle.sys_state.specs.Calls.{all_pages_of};

    ghost view = { λ s. system s.time s.canisters.items s.entries.items };

    ghost invariant = { λ s. IsWithinLimits (system s.time s.canisters.items s.entries.items) × (s.pages ≡ all_pages_of (system s.time s.canisters.items s.entries.items)) };
}

impl SysState {
    /// A state of time 0 with no canister and no entry.
    pub fn new(alloc: Global) -> SysState
        ensures { result ≡ record { time = 0; canisters = []; entries = [] } }
    {
        SysState {
            time: 0,
            pages: 0,
            canisters: Vec::new(alloc),
            entries: Vec::new(alloc),
        }
    }

    /// The time.
    pub fn time(&self) -> u64
        ensures { result ≡ self.now.time }
    {
        self.time
    }

    /// Sets the time.
    pub fn set_time(&mut self, time: u64)
        ensures { self.new ≡ record self.old { time = time } }
    {
        self.time = time;
    }

    /// How many canisters there are: at most 1,024.
    pub fn canisters(&self) -> u32
        ensures count { result ≡ length self.now.canisters }
        ensures kept { IsWithinLimits self.now }
    {
        self.canisters.len() as u32
    }

    /// How many entries there are: at most 16,384.
    pub fn entries(&self) -> u32
        ensures count { result ≡ length self.now.entries }
        ensures kept { IsWithinLimits self.now }
    {
        self.entries.len() as u32
    }

    /// The i-th entry in order of paths, from 0. None from their number on.
    pub fn entry(&self, i: u32) -> Option<(&Path, &Blob)>
        ensures { MatchOption result (length self.now.entries ≤ i) (λ e. slice_get self.now.entries i ≡ Some (e.0.now, e.1.now)) }
    {
        let (path, value) = self.entries.get(i as usize)?;
        Some((path, value))
    }

    /// The i-th canister in order of ids, from 0. None from their number on.
    pub fn canister_at(&self, i: u32) -> Option<(&CanisterId, &CanisterRecord)>
        ensures { MatchOption result (length self.now.canisters ≤ i) (λ c. slice_get self.now.canisters i ≡ Some (c.0.now, c.1.now)) }
    {
        let (id, record) = self.canisters.get(i as usize)?;
        Some((id, record))
    }

    /// Where the canister stands in order of ids, from 0: Ok where it is there, and Err where it would come.
    pub fn place(&self, id: &CanisterId) -> Result<u32, u32>
        ensures { Places bytes_cmp id.now self.now.canisters result }
    {
        match search(&self.canisters, id) {
            Ok(i) => Ok(i as u32),
            Err(i) => Err(i as u32),
        }
    }

    /// The canister of this id. None where it is not there.
    pub fn canister(&self, id: &CanisterId) -> Option<&CanisterRecord>
        ensures { option_copied result ≡ canister_in self.now id.now }
    {
        let i = self.place(id).ok()?;
        Some(&self.canisters[i as usize].1)
    }

    /// The pages of a memory, at most 131,072. None where the canister is not there.
    pub fn pages(&self, id: &CanisterId, mem: Mem) -> Option<u32>
        ensures value { result ≡ option_map (pages_of mem) (canister_in self.now id.now) }
        ensures limit { IfSome result (λ n. n ≤ MAX_MEMORY_PAGES) }
    {
        let i = self.place(id).ok()?;
        Some(self.canisters[i as usize].1.pages(mem))
    }
}
