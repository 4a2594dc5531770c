//! Maps, each under an id.

ghost use Rattle.std.specs.Prelude.{◌≡◌, ℕ, ◌^◌, ◌<◌, [], length, None, OnOk, OnErr, IsOk, IfOk};
ghost use Rattle.page_pool.specs.Pool.{Pool, used_in};
ghost use Rattle.page_delta.specs.Delta.{map_of, IsLive, pages_of, find, pages_after, RiseFrom, Holds, Adds, IsOwn, Sets, Drops, KeepsAfter, SameReads};

use crate::entry::Entry;
use crate::keep::keep_root;
use crate::newer::stamped;
use crate::node::Node;
use crate::roots::{Root, drop_root, fork_root, make_room, new_root, own_place, put_entry};
use crate::tree::{look, place};
use byte_codec::NoMemory;
use page_pool::{PageBytes, PagePool};
use slab::Slab;
use std::alloc::Global;
use std::marker::Model;

/// One of the maps.
#[derive(Clone, Copy, Debug, PartialEq, Eq, Drop)]
pub struct DeltaId(u32);

impl Model for DeltaId {
    ghost use Rattle.std.specs.Prelude.{ℕ};

    ghost Value = { ℕ };

    ghost view = { λ s. s.0 };

    ghost inverse = { λ n. record { 0 = n } };
}

/// Maps from pages below 1,048,576 to entries, each under an id.
#[derive(Drop)]
pub struct Deltas {
    nodes: Slab<Node>,
    ids: Slab<Root>,
}

impl Model for Deltas {
    ghost use Rattle.std.specs.Prelude.{map, count_by, is_some};
    ghost use Rattle.page_delta.specs.Delta.{Deltas as Maps};

    ghost Value = { Maps };

    ghost use Rattle.page_delta.specs.Nodes.{leaf_of};
    ghost use Rattle.page_delta.specs.Roots.{map_below, AreSound};

    ghost view = { λ s. record {
      maps = map (map_below s.nodes.slots) s.ids.slots;
      leaves = map leaf_of s.nodes.slots;
      nodes = count_by is_some s.nodes.slots;
    } };

    ghost invariant = { λ s. AreSound s.nodes.slots s.ids.slots };
}

impl Deltas {
    /// No maps.
    pub fn new(alloc: Global) -> Deltas
        ensures { result ≡ record { maps = []; leaves = []; nodes = 0 } }
    {
        Deltas {
            nodes: Slab::new(alloc),
            ids: Slab::new(alloc),
        }
    }

    /// An id with an empty map. NoMemory where memory ran out, or there are too many ids or nodes; then nothing changes.
    pub fn empty(&mut self, _alloc: Global) -> Result<DeltaId, NoMemory>
        ensures added { IfOk result (λ id. Adds self.old self.new id []) }
        ensures err { OnErr result (self.new ≡ self.old) }
        ensures holds { OnOk result ((pool : Pool) → Holds pool self.old → Holds pool self.new) }
    {
        let id = new_root(&mut self.nodes, &mut self.ids)?;
        Ok(DeltaId(id))
    }

    /// What a map has at a page; None exactly where it has nothing there.
    pub fn get(&self, id: DeltaId, page: u32) -> Option<Entry>
        requires { IsLive self.now id }
        ensures { result ≡ find page (pages_of self.now id) }
    {
        let root = self.ids[id.0 as usize].node;
        if page >= 1_048_576 {
            return None;
        }
        look(&self.nodes, root, page)
    }

    /// How many pages a map has.
    pub fn pages(&self, id: DeltaId) -> u32
        requires { IsLive self.now id }
        ensures pages { result ≡ length (pages_of self.now id) }
        ensures rising { RiseFrom 0 (pages_of self.now id) }
    {
        self.ids[id.0 as usize].pages
    }

    /// Another id with the same map. It shares all its nodes, and takes constant time. NoMemory where memory ran out, or
    /// there are too many ids; then nothing changes.
    pub fn fork(
        &mut self,
        _alloc: Global,
        pool: &mut PagePool,
        id: DeltaId,
    ) -> Result<DeltaId, NoMemory>
        requires live { IsLive self.old id }
        requires holds { Holds pool.old self.old }
        ensures added { IfOk result (λ fork. Adds self.old self.new fork (pages_of self.old id)) }
        ensures err { OnErr result (self.new ≡ self.old) }
        ensures holds { Holds pool.new self.new }
        ensures pool { pool.new ≡ pool.old }
    {
        // The pool is lent and not used, and a call on it tells the proof what it has.
        let _used = pool.used();
        let fork = fork_root(&mut self.nodes, &mut self.ids, id.0)?;
        Ok(DeltaId(fork))
    }

    /// Sets the bytes and the stamp of a page below 1,048,576 in one map, and in no other. NoMemory where memory ran
    /// out, or there are too many nodes; then nothing changes. A page that is the map's own wants no memory.
    pub fn set(
        &mut self,
        alloc: Global,
        pool: &mut PagePool,
        id: DeltaId,
        page: u32,
        bytes: &PageBytes,
        stamp: u64,
    ) -> Result<(), NoMemory>
        requires live { IsLive self.old id }
        requires page { page < 2 ^ 20 }
        requires holds { Holds pool.old self.old }
        ensures set { OnOk result (Sets pool.old pool.new self.old self.new id page bytes.now stamp) }
        ensures err { OnErr result (self.new ≡ self.old) }
        ensures err_pool { OnErr result (pool.new ≡ pool.old) }
        ensures own { IsOwn self.old id page → IsOk result }
        ensures holds { Holds pool.new self.new }
    {
        if let Some(own) = own_place(&self.nodes, &self.ids, pool, id.0, page) {
            let slot = own.slot;
            *pool.page_mut(slot) = *bytes;
            place(&mut self.nodes, own.leaf, page % 32, Entry { slot, stamp });
            return Ok(());
        }
        make_room(&mut self.nodes, 4)?;
        pool.reserve(alloc, 1)?;
        let slot = pool.put(bytes);
        put_entry(
            &mut self.nodes,
            &mut self.ids,
            pool,
            id.0,
            page,
            Entry { slot, stamp },
        );
        Ok(())
    }

    /// Drops a map: its id is dead, and what no other map has is freed.
    pub fn drop_into(&mut self, pool: &mut PagePool, id: DeltaId)
        requires live { IsLive self.old id }
        requires holds { Holds pool.old self.old }
        ensures dropped { Drops pool.old pool.new self.old self.new id }
        ensures holds { Holds pool.new self.new }
        ensures all { ((other : ℕ) → map_of self.new other ≡ None) → used_in pool.new.slots ≡ 0 }
        ensures all_nodes { ((other : ℕ) → map_of self.new other ≡ None) → self.new.nodes ≡ 0 }
    {
        drop_root(&mut self.nodes, &mut self.ids, pool, id.0);
    }

    /// The pages of a map whose stamp is above `b`, ascending. NoMemory where memory ran out.
    pub fn after(&self, alloc: Global, id: DeltaId, b: u64) -> Result<Vec<u32>, NoMemory>
        requires { IsLive self.now id }
        ensures pages { IfOk result (λ pages. pages.items ≡ pages_after b (pages_of self.now id)) }
        ensures rising { RiseFrom 0 (pages_of self.now id) }
    {
        stamped(alloc, &self.nodes, self.ids[id.0 as usize].node, b)
    }

    /// Another id, with the entries of a map whose stamp is above `b`. NoMemory where memory ran out, or there are too
    /// many ids or nodes; then every map reads as before.
    pub fn keep_after(
        &mut self,
        _alloc: Global,
        pool: &mut PagePool,
        id: DeltaId,
        b: u64,
    ) -> Result<DeltaId, NoMemory>
        requires live { IsLive self.old id }
        requires holds { Holds pool.old self.old }
        ensures kept { IfOk result (λ kept. KeepsAfter pool.old pool.new self.old self.new id kept b) }
        ensures err { OnErr result (SameReads pool.old pool.new self.old self.new) }
        ensures holds { Holds pool.new self.new }
    {
        let kept = keep_root(&mut self.nodes, &mut self.ids, pool, id.0, b)?;
        Ok(DeltaId(kept))
    }
}
