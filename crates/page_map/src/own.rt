//! The pages that maps have of their own.
ghost use Rattle.std.specs.Prelude.{◌≡◌, ℕ, ◌<◌, ◌^◌, [], None, IsSome, OnOk, OnErr, IfOk, filter, option_map, option_copied};
ghost use Rattle.std.specs.List.{range_with_len};
ghost use Rattle.page_map.specs.Maps.{OwnPage, owns_at, own_at, is_after, if_after};
ghost use Rattle.page_map.specs.Changes.{SameMaps, Adds, Puts, Drops};

use byte_codec::NoMemory;
use page_delta::{DeltaId, Deltas};
use page_pool::{PageBytes, PagePool};
use std::alloc::Global;
use std::marker::Model;

// The own pages of each map under an id. Forks share them.
#[derive(Drop)]
pub(crate) struct OwnPages {
    pool: PagePool,
    deltas: Deltas,
}

impl Model for OwnPages {
    ghost use Rattle.page_map.specs.Maps.{Maps};

    ghost Value = { Maps };

    ghost use Rattle.page_delta.specs.Delta.{Holds};
    ghost use Rattle.page_map.specs.Owned.{maps_in};

    ghost view = { λ s. maps_in s.pool s.deltas };

    ghost invariant = { λ s. Holds s.pool s.deltas };
}

impl OwnPages {
    // No maps.
    pub(crate) fn new(alloc: Global) -> OwnPages
        ensures { result ≡ record { own = [] } }
    {
        OwnPages {
            pool: PagePool::new(alloc),
            deltas: Deltas::new(alloc),
        }
    }

    // An id with no pages. After NoMemory nothing has changed.
    pub(crate) fn empty(&mut self, alloc: Global) -> Result<DeltaId, NoMemory>
        ensures added { IfOk result (λ id. Adds self.old self.new id (λ page. None)) }
        ensures err { OnErr result (SameMaps self.old self.new) }
    {
        self.deltas.empty(alloc)
    }

    // The bytes of a page, if the map has it of its own.
    pub(crate) fn page(&self, id: DeltaId, page: u32) -> Option<&PageBytes>
        requires { IsSome (owns_at self.now id) }
        ensures { option_copied result ≡ option_map (λ own. own.bytes) (own_at self.now id page) }
    {
        let entry = self.deltas.get(id, page)?;
        Some(self.pool.page(entry.slot))
    }

    // Gives a map a page of its own. After NoMemory nothing has changed.
    pub(crate) fn set(
        &mut self,
        alloc: Global,
        id: DeltaId,
        page: u32,
        bytes: &PageBytes,
        stamp: u64,
    ) -> Result<(), NoMemory>
        requires live { IsSome (owns_at self.old id) }
        requires page { page < 2 ^ 20 }
        ensures put { OnOk result (Puts self.old self.new id page (record { bytes = bytes.now; stamp = stamp })) }
        ensures err { OnErr result (self.new ≡ self.old) }
    {
        self.deltas
            .set(alloc, &mut self.pool, id, page, bytes, stamp)
    }

    // Another id with the same pages. After NoMemory nothing has changed.
    pub(crate) fn fork(&mut self, alloc: Global, id: DeltaId) -> Result<DeltaId, NoMemory>
        requires { IsSome (owns_at self.old id) }
        ensures added { IfOk result (λ fork. Adds self.old self.new fork (own_at self.old id)) }
        ensures err { OnErr result (self.new ≡ self.old) }
    {
        self.deltas.fork(alloc, &mut self.pool, id)
    }

    // Gives the pages of a map up.
    pub(crate) fn give_up(&mut self, id: DeltaId)
        requires { IsSome (owns_at self.old id) }
        ensures { Drops self.old self.new id }
    {
        self.deltas.drop_into(&mut self.pool, id);
    }

    // The pages of a map with a stamp above `b`, ascending.
    pub(crate) fn after(&self, alloc: Global, id: DeltaId, b: u64) -> Result<Vec<u32>, NoMemory>
        requires { IsSome (owns_at self.now id) }
        ensures { IfOk result (λ pages. (count : ℕ) → ((page : ℕ) (own : OwnPage) → own_at self.now id page ≡ Some own → page < count)
            → pages.items ≡ filter (λ page. is_after b (own_at self.now id page)) (range_with_len 0 count)) }
    {
        self.deltas.after(alloc, id, b)
    }

    // Another id with the pages of a map whose stamp is above `b`. After NoMemory every map is as before.
    pub(crate) fn keep_after(
        &mut self,
        alloc: Global,
        id: DeltaId,
        b: u64,
    ) -> Result<DeltaId, NoMemory>
        requires { IsSome (owns_at self.old id) }
        ensures added { IfOk result (λ kept. Adds self.old self.new kept (λ page. if_after b (own_at self.old id page))) }
        ensures err { OnErr result (SameMaps self.old self.new) }
    {
        self.deltas.keep_after(alloc, &mut self.pool, id, b)
    }
}
