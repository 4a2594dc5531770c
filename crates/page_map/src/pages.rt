//! Maps of memories' pages.
ghost use Rattle.std.specs.Prelude.{◌≡◌, ◌≢◌, ℕ, ◌+◌, ◌*◌, ◌≤◌, [], List, length, None, IsTrue, IsSome, OnOk, OnErr, IfOk};
ghost use Rattle.std.specs.List.{AllByRecursion};
ghost use Rattle.format_spec.specs.declared.limits.TheConstants.{PAGE_SIZE as page_size, MAX_MEMORY_PAGES};
ghost use Rattle.page_spec.specs.Layers.{Layer};
ghost use Rattle.disk_model.specs.Causes.{Fails};
ghost use Rattle.disk_model.specs.OnlyReads.{OnlyReads};
ghost use Rattle.page_file.specs.Files.{IsAsKnown};
ghost use Rattle.layer_stack.specs.Stacks.{AreLayers, EndBy};
ghost use Rattle.page_map.specs.Maps.{owns_at, own_at, if_after};
ghost use Rattle.page_map.specs.Reads.{IsLive, bytes_of, dirty_of};
ghost use Rattle.page_map.specs.Changes.{SameMaps, KeepsOthers};
ghost use Rattle.page_map.specs.Calls.{ReadsFrom, SameShape, Overwrites, Stamps, Grows, Rebases, ReadAlike};
ghost use Rattle.page_map.specs.Pieces.{pages_for_read, pages_for_write};

use crate::PageMap;
use crate::own::OwnPages;
use crate::pieces::{pages_of_range, piece_of};
use crate::reads::read_range;
use crate::writes::{write_fork, write_page};
use byte_codec::NoMemory;
use disk_model::{Disk, DiskError};
use layer_stack::Stack;
use std::alloc::Global;
use std::marker::Model;

/// Maps of memories' pages, and the pages that were written into them.
#[derive(Drop)]
pub struct Pages {
    own: OwnPages,
    // How many pages of files may be kept in memory. None is kept yet.
    cache: u32,
}

// Contracts see the pages that each live map has of its own.
impl Model for Pages {
    ghost use Rattle.page_map.specs.Maps.{Maps};

    ghost Value = { Maps };

    ghost view = { λ s. s.own };
}

impl Pages {
    /// No maps. `cache` pages of files may be kept in memory. NoMemory where memory ran out.
    pub fn new(alloc: Global, cache: u32) -> Result<Pages, NoMemory>
        ensures { IfOk result (λ pages. pages ≡ record { own = [] }) }
    {
        Ok(Pages {
            own: OwnPages::new(alloc),
            cache,
        })
    }

    /// How many pages a map has.
    pub fn length(&self, map: &PageMap) -> u32
        ensures { result ≡ map.now.length }
    {
        map.length
    }

    /// The layers below the pages of a map's own.
    pub fn stack<'a>(&self, map: &'a PageMap) -> &'a Stack
        ensures { result.now ≡ map.now.stack }
    {
        &map.stack
    }

    /// A map of no pages. NoMemory where memory ran out; every map is then as before.
    pub fn empty(&mut self, alloc: Global) -> Result<PageMap, NoMemory>
        ensures live { IfOk result (λ map. IsLive self.new map) }
        ensures fresh { IfOk result (λ map. owns_at self.old map.id ≡ None) }
        ensures empty { IfOk result (λ map. (map.stack ≡ []) × (map.length ≡ 0)) }
        ensures others { IfOk result (λ map. KeepsOthers self.old self.new map.id) }
        ensures unchanged { OnErr result (SameMaps self.old self.new) }
    {
        let id = self.own.empty(alloc)?;
        Ok(PageMap {
            id,
            stack: Stack::empty(alloc),
            length: 0,
        })
    }

    /// A map of so many pages over these layers, with none of its own. NoMemory where memory ran out; every map is then as before.
    pub fn over(&mut self, alloc: Global, stack: Stack, length: u32) -> Result<PageMap, NoMemory>
        requires few { length ≤ MAX_MEMORY_PAGES }
        requires within { EndBy length stack }
        ensures live { IfOk result (λ map. IsLive self.new map) }
        ensures fresh { IfOk result (λ map. owns_at self.old map.id ≡ None) }
        ensures over { IfOk result (λ map. (map.stack ≡ stack) × (map.length ≡ length)) }
        ensures own { IfOk result (λ map. (page : ℕ) → own_at self.new map.id page ≡ None) }
        ensures others { IfOk result (λ map. KeepsOthers self.old self.new map.id) }
        ensures unchanged { OnErr result (SameMaps self.old self.new) }
    {
        let id = self.own.empty(alloc)?;
        Ok(PageMap { id, stack, length })
    }

    /// Reads bytes of a map from a place on. They are within the map, and the disk has the files of its layers as they were opened or finished.
    /// It reads a page of the disk at most once, and none that the map has of its own. Fault where the disk failed, Memory where memory ran out;
    /// `into` then has any bytes.
    pub fn read<D: Disk>(
        &mut self,
        alloc: Global,
        map: &PageMap,
        disk: &mut D,
        at: u64,
        into: &mut [u8],
    ) -> Result<(), DiskError>
        requires live { IsLive self.old map.now }
        requires within { at + length into.old ≤ map.now.length * page_size }
        requires kept { IsTrue D.tells → AllByRecursion (IsAsKnown (D.view disk.old).state.files) map.now.stack }

        ensures bytes { IsTrue D.tells → OnOk result (ReadsFrom (D.view disk.old).state.files self.old map.now at (length into.old) into.new) }
        ensures unchanged { SameMaps self.old self.new }
        ensures reads_only { IsTrue D.tells → OnlyReads (page_size * length (pages_for_read self.old map.now.id at (length into.old))) (D.view disk.old) (D.view disk.new) }
        ensures cause { Fails D.Disk disk.old disk.new result }
    {
        read_range(&self.own, alloc, disk, map.id, &map.stack, at, into)
    }

    /// Writes bytes into a map from a place on; the pages that hold one of them become pages of its own, with this stamp. The bytes are within
    /// the map, and the disk has the files of its layers as they were opened or finished. It reads a page of the disk only where it fills
    /// that in part, so two at most. Fault where the disk failed, Memory where memory ran out; every map is then as before.
    pub fn write<D: Disk>(
        &mut self,
        alloc: Global,
        map: &mut PageMap,
        disk: &mut D,
        at: u64,
        bytes: &[u8],
        stamp: u64,
    ) -> Result<(), DiskError>
        requires live { IsLive self.old map.old }
        requires within { at + length bytes.now ≤ map.old.length * page_size }
        requires kept { IsTrue D.tells → AllByRecursion (IsAsKnown (D.view disk.old).state.files) map.old.stack }

        ensures bytes { IsTrue D.tells → OnOk result (Overwrites (D.view disk.old).state.files self.old self.new map.old map.new at bytes.now) }
        ensures stamps { OnOk result (Stamps self.old self.new map.old map.new at (length bytes.now) stamp) }
        ensures live { IsLive self.new map.new }
        ensures shape { SameShape map.old map.new }
        ensures others { KeepsOthers self.old self.new map.old.id }
        ensures apart { (other : ℕ) → other ≢ map.old.id → IsSome (owns_at self.old other) → other ≢ map.new.id }
        ensures refused { OnErr result ((map.new ≡ map.old) × SameMaps self.old self.new) }
        ensures reads_only { IsTrue D.tells → OnlyReads (page_size * length (pages_for_write self.old map.old.id at (length bytes.now))) (D.view disk.old) (D.view disk.new) }
        ensures cause { Fails D.Disk disk.old disk.new result }
    {
        let pages = pages_of_range(at, bytes.len() as u64);
        match pages.1 - pages.0 {
            0 => Ok(()),
            1 => {
                let start = piece_of(at, bytes.len(), pages.0).start;
                write_page(
                    &mut self.own,
                    alloc,
                    disk,
                    map.id,
                    &map.stack,
                    pages.0,
                    start,
                    bytes,
                    stamp,
                )?;
                Ok(())
            }
            _ => {
                map.id = write_fork(
                    &mut self.own,
                    alloc,
                    disk,
                    map.id,
                    &map.stack,
                    pages,
                    at,
                    bytes,
                    stamp,
                )?;
                Ok(())
            }
        }
    }

    /// Adds so many pages of zeros to a map, up to `MAX_MEMORY_PAGES` in all.
    pub fn grow(&mut self, map: &mut PageMap, pages: u32)
        requires live { IsLive self.old map.old }
        requires few { map.old.length + pages ≤ MAX_MEMORY_PAGES }
        ensures grown { map.new ≡ record map.old { length = map.old.length + pages } }
        ensures bytes { Grows self.old map.old map.new pages }
        ensures live { IsLive self.new map.new }
        ensures unchanged { self.new ≡ self.old }
    {
        map.length += pages;
    }

    /// Another map that reads the same, and shares its pages. NoMemory where memory ran out; every map is then as before.
    pub fn fork(&mut self, alloc: Global, map: &PageMap) -> Result<PageMap, NoMemory>
        requires { IsLive self.old map.now }
        ensures live { IfOk result (λ fork. IsLive self.new fork) }
        ensures fresh { IfOk result (λ fork. owns_at self.old fork.id ≡ None) }
        ensures shape { IfOk result (λ fork. SameShape map.now fork) }
        ensures own { IfOk result (λ fork. (page : ℕ) → own_at self.new fork.id page ≡ own_at self.old map.now.id page) }
        ensures bytes { IfOk result (λ fork. (layers : List Layer) → bytes_of layers self.new fork ≡ bytes_of layers self.old map.now) }
        ensures others { IfOk result (λ fork. KeepsOthers self.old self.new fork.id) }
        ensures unchanged { OnErr result (SameMaps self.old self.new) }
    {
        let stack = map.stack.copy(alloc)?;
        let id = self.own.fork(alloc, map.id)?;
        Ok(PageMap {
            id,
            stack,
            length: map.length,
        })
    }

    /// The pages of a map with a stamp above `b`, ascending. NoMemory where memory ran out.
    pub fn dirty(&self, alloc: Global, map: &PageMap, b: u64) -> Result<Vec<u32>, NoMemory>
        requires { IsLive self.now map.now }
        ensures { IfOk result (λ pages. pages.items ≡ dirty_of self.now map.now b) }
    {
        self.own.after(alloc, map.id, b)
    }

    /// Puts a map over other layers, and lets go of its own pages without a stamp above `b`. Where the layers have each such page as the map
    /// reads, it reads as before. NoMemory where memory ran out; every map is then as before.
    pub fn rebase(
        &mut self,
        alloc: Global,
        map: &mut PageMap,
        b: u64,
        stack: Stack,
    ) -> Result<(), NoMemory>
        requires live { IsLive self.old map.old }
        requires within { EndBy map.old.length stack }

        ensures bytes { OnOk result (Rebases self.old self.new map.old map.new b) }
        ensures own { OnOk result ((page : ℕ) → own_at self.new map.new.id page ≡ if_after b (own_at self.old map.old.id page)) }
        ensures shape { OnOk result ((map.new.stack ≡ stack) × (map.new.length ≡ map.old.length)) }
        ensures live { IsLive self.new map.new }
        ensures others { KeepsOthers self.old self.new map.old.id }
        ensures apart { (other : ℕ) → other ≢ map.old.id → IsSome (owns_at self.old other) → other ≢ map.new.id }
        ensures refused { OnErr result ((map.new ≡ map.old) × SameMaps self.old self.new) }
    {
        let kept = self.own.keep_after(alloc, map.id, b)?;
        self.own.give_up(map.id);
        map.id = kept;
        map.stack = stack;
        Ok(())
    }

    /// Puts a map over other layers. Where these read as the old ones did, it reads as before.
    pub fn restack(&mut self, map: &mut PageMap, stack: Stack)
        requires live { IsLive self.old map.old }
        requires within { EndBy map.old.length stack }
        ensures map { map.new ≡ record map.old { stack = stack } }
        ensures bytes { (before after : List Layer) → ReadAlike map.old.length after before → bytes_of after self.new map.new ≡ bytes_of before self.old map.old }
        ensures live { IsLive self.new map.new }
        ensures unchanged { self.new ≡ self.old }
    {
        map.stack = stack;
    }

    /// Gives a map up. What no other map shares with it is freed.
    pub fn give_up(&mut self, map: PageMap)
        requires { IsLive self.old map }
        ensures dead { owns_at self.new map.id ≡ None }
        ensures others { KeepsOthers self.old self.new map.id }
    {
        self.own.give_up(map.id);
    }
}
