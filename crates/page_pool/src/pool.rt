//! A pool of pages.

ghost use Rattle.std.specs.Prelude.{◌≡◌, ◌≢◌, ◌+◌, ◌-◌, ◌^◌, ◌<◌, ◌≤◌, [], length, None, OnOk, OnErr, IsOk, IfOk, vec_len};
ghost use Rattle.std.specs.Borrow.{sem};
ghost use Rattle.page_pool.specs.Pool.{page_at, used_in, IsLive, count_at, bytes_at, with_count, with_new, with_free, with_room, IsCopied};

use crate::slot::{Slot, SlotId};
use byte_codec::NoMemory;
use format_spec::PageBytes;
use std::alloc::Global;
use std::marker::Model;

/// Pages in numbered slots, each with a count.
#[derive(Drop)]
pub struct PagePool {
    slots: Vec<Slot>,
    // The first free slot, or the number of slots where there is none.
    free: u32,
    // How many slots are free.
    spare: u32,
}

impl Model for PagePool {
    ghost use Rattle.std.specs.Prelude.{map};
    ghost use Rattle.page_pool.specs.Pool.{Pool};

    ghost Value = { Pool };

    ghost use Rattle.page_pool.specs.Chains.{page_of, IsSound};

    ghost view = { λ s. record { slots = map page_of s.slots.items; spare = s.spare } };

    ghost invariant = { λ s. IsSound s.slots.items s.free s.spare };
}

impl PagePool {
    ghost use Rattle.page_pool.specs.Lends.{lends_page};

    /// A pool with no slots.
    pub fn new(alloc: Global) -> PagePool
        ensures { result ≡ record { slots = []; spare = 0 } }
    {
        PagePool {
            slots: Vec::new(alloc),
            free: 0,
            spare: 0,
        }
    }

    /// Makes room for so many pages, so that putting them needs no memory. NoMemory where memory ran out, or the pool would
    /// have 2^32 slots, so that no slot has the number `NO_SLOT`; then nothing changes.
    pub fn reserve(&mut self, alloc: Global, n: u32) -> Result<(), NoMemory>
        ensures ok { OnOk result (self.new ≡ with_room self.old (n - self.old.spare)) }
        ensures err { OnErr result (self.new ≡ self.old) }
        ensures room { n ≤ self.old.spare → IsOk result }
    {
        if n <= self.spare {
            return Ok(());
        }
        let more = n - self.spare;
        if more as usize > u32::MAX as usize - self.slots.len() {
            return Err(NoMemory);
        }
        let mut pages = zero_pages(alloc, more)?;
        self.slots.reserve(more as usize)?;
        while let Some(bytes) = pages.pop() {
            let next = self.slots.len() as u32 + 1;
            let slot = Slot {
                count: 0,
                next,
                bytes,
            };
            self.slots.push_reserved(slot);
        }
        self.spare = n;
        Ok(())
    }

    /// Puts a page into a slot that is free, with the count 1.
    pub fn put(&mut self, bytes: &PageBytes) -> SlotId
        requires { 0 < self.old.spare }
        ensures free { page_at self.old result ≡ None }
        ensures within { result < length self.old.slots }
        ensures put { self.new ≡ with_new self.old result bytes.now }
    {
        let free = self.free;
        let slot = &mut self.slots[free as usize];
        slot.count = 1;
        *slot.bytes = *bytes;
        self.free = slot.next;
        self.spare -= 1;
        SlotId(free)
    }

    /// Counts a page once more.
    pub fn retain(&mut self, slot: SlotId)
        requires live { IsLive self.old slot }
        requires room { count_at self.old slot + 1 < 2 ^ 32 }
        ensures { self.new ≡ with_count self.old slot (count_at self.old slot + 1) }
    {
        self.slots[slot.0 as usize].count += 1;
    }

    /// Counts a page once less. At the last count its slot is free again.
    pub fn release(&mut self, slot: SlotId)
        requires { IsLive self.old slot }
        ensures last { count_at self.old slot ≡ 1 → self.new ≡ with_free self.old slot }
        ensures shared { count_at self.old slot ≢ 1 → self.new ≡ with_count self.old slot (count_at self.old slot - 1) }
    {
        let shared = &mut self.slots[slot.0 as usize];
        shared.count -= 1;
        if shared.count == 0 {
            shared.next = self.free;
            self.free = slot.0;
            self.spare += 1;
        }
    }

    /// How often a live slot is counted.
    pub fn count(&self, slot: SlotId) -> u32
        requires { IsLive self.now slot }
        ensures { result ≡ count_at self.now slot }
    {
        self.slots[slot.0 as usize].count
    }

    /// The bytes of a live slot.
    pub fn page(&self, slot: SlotId) -> &PageBytes
        requires { IsLive self.now slot }
        ensures bytes { result.now ≡ bytes_at self.now slot }
        ensures counted { 0 < count_at self.now slot }
    {
        &self.slots[slot.0 as usize].bytes
    }

    /// A slot with the same bytes that may be written: this one where it has the count 1, and else a copy.
    pub fn write(&mut self, slot: SlotId) -> SlotId
        requires live { IsLive self.old slot }
        requires room { count_at self.old slot ≢ 1 → 0 < self.old.spare }
        ensures own { count_at self.old slot ≡ 1 → (result ≡ slot) × (self.new ≡ self.old) }
        ensures copy { count_at self.old slot ≢ 1 → IsCopied self.old self.new slot result }
    {
        if self.count(slot) == 1 {
            return slot;
        }
        let bytes = *self.page(slot);
        self.release(slot);
        self.put(&bytes)
    }

    /// The bytes of a live slot that is counted once, for writing.
    pub fn page_mut(&mut self, slot: SlotId) -> &mut PageBytes
        requires live { IsLive self.old slot }
        requires own { count_at self.old slot ≡ 1 }
        ensures* writes_back { sem 𝓛 (lends_page self.entry slot result) }
        ensures value { result.now ≡ bytes_at self.old slot }
    {
        &mut self.slots[slot.0 as usize].bytes
    }

    /// How many slots are live.
    pub fn used(&self) -> u32
        ensures counted { result ≡ used_in self.now.slots }
        ensures rest { result + self.now.spare ≡ length self.now.slots }
    {
        self.slots.len() as u32 - self.spare
    }
}

// So many pages of zeros.
fn zero_pages(alloc: Global, count: u32) -> Result<Vec<Box<PageBytes>>, NoMemory>
    ensures { IfOk result (λ pages. vec_len pages ≡ count) }
{
    let mut pages = Vec::with_capacity(alloc, count as usize)?;
    for _ in 0..count {
        pages.push_reserved(Box::new(alloc, [0; 4096])?);
    }
    Ok(pages)
}
