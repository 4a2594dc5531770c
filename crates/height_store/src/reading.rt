//! Reading the memories of published heights.

ghost use Rattle.std.specs.Prelude.{◌≡◌, ◌≤◌, ◌<◌, ◌+◌, ◌-◌, ◌*◌, List, Some, length, map, take, drop, slice_get, IsSome, IsTrue, IfOk, OnOk, IsSomeAnd};
ghost use Rattle.std.specs.List.{range_with_len};
ghost use Rattle.format_spec.specs.Bytes.{Bytes};
ghost use Rattle.format_spec.specs.declared.limits.TheConstants.{PAGE_SIZE as page_size, MAX_MEMORY_PAGES};
ghost use Rattle.state_spec.specs.State.{memory_bytes};
ghost use Rattle.state_spec.specs.Files.{memories_in};
ghost use Rattle.state_spec.specs.Memory.{pages_holding};
ghost use Rattle.store_spec.specs.Image.{Published};
ghost use Rattle.page_spec.specs.Layers.{Layer, memory_from};
ghost use Rattle.sys_state.specs.System.{part_of};
ghost use Rattle.disk_model.specs.Causes.{Fails};
ghost use Rattle.disk_model.specs.OnlyReads.{OnlyReads};
ghost use Rattle.page_file.specs.Files.{NumberedFile};
ghost use Rattle.layer_stack.specs.Stacks.{AreLayers, PagesReadAs};
ghost use Rattle.height_store.specs.Answers.{PageIs, RangeIs};
ghost use Rattle.height_store.specs.Kept.{HasStacks, ShowsHeight};
ghost use Rattle.height_store.specs.Known.{IsMemoryAt, AreTheirPages, bytes_of};

use crate::store::PublishedHeight;
use byte_codec::{Blob, NoMemory};
use disk_model::{Disk, DiskError};
use format_spec::PAGE_SIZE;
use page_file::PageBytes;
use std::alloc::Global;
use sys_state::memory_pages;

impl PublishedHeight {
    /// Reads a page of the memory at a place, in the order of files: that of the newest page file that has it, else zeros. The page
    /// is one of the memory's. Fault where the disk failed, Memory where memory ran out; `into` has any bytes then.
    pub fn read_page<D: Disk>(
        &self,
        alloc: Global,
        disk: &mut D,
        file: u32,
        page: u32,
        into: &mut PageBytes,
    ) -> Result<(), DiskError>
        requires readable { IsTrue D.tells → HasStacks (D.view disk.old).state.files self.now }
        requires within { IsSomeAnd (slice_get (memories_in (part_of self.now.system)) file) (λ m. page < m.1) }

        ensures page { IsTrue D.tells → OnOk result (PageIs (D.view disk.old).state.files self.now file page into.new) }
        ensures reads_only { IsTrue D.tells → OnlyReads page_size (D.view disk.old) (D.view disk.new) }
        ensures cause { Fails D.Disk disk.old disk.new result }
    {
        let _found = self.stacks[file as usize].read(alloc, disk, page, into)?;
        Ok(())
    }

    /// Bytes of the memory at a place, in the order of files, from an offset on. The memory has them. No page is read that holds none
    /// of them. Fault where the disk failed, Memory where memory ran out.
    pub fn read_bytes<D: Disk>(
        &self,
        alloc: Global,
        disk: &mut D,
        file: u32,
        offset: u64,
        len: u64,
    ) -> Result<Blob, DiskError>
        requires readable { IsTrue D.tells → HasStacks (D.view disk.old).state.files self.now }
        requires within { IsSomeAnd (slice_get (memories_in (part_of self.now.system)) file) (λ m. offset + len ≤ m.1 * page_size) }

        ensures bytes { IsTrue D.tells → (p : Published) (memory : Bytes) → ShowsHeight (D.view disk.old).state.files self.now p
            → IsMemoryAt p.state file memory → IfOk result (λ bytes. bytes ≡ take len (drop offset memory)) }
        ensures range { IsTrue D.tells → IfOk result (RangeIs (D.view disk.old).state.files self.now file offset len) }
        ensures reads_only { IsTrue D.tells → OnlyReads (page_size * pages_holding offset len) (D.view disk.old) (D.view disk.new) }
        ensures cause { Fails D.Disk disk.old disk.new result }
    {
        // Its contract says how long a memory is at most.
        let _sys = self.sys();
        let bytes = self.read_range(alloc, disk, file, offset, len)?;
        Ok(Blob::from_vec(bytes))
    }

    /// The bytes of all memories, in the order of files. At most as many bytes are read as they have. Fault where the disk failed,
    /// Memory where memory ran out.
    pub fn read_memories<D: Disk>(
        &self,
        alloc: Global,
        disk: &mut D,
    ) -> Result<Vec<Vec<u8>>, DiskError>
        requires { IsTrue D.tells → HasStacks (D.view disk.old).state.files self.now }

        ensures sizes { IfOk result (λ memories. map (λ memory. length memory.items) memories.items ≡ map (λ m. m.1 * page_size) (memories_in (part_of self.now.system))) }
        ensures bytes { IsTrue D.tells → (p : Published) → ShowsHeight (D.view disk.old).state.files self.now p
            → IfOk result (λ memories. map (λ memory. memory.items) memories.items ≡ memory_bytes p.state) }
        ensures reads_only { IsTrue D.tells → OnlyReads (bytes_of self.now) (D.view disk.old) (D.view disk.new) }
        ensures cause { Fails D.Disk disk.old disk.new result }
    {
        let pages = memory_pages(alloc, self.sys())?;
        let mut memories = Vec::with_capacity(alloc, pages.len())?;
        for file in 0..pages.len() {
            let memory = self.read_memory(alloc, disk, file as u32, pages[file])?;
            memories.push(memory)?;
        }
        Ok(memories)
    }

    // All bytes of the memory at a place, which has so many pages.
    fn read_memory<D: Disk>(
        &self,
        alloc: Global,
        disk: &mut D,
        file: u32,
        pages: u32,
    ) -> Result<Vec<u8>, DiskError>
        requires readable { IsTrue D.tells → HasStacks (D.view disk.old).state.files self.now }
        requires there { IsSomeAnd (slice_get (memories_in (part_of self.now.system)) file) (λ m. m.1 ≡ pages) }
        requires at_most { pages ≤ MAX_MEMORY_PAGES }

        ensures size { IfOk result (λ bytes. length bytes.items ≡ pages * page_size) }
        ensures bytes { IsTrue D.tells → (stack : List NumberedFile) (layers : List Layer)
            → slice_get self.now.stacks file ≡ Some stack → AreLayers (D.view disk.old).state.files stack layers
            → IfOk result (λ bytes. bytes.items ≡ memory_from pages layers) }
        ensures reads_only { IsTrue D.tells → OnlyReads (pages * page_size) (D.view disk.old) (D.view disk.new) }
        ensures cause { Fails D.Disk disk.old disk.new result }
    {
        self.read_range(alloc, disk, file, 0, u64::from(pages) * PAGE_SIZE as u64)
    }

    // These pages of the memory at a place, one behind the other: those that stand behind each other in one page file by one call of the disk.
    fn read_pages<D: Disk>(
        &self,
        alloc: Global,
        disk: &mut D,
        file: u32,
        pages: &[u32],
    ) -> Result<Vec<u8>, DiskError>
        requires readable { IsTrue D.tells → HasStacks (D.view disk.old).state.files self.now }
        requires there { IsSome (slice_get (memories_in (part_of self.now.system)) file) }
        requires few { length pages.now ≤ MAX_MEMORY_PAGES }

        ensures size { IfOk result (λ bytes. length bytes.items ≡ page_size * length pages.now) }
        ensures pages { IsTrue D.tells → (stack : List NumberedFile) → slice_get self.now.stacks file ≡ Some stack
            → IfOk result (λ bytes. PagesReadAs (D.view disk.old).state.files stack pages.now bytes.items) }
        ensures reads_only { IsTrue D.tells → OnlyReads (page_size * length pages.now) (D.view disk.old) (D.view disk.new) }
        ensures cause { Fails D.Disk disk.old disk.new result }
    {
        let mut bytes = vec![in alloc; 0; pages.len() * PAGE_SIZE]?;
        self.stacks[file as usize].read_pages(alloc, disk, pages, &mut bytes)?;
        Ok(bytes)
    }

    // Bytes of the memory at a place, from an offset on. The memory has them. No page is read that holds none of them.
    fn read_range<D: Disk>(
        &self,
        alloc: Global,
        disk: &mut D,
        file: u32,
        offset: u64,
        len: u64,
    ) -> Result<Vec<u8>, DiskError>
        requires readable { IsTrue D.tells → HasStacks (D.view disk.old).state.files self.now }
        requires within { IsSomeAnd (slice_get (memories_in (part_of self.now.system)) file) (λ m. offset + len ≤ m.1 * page_size) }
        requires at_most { offset + len ≤ MAX_MEMORY_PAGES * page_size }

        ensures size { IfOk result (λ bytes. length bytes.items ≡ len) }
        ensures range { IsTrue D.tells → IfOk result (λ bytes. RangeIs (D.view disk.old).state.files self.now file offset len bytes.items) }
        ensures reads_only { IsTrue D.tells → OnlyReads (page_size * pages_holding offset len) (D.view disk.old) (D.view disk.new) }
        ensures cause { Fails D.Disk disk.old disk.new result }
    {
        if len == 0 {
            return Ok(Vec::new(alloc));
        }
        let (first, behind) = pages_of_range(offset, len);
        let pages = numbers_between(alloc, first, behind)?;
        let bytes = self.read_pages(alloc, disk, file, &pages)?;
        let from = (offset - u64::from(first) * PAGE_SIZE as u64) as usize;
        Ok(piece_of(alloc, bytes, from, len as usize)?)
    }
}

// The numbers from the first one on, below the other one.
fn numbers_between(alloc: Global, first: u32, behind: u32) -> Result<Vec<u32>, NoMemory>
    ensures { IfOk result (λ numbers. numbers.items ≡ range_with_len first (behind - first)) }
{
    Ok((first..behind).collect(alloc)?)
}

// So many of these bytes, from a place on. Those that begin the bytes aren't copied.
fn piece_of(alloc: Global, bytes: Vec<u8>, from: usize, len: usize) -> Result<Vec<u8>, NoMemory>
    requires { from + len ≤ length bytes.items }
    ensures { IfOk result (λ piece. piece.items ≡ take len (drop from bytes.items)) }
{
    if from > 0 {
        return Ok(Vec::from_slice(alloc, &bytes[from..from + len])?);
    }
    let mut bytes = bytes;
    bytes.truncate(len);
    Ok(bytes)
}

// The first page that holds one of these bytes, and the one behind the last. There is a byte.
fn pages_of_range(offset: u64, len: u64) -> (u32, u32)
    requires some { 0 < len }
    requires at_most { offset + len ≤ MAX_MEMORY_PAGES * page_size }
    ensures { AreTheirPages offset len result.0 result.1 }
{
    let first = offset / PAGE_SIZE as u64;
    let behind = (offset + len).div_ceil(PAGE_SIZE as u64);
    (first as u32, behind as u32)
}
