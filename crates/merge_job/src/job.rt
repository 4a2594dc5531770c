//! A running merge.
ghost use Rattle.std.specs.Prelude.{◌≡◌, ◌⊎◌, ◌*◌, ◌≤◌, ◌<◌, true, length, drop, IsTrue, OnOk, IfOk, IsErr, List};
ghost use Rattle.std.specs.List.{AllByRecursion, range_with_len};
ghost use Rattle.format_spec.specs.declared.limits.TheConstants.{PAGE_SIZE as page_size, MAX_MEMORY_PAGES};
ghost use Rattle.page_spec.specs.PageFile.{IsIndex, index_length};
ghost use Rattle.page_spec.specs.Layers.{Layer};
ghost use Rattle.disk_model.specs.declared.name.Name.TheVariants.{Page};
ghost use Rattle.disk_model.specs.Files.{same_name};
ghost use Rattle.disk_model.specs.State.{IsAbsent};
ghost use Rattle.disk_model.specs.Causes.{Fails};
ghost use Rattle.disk_model.specs.Writing.{Writes};
ghost use Rattle.page_file.specs.Files.{IsAsKnown, IsFinished};
ghost use Rattle.layer_stack.specs.Stacks.{AreLayers, EndBy, pages_from};
ghost use Rattle.merge_job.specs.Merge.{Copies, IsOn, begun, merged_file, merged_index, step_pages, stepped, steps_left};

use byte_codec::NoMemory;
use disk_model::{Disk, DiskError};
use format_spec::{PAGE_SIZE, STEP_PAGES};
use layer_stack::Stack;
use page_file::{FileIndex, PageFile, PageWriter};
use std::alloc::Global;
use std::marker::Model;

/// A running merge of layers of one memory: reads them by runs of pages and writes one page file, in steps of up to `STEP_PAGES` pages.
/// After Fault or Memory it is given up, and its file stays loose.
#[derive(Drop)]
pub struct MergeJob {
    read: Stack,
    from: u32,
    writer: PageWriter,
    // The pages of the merged layer.
    pages: Vec<u32>,
}

// Contracts see the page files that are read, the first one's place, and the one that is written.
impl Model for MergeJob {
    ghost use Rattle.merge_job.specs.Merge.{Merge, IsMergeOf};

    ghost Value = { Merge };

    ghost view = { λ job. record { read = job.read; from = job.from; writer = job.writer } };

    ghost invariant = { λ job. IsMergeOf (record { read = job.read; from = job.from; writer = job.writer }) job.pages.items };
}

impl MergeJob {
    /// Begins a merge of the layers from this one on, counted from the oldest as 0, of a memory of so many pages, into the page file of this
    /// number: creates it and writes its index. There is no such file yet.
    /// Fault where the disk failed, Memory where memory ran out: then there is no such file, or it is loose.
    pub fn begin<D: Disk>(
        alloc: Global,
        stack: &Stack,
        from: u32,
        memory: u32,
        number: u64,
        disk: &mut D,
    ) -> Result<MergeJob, DiskError>
        requires from { from < length stack.now }
        requires memory { memory ≤ MAX_MEMORY_PAGES }
        requires fits { EndBy memory stack.now }
        requires absent { IsTrue D.tells → IsAbsent (D.view disk.old).state (Page number) }

        ensures job { IfOk result (λ job. job ≡ begun stack.now from memory number) }
        ensures on { IsTrue D.tells → IfOk result (λ job. AllByRecursion (IsAsKnown (D.view disk.old).state.files) (drop from stack.now) → IsOn job (D.view disk.new).state) }
        ensures loose { IsTrue D.tells → IsErr result → IsAbsent (D.view disk.new).state (Page number) ⊎ (D.view disk.new).state.loose (Page number) ≡ true }
        ensures writes { Writes D.Disk (same_name (Page number)) (index_length (merged_index memory from (drop from stack.now))) disk.old disk.new result }
    {
        let read = stack.above(alloc, from)?;
        let pages = merged_pages(alloc, stack, from, memory)?;
        let index = FileIndex::build(alloc, &pages, memory)?;
        let mut writer = PageWriter::begin(alloc, disk, number, index)?;
        writer.write_index(alloc, disk)?;
        Ok(MergeJob {
            read,
            from,
            writer,
            pages,
        })
    }

    /// How many steps are left: those that write up to `STEP_PAGES` pages each, and `finish`.
    pub fn left(&self) -> u32
        ensures { result ≡ steps_left self.now }
    {
        (self.pages.len() as u32 - self.writer.added()).div_ceil(STEP_PAGES as u32) + 1
    }

    /// The first layer that is merged, counted from the oldest as 0.
    pub fn from(&self) -> u32
        ensures { result ≡ self.now.from }
    {
        self.from
    }

    /// How many layers are merged.
    pub fn count(&self) -> u32
        ensures { result ≡ length self.now.read }
    {
        self.read.count()
    }

    /// Writes the next pages, `STEP_PAGES` or as many as are left, in one call of the disk. More than one step is left, and the files are as the
    /// last call left them. Fault where the disk failed, Memory where memory ran out.
    pub fn step<D: Disk>(&mut self, alloc: Global, disk: &mut D) -> Result<(), DiskError>
        requires left { 1 < steps_left self.old }
        requires on { IsTrue D.tells → IsOn self.old (D.view disk.old).state }

        ensures job { OnOk result (self.new ≡ stepped self.old) }
        ensures on { IsTrue D.tells → OnOk result (IsOn self.new (D.view disk.new).state) }
        ensures loose { IsTrue D.tells → (D.view disk.new).state.loose (Page self.old.writer.number) ≡ true }
        ensures copies { IsTrue D.tells → Copies (same_name (Page self.old.writer.number)) (page_size * step_pages self.old) result (D.view disk.old) (D.view disk.new) }
        ensures cause { Fails D.Disk disk.old disk.new result }
    {
        let added = self.writer.added() as usize;
        let count = (self.pages.len() - added).min(STEP_PAGES);
        let pages = &self.pages[added..added + count];
        let mut bytes = vec![in alloc; 0; count * PAGE_SIZE]?;
        self.read.read_pages(alloc, disk, pages, &mut bytes)?;
        self.writer.add_pages(alloc, disk, count as u32, &bytes)?;
        Ok(())
    }

    /// Seals the page file. One step is left, and the files are as the last call left them.
    /// Fault where the disk failed, Memory where memory ran out.
    pub fn finish<D: Disk>(self, alloc: Global, disk: &mut D) -> Result<PageFile, DiskError>
        requires left { steps_left self ≡ 1 }
        requires on { IsTrue D.tells → IsOn self (D.view disk.old).state }

        ensures file { IfOk result (λ file. file ≡ merged_file self) }
        ensures finished { IsTrue D.tells → IfOk result (λ file. (layers : List Layer) → AreLayers (D.view disk.old).state.files self.read layers
            → IsFinished file (pages_from layers self.writer.index.numbers) (D.view disk.new).state) }
        ensures loose { IsTrue D.tells → IsErr result → (D.view disk.new).state.loose (Page self.writer.number) ≡ true }
        ensures writes { Writes D.Disk (same_name (Page self.writer.number)) 0 disk.old disk.new result }
    {
        self.writer.finish(alloc, disk)
    }
}

// The pages of the merged layer, of the layers from this one on, of a memory of so many pages.
fn merged_pages(alloc: Global, stack: &Stack, from: u32, memory: u32) -> Result<Vec<u32>, NoMemory>
    requires from { from < length stack.now }
    requires memory { memory ≤ MAX_MEMORY_PAGES }
    requires fits { EndBy memory stack.now }
    ensures pages { IfOk result (λ pages. pages.items ≡ (merged_index memory from (drop from stack.now)).numbers) }
    ensures index { OnOk result (IsIndex (merged_index memory from (drop from stack.now))) }
{
    let some = stack.size(from);
    prove!(some > 0);
    let pages = stack.pages_of(alloc, from)?;
    if from == 0 && memory as usize <= 2 * pages.len() {
        all_pages(alloc, memory)
    } else {
        Ok(pages)
    }
}

// All pages of a memory of so many.
fn all_pages(alloc: Global, memory: u32) -> Result<Vec<u32>, NoMemory>
    ensures { IfOk result (λ pages. pages.items ≡ range_with_len 0 memory) }
{
    let mut pages = Vec::with_capacity(alloc, memory as usize)?;
    for page in 0..memory {
        pages.push(page)?;
    }
    Ok(pages)
}
