//! A memory written whole, as a page file of all its pages.

ghost use Rattle.std.specs.Prelude.{◌≡◌, ◌≤◌, ◌+◌, ◌*◌, [], false, length, IsTrue, OnOk, IfOk};
ghost use Rattle.format_spec.specs.Bytes.{Bytes};
ghost use Rattle.format_spec.specs.declared.limits.TheConstants.{PAGE_SIZE as page_size, MAX_MEMORY_PAGES, INDEX_HEAD, INDEX_RANGE};
ghost use Rattle.page_spec.specs.PageFile.{index_length};
ghost use Rattle.disk_model.specs.declared.name.Name.TheVariants.{Page};
ghost use Rattle.disk_model.specs.Files.{same_name};
ghost use Rattle.disk_model.specs.State.{IsAbsent, IsLoose};
ghost use Rattle.disk_model.specs.Writing.{Writes};
ghost use Rattle.page_file.specs.Files.{IsWriting, IsFinished};
ghost use Rattle.whole_state.specs.Written.{IsMemoryBytes, pages_in, whole_index, whole_file};

use byte_codec::NoMemory;
use disk_model::{Disk, DiskError};
use format_spec::PAGE_SIZE;
use page_file::{FileIndex, PageFile, PageWriter};
use std::alloc::Global;

/// Writes the page file of this number with all pages of a memory, which has one at least. There is no file of this
/// number yet. Fault where the disk failed, Memory where memory ran out.
pub(crate) fn write_whole<D: Disk>(
    alloc: Global,
    disk: &mut D,
    number: u64,
    memory: &[u8],
) -> Result<PageFile, DiskError>
    requires some { 1 ≤ length memory.now }
    requires memory { IsMemoryBytes memory.now }
    requires absent { IsTrue D.tells → IsAbsent (D.view disk.old).state (Page number) }

    ensures file { IfOk result (λ file. file ≡ whole_file number (pages_in memory.now)) }
    ensures finished { IsTrue D.tells → IfOk result (λ file. IsFinished file memory.now (D.view disk.new).state) }
    ensures writes { Writes D.Disk (same_name (Page number)) (INDEX_HEAD + INDEX_RANGE + length memory.now) disk.old disk.new result }
{
    let index = all_pages(alloc, (memory.len() / PAGE_SIZE) as u32)?;
    let mut writer = PageWriter::begin(alloc, disk, number, index)?;
    add_pages(alloc, disk, &mut writer, memory)?;
    writer.finish(alloc, disk)
}

// The index of a file with all of so many pages.
fn all_pages(alloc: Global, pages: u32) -> Result<FileIndex, NoMemory>
    requires some { 1 ≤ pages }
    requires few { pages ≤ MAX_MEMORY_PAGES }
    ensures { IfOk result (λ index. index ≡ whole_index pages) }
{
    let mut numbers = Vec::with_capacity(alloc, pages as usize)?;
    for page in 0..pages {
        numbers.push(page)?;
    }
    FileIndex::build(alloc, &numbers, pages)
}

// Adds all pages of a memory, which has one at least.
fn add_pages<D: Disk>(
    alloc: Global,
    disk: &mut D,
    writer: &mut PageWriter,
    memory: &[u8],
) -> Result<(), DiskError>
    requires some { 1 ≤ length memory.now }
    requires room { length memory.now ≡ page_size * length writer.old.index.numbers }
    requires none { writer.old.added ≡ 0 }
    requires missing { writer.old.alone ≡ false }
    requires loose { IsTrue D.tells → IsLoose (D.view disk.old).state (Page writer.old.number) }

    ensures writer { OnOk result (writer.new ≡ record writer.old { added = length writer.old.index.numbers }) }
    ensures added { IsTrue D.tells → OnOk result (IsWriting writer.old [] (D.view disk.old).state → IsWriting writer.new memory.now (D.view disk.new).state) }
    ensures there { IsTrue D.tells → OnOk result (IsLoose (D.view disk.new).state (Page writer.old.number)) }
    ensures writes { Writes D.Disk (same_name (Page writer.old.number)) (index_length writer.old.index + length memory.now) disk.old disk.new result }
{
    let mut page = [0; PAGE_SIZE];
    for place in 0..memory.len() / PAGE_SIZE {
        let at = place * PAGE_SIZE;
        page.copy_from_slice(&memory[at..at + PAGE_SIZE]);
        writer.add(alloc, disk, &page)?;
    }
    Ok(())
}
