//! Writing a page file.
ghost use Rattle.std.specs.Prelude.{◌≡◌, ◌+◌, ◌*◌, ◌<◌, ◌≤◌, ◌++◌, [], true, false, length, IsTrue, OnOk, OnErr, IfOk, IsErr, IsErrOf};
ghost use Rattle.format_spec.specs.declared.limits.TheConstants.{PAGE_SIZE};
ghost use Rattle.format_spec.specs.Bytes.{Bytes};
ghost use Rattle.disk_model.specs.declared.name.Name.TheVariants.{Page};
ghost use Rattle.disk_model.specs.Files.{same_name};
ghost use Rattle.disk_model.specs.State.{IsAbsent, IsLoose};
ghost use Rattle.disk_model.specs.Call.{append};
ghost use Rattle.disk_model.specs.View.{Does, HasCause};
ghost use Rattle.disk_model.specs.Writing.{Writes};
ghost use Rattle.page_spec.specs.PageFile.{index_length};
ghost use Rattle.page_file.specs.Files.{IsWriting, IsFinished, has_index, text_added, length_added};

use crate::{FileIndex, PageBytes, PageFile};
use byte_codec::NoMemory;
use disk_model::{Disk, DiskError, Name};
use std::alloc::Global;
use std::marker::Model;
use std::rc::Rc;

/// A page file that is being written. After Fault or Memory it is given up, and its file stays loose.
#[derive(Drop)]
pub struct PageWriter {
    number: u64,
    index: Rc<FileIndex>,
    // Whether the index was written before the first page.
    alone: bool,
    added: u32,
}

// Contracts see its number, its index, whether that was written alone, and how many pages were added.
impl Model for PageWriter {
    ghost use Rattle.page_spec.specs.PageFile.{IsIndex};
    ghost use Rattle.page_file.specs.Files.{UnfinishedFile};

    ghost Value = { UnfinishedFile };

    ghost view = { λ writer. record { number = writer.number; index = writer.index.value; alone = writer.alone; added = writer.added } };

    ghost invariant = { λ writer. IsIndex writer.index.value };
}

impl PageWriter {
    /// Begins a page file: creates it, still empty, since the index is written by `write_index` or with the first page. There is no
    /// file of this number yet. Fault where the disk failed: then there is no such file, or it is loose. Memory where memory ran out: then the disk is
    /// as before.
    pub fn begin<D: Disk>(
        alloc: Global,
        disk: &mut D,
        number: u64,
        index: FileIndex,
    ) -> Result<PageWriter, DiskError>
        requires { IsTrue D.tells → IsAbsent (D.view disk.old).state (Page number) }

        ensures writer { IfOk result (λ writer. writer ≡ record { number = number; index = index; alone = false; added = 0 }) }
        ensures begun { IsTrue D.tells → IfOk result (λ writer. IsWriting writer [] (D.view disk.new).state) }
        ensures loose { IsTrue D.tells → IsErrOf result DiskError.Fault → (D.view disk.new).state.loose (Page number) ≡ true }
        ensures memory { IsTrue D.tells → IsErrOf result DiskError.Memory → D.view disk.new ≡ D.view disk.old }
        ensures writes { Writes D.Disk (same_name (Page number)) 0 disk.old disk.new result }
    {
        let index = index.shared(alloc)?;
        disk.create(alloc, Name::Page(number))?;
        Ok(PageWriter {
            number,
            index,
            alone: false,
            added: 0,
        })
    }

    /// How many pages were added.
    pub fn added(&self) -> u32
        ensures { result ≡ self.now.added }
    {
        self.added
    }

    /// Writes the index alone. It isn't written yet, so no page was added, and the file is as this writer left it.
    /// Fault where the disk failed, Memory where memory ran out: then the disk is as before. The writer is unchanged after either.
    pub fn write_index<D: Disk>(&mut self, alloc: Global, disk: &mut D) -> Result<(), DiskError>
        requires missing { has_index self.old ≡ false }
        requires loose { IsTrue D.tells → IsLoose (D.view disk.old).state (Page self.old.number) }

        ensures writer { OnOk result (self.new ≡ record self.old { alone = true }) }
        ensures unchanged { OnErr result (self.new ≡ self.old) }
        ensures written { IsTrue D.tells → OnOk result (IsWriting self.old [] (D.view disk.old).state → IsWriting self.new [] (D.view disk.new).state) }
        ensures there { IsTrue D.tells → OnOk result (IsLoose (D.view disk.new).state (Page self.old.number)) }
        ensures loose { IsTrue D.tells → (D.view disk.new).state.loose (Page self.old.number) ≡ true }
        ensures memory { IsTrue D.tells → IsErrOf result DiskError.Memory → D.view disk.new ≡ D.view disk.old }
        ensures writes { Writes D.Disk (same_name (Page self.old.number)) (index_length self.old.index) disk.old disk.new result }
    {
        self.append_next(alloc, disk, &[])?;
        self.alone = true;
        Ok(())
    }

    /// Adds the bytes of the next page of the index, and the index before them where it isn't written yet, in one call of the disk.
    /// Fewer than all were added, and the file is as this writer left it.
    /// Fault where the disk failed, Memory where memory ran out: then the disk is as before. The writer is unchanged after either.
    pub fn add<D: Disk>(
        &mut self,
        alloc: Global,
        disk: &mut D,
        page: &PageBytes,
    ) -> Result<(), DiskError>
        requires room { self.old.added < length self.old.index.numbers }
        requires loose { IsTrue D.tells → IsLoose (D.view disk.old).state (Page self.old.number) }

        ensures writer { OnOk result (self.new ≡ record self.old { added = self.old.added + 1 }) }
        ensures unchanged { OnErr result (self.new ≡ self.old) }
        ensures added { IsTrue D.tells → OnOk result ((pages : Bytes) → IsWriting self.old pages (D.view disk.old).state → IsWriting self.new (pages ++ page.now) (D.view disk.new).state) }
        ensures there { IsTrue D.tells → OnOk result (IsLoose (D.view disk.new).state (Page self.old.number)) }
        ensures loose { IsTrue D.tells → (D.view disk.new).state.loose (Page self.old.number) ≡ true }
        ensures memory { IsTrue D.tells → IsErrOf result DiskError.Memory → D.view disk.new ≡ D.view disk.old }
        ensures writes { Writes D.Disk (same_name (Page self.old.number)) (length_added self.old 1) disk.old disk.new result }
    {
        self.add_pages(alloc, disk, 1, page)
    }

    /// Adds the bytes of the next pages of the index, so many, and the index before them where it isn't written yet, in one call of the disk.
    /// At least one page and no more than are missing, and the file is as this writer left it.
    /// Fault where the disk failed, Memory where memory ran out: then the disk is as before. The writer is unchanged after either.
    pub fn add_pages<D: Disk>(
        &mut self,
        alloc: Global,
        disk: &mut D,
        count: u32,
        pages: &[u8],
    ) -> Result<(), DiskError>
        requires some { 0 < count }
        requires room { self.old.added + count ≤ length self.old.index.numbers }
        requires whole { length pages.now ≡ PAGE_SIZE * count }
        requires loose { IsTrue D.tells → IsLoose (D.view disk.old).state (Page self.old.number) }

        ensures writer { OnOk result (self.new ≡ record self.old { added = self.old.added + count }) }
        ensures unchanged { OnErr result (self.new ≡ self.old) }
        ensures added { IsTrue D.tells → OnOk result ((before : Bytes) → IsWriting self.old before (D.view disk.old).state → IsWriting self.new (before ++ pages.now) (D.view disk.new).state) }
        ensures there { IsTrue D.tells → OnOk result (IsLoose (D.view disk.new).state (Page self.old.number)) }
        ensures loose { IsTrue D.tells → (D.view disk.new).state.loose (Page self.old.number) ≡ true }
        ensures memory { IsTrue D.tells → IsErrOf result DiskError.Memory → D.view disk.new ≡ D.view disk.old }
        ensures writes { Writes D.Disk (same_name (Page self.old.number)) (length_added self.old count) disk.old disk.new result }
    {
        self.append_next(alloc, disk, pages)?;
        self.added += count;
        Ok(())
    }

    /// Seals the file, to which all pages were added. Fault where the disk failed, Memory where memory ran out: then the disk is as before.
    pub fn finish<D: Disk>(self, alloc: Global, disk: &mut D) -> Result<PageFile, DiskError>
        requires all { self.added ≡ length self.index.numbers }
        requires loose { IsTrue D.tells → IsLoose (D.view disk.old).state (Page self.number) }

        ensures file { IfOk result (λ file. file ≡ record { number = self.number; index = self.index }) }
        ensures finished { IsTrue D.tells → IfOk result (λ file. (pages : Bytes) → IsWriting self pages (D.view disk.old).state → IsFinished file pages (D.view disk.new).state) }
        ensures loose { IsTrue D.tells → IsErr result → (D.view disk.new).state.loose (Page self.number) ≡ true }
        ensures memory { IsTrue D.tells → IsErrOf result DiskError.Memory → D.view disk.new ≡ D.view disk.old }
        ensures writes { Writes D.Disk (same_name (Page self.number)) 0 disk.old disk.new result }
    {
        disk.seal(alloc, Name::Page(self.number))?;
        Ok(PageFile::new(self.number, self.index))
    }

    // Appends the next pages, and the index before them where it isn't written yet.
    fn append_next<D: Disk>(
        &self,
        alloc: Global,
        disk: &mut D,
        pages: &[u8],
    ) -> Result<(), DiskError>
        requires { IsTrue D.tells → IsLoose (D.view disk.old).state (Page self.now.number) }
        ensures does { IsTrue D.tells → Does (append (Page self.now.number) (text_added self.now pages.now)) result (D.view disk.old) (D.view disk.new) }
        ensures cause { HasCause (D.faults disk.old) (D.faults disk.new) result }
    {
        let name = Name::Page(self.number);
        if self.alone || self.added > 0 {
            return disk.append(alloc, name, pages);
        }
        match self.index.text_with(alloc, pages) {
            Ok(text) => disk.append(alloc, name, text.bytes()),
            Err(NoMemory) => Err(DiskError::Memory),
        }
    }
}
