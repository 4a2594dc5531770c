//! Reading a page file.
ghost use Rattle.std.specs.Prelude.{◌≡◌, ◌+◌, ◌*◌, ◌<◌, ◌≤◌, ℕ, length, take, drop, IsTrue, OnOk, IfOk, IfSome, ⊤};
ghost use Rattle.format_spec.specs.declared.limits.TheConstants.{PAGE_SIZE, MAX_MEMORY_PAGES, INDEX_HEAD, INDEX_RANGE};
ghost use Rattle.format_spec.specs.Bytes.{Bytes};
ghost use Rattle.page_spec.specs.PageFile.{PageIndex, index_length};
ghost use Rattle.disk_model.specs.OnlyReads.{OnlyReads};
ghost use Rattle.disk_model.specs.Causes.{Fails, FailsFor, OnlyIf};
ghost use Rattle.page_file.specs.Errors.{page_error};
ghost use Rattle.page_file.specs.Index.{are_counts};
ghost use Rattle.page_file.specs.Files.{IsAsKnown, Opens, ReadsAs, ReadsFrom, HasPages, HasHeader, FindsHeader, FindsIndex};

use crate::format::Header;
use crate::{FileIndex, PageBytes, PageError};
use byte_codec::NoMemory;
use disk_model::{Disk, DiskError, Name};
use format_spec::{INDEX_HEAD, INDEX_RANGE};
use std::alloc::Global;
use std::marker::Model;
use std::rc::Rc;

/// A page file on the disk, whose index is kept in memory.
#[derive(Debug, Drop)]
pub struct PageFile {
    number: u64,
    // Copies share it.
    index: Rc<FileIndex>,
}

// Contracts see its number and its index.
impl Model for PageFile {
    ghost use Rattle.page_file.specs.Files.{NumberedFile};

    ghost Value = { NumberedFile };

    ghost view = { λ file. record { number = file.number; index = file.index.value } };
}

impl PageFile {
    /// The page file of this number with this index.
    pub(crate) fn new(number: u64, index: Rc<FileIndex>) -> PageFile
        ensures { result ≡ record { number = number; index = index.value } }
    {
        PageFile { number, index }
    }

    /// Opens the page file of this number: reads its index and none of its pages.
    /// BadPage exactly where the file is absent or its bytes are no page file, Fault where the disk failed, Memory where memory ran out.
    pub fn open<D: Disk>(alloc: Global, disk: &mut D, number: u64) -> Result<PageFile, PageError>
        ensures opens { IsTrue D.tells → Opens (D.view disk.old).state.files number result }
        ensures only { IsTrue D.tells → IfOk result (λ file. (i : PageIndex) (pages : Bytes) → HasPages (D.view disk.old).state.files number i pages → i ≡ file.index) }
        ensures number { IfOk result (λ file. file.number ≡ number) }
        ensures reads_only { IsTrue D.tells → IfOk result (λ file. OnlyReads (index_length file.index) (D.view disk.old) (D.view disk.new)) }
        ensures reads_at_most { IsTrue D.tells → OnlyReads (INDEX_HEAD + INDEX_RANGE * MAX_MEMORY_PAGES) (D.view disk.old) (D.view disk.new) }
        ensures cause { FailsFor D.Disk page_error (OnlyIf (PageError.BadPage number) ⊤) disk.old disk.new result }
    {
        match read_index(alloc, disk, number)? {
            Some(index) => Ok(PageFile::new(number, index.shared(alloc)?)),
            None => Err(PageError::BadPage(number)),
        }
    }

    /// The number of the file.
    pub fn number(&self) -> u64
        ensures { result ≡ self.now.number }
    {
        self.number
    }

    /// Which pages the file has.
    pub fn index(&self) -> &FileIndex
        ensures { result.now ≡ self.now.index }
    {
        &self.index
    }

    /// The same page file, whose index is shared and not copied. NoMemory where no more copies can be counted.
    pub fn copy(&self, _alloc: Global) -> Result<PageFile, NoMemory>
        ensures { IfOk result (λ file. file ≡ self.now) }
    {
        Ok(PageFile {
            number: self.number,
            index: self.index.clone()?,
        })
    }

    /// Reads the page at this place in the file, which is below the count of its pages. The file is as when this value was opened or finished.
    /// Fault where the disk failed, Memory where memory ran out; `into` then has any bytes.
    pub fn read_page<D: Disk>(
        &self,
        alloc: Global,
        disk: &mut D,
        place: u32,
        into: &mut PageBytes,
    ) -> Result<(), DiskError>
        requires place { place < length self.now.index.numbers }
        requires kept { IsTrue D.tells → IsAsKnown (D.view disk.old).state.files self.now }

        ensures page { IsTrue D.tells → OnOk result (ReadsAs (D.view disk.old).state.files self.now place into.new) }
        ensures reads_only { IsTrue D.tells → OnlyReads PAGE_SIZE (D.view disk.old) (D.view disk.new) }
        ensures cause { Fails D.Disk disk.old disk.new result }
    {
        self.read_pages(alloc, disk, place, into)
    }

    /// Reads the pages from this place on that `into` has room for, by one call of the disk. The file has so many, and is as when this value was
    /// opened or finished. Fault where the disk failed, Memory where memory ran out; `into` then has any bytes.
    pub fn read_pages<D: Disk>(
        &self,
        alloc: Global,
        disk: &mut D,
        place: u32,
        into: &mut [u8],
    ) -> Result<(), DiskError>
        requires within { PAGE_SIZE * place + length into.old ≤ PAGE_SIZE * length self.now.index.numbers }
        requires kept { IsTrue D.tells → IsAsKnown (D.view disk.old).state.files self.now }

        ensures pages { IsTrue D.tells → OnOk result (ReadsFrom (D.view disk.old).state.files self.now place (length into.old) into.new) }
        ensures reads_only { IsTrue D.tells → OnlyReads (length into.old) (D.view disk.old) (D.view disk.new) }
        ensures cause { Fails D.Disk disk.old disk.new result }
    {
        disk.read(
            alloc,
            Name::Page(self.number),
            self.index.offset(place),
            into,
        )?;
        Ok(())
    }
}

// The index of the page file of this number. `None` where there is no such file, or its bytes begin with no index.
fn read_index<D: Disk>(
    alloc: Global,
    disk: &mut D,
    number: u64,
) -> Result<Option<FileIndex>, DiskError>
    ensures found { IsTrue D.tells → FindsIndex (D.view disk.old).state.files number result }
    ensures reads_only { IsTrue D.tells → IfOk result (λ found. IfSome found (λ i. OnlyReads (index_length i) (D.view disk.old) (D.view disk.new))) }
    ensures reads_at_most { IsTrue D.tells → OnlyReads (INDEX_HEAD + INDEX_RANGE * MAX_MEMORY_PAGES) (D.view disk.old) (D.view disk.new) }
    ensures cause { Fails D.Disk disk.old disk.new result }
{
    match read_header(alloc, disk, number)? {
        Some(header) => read_ranges(alloc, disk, number, header),
        None => Ok(None),
    }
}

// What the header of the page file says. `None` where there is no such file, or it can't begin so.
fn read_header<D: Disk>(
    alloc: Global,
    disk: &mut D,
    number: u64,
) -> Result<Option<Header>, DiskError>
    ensures found { IsTrue D.tells → FindsHeader (D.view disk.old).state.files number result }
    ensures possible { IfOk result (λ found. IfSome found (λ h. IsTrue (are_counts h.memory h.ranges h.pages))) }
    ensures reads_only { IsTrue D.tells → OnlyReads INDEX_HEAD (D.view disk.old) (D.view disk.new) }
    ensures cause { Fails D.Disk disk.old disk.new result }
{
    let name = Name::Page(number);
    match disk.size(alloc, name)? {
        Some(size) if size >= INDEX_HEAD as u64 => {
            let mut bytes = [0; INDEX_HEAD];
            disk.read(alloc, name, 0, &mut bytes)?;
            Ok(Header::read(alloc, &bytes, size)?)
        }
        _ => Ok(None),
    }
}

// The index whose ranges stand behind the header. `None` where there are no such ranges.
fn read_ranges<D: Disk>(
    alloc: Global,
    disk: &mut D,
    number: u64,
    header: Header,
) -> Result<Option<FileIndex>, DiskError>
    requires possible { IsTrue (are_counts header.memory header.ranges header.pages) }
    requires header { IsTrue D.tells → HasHeader (D.view disk.old).state.files number header }
    ensures found { IsTrue D.tells → FindsIndex (D.view disk.old).state.files number result }
    ensures length { IsTrue D.tells → IfOk result (λ found. IfSome found (λ i. index_length i ≡ INDEX_HEAD + INDEX_RANGE * header.ranges)) }
    ensures reads_only { IsTrue D.tells → OnlyReads (INDEX_RANGE * header.ranges) (D.view disk.old) (D.view disk.new) }
    ensures cause { Fails D.Disk disk.old disk.new result }
{
    let mut bytes = vec![in alloc; 0; INDEX_RANGE * header.ranges as usize]?;
    disk.read(alloc, Name::Page(number), INDEX_HEAD as u64, &mut bytes)?;
    Ok(FileIndex::read(alloc, header, &bytes)?)
}
