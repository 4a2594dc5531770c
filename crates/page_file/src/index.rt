//! The index of a page file.
ghost use Rattle.std.specs.Prelude.{◌≡◌, ◌==◌, ◌+◌, ◌*◌, ◌++◌, length, IfOk, IsTrue, position};
ghost use Rattle.format_spec.specs.declared.limits.TheConstants.{PAGE_SIZE, INDEX_RANGE};
ghost use Rattle.page_spec.specs.PageFile.{IsIndex, index_text, index_length};
ghost use Rattle.page_file.specs.Index.{are_counts, ReadsIndex};

use crate::format::Header;
use crate::range::{Range, begun_by, pages_in, push_pages, read_ranges, write_ranges};
use byte_codec::{Blob, NoMemory, Writer};
use format_spec::{INDEX_HEAD, INDEX_RANGE, PAGE_SIZE};
use std::alloc::{AllocFailed, Global};
use std::marker::Model;
use std::rc::Rc;

/// Which pages of a memory a file has, in which order.
#[derive(Debug, Drop)]
pub struct FileIndex {
    ranges: Vec<Range>,
    memory: u32,
    count: u32,
}

// Contracts see the pages of the memory and the numbers of those in the file.
impl Model for FileIndex {
    ghost use Rattle.page_spec.specs.PageFile.{PageIndex};

    ghost Value = { PageIndex };

    ghost use Rattle.page_file.specs.Index.{index_of, IsFileIndex};

    ghost view = { index_of };

    ghost invariant = { IsFileIndex };
}

impl FileIndex {
    /// The index of a file with these pages of a memory of so many. NoMemory where memory runs out.
    pub fn build(alloc: Global, pages: &[u32], memory: u32) -> Result<FileIndex, NoMemory>
        requires { IsIndex (record { memory = memory; numbers = pages.now }) }
        ensures { IfOk result (λ index. index ≡ record { memory = memory; numbers = pages.now }) }
    {
        let mut ranges = Vec::new(alloc);
        let mut last = Range {
            first: pages[0],
            length: 1,
            place: 0,
        };
        for i in 1..pages.len() {
            let page = pages[i];
            if page == last.first + last.length {
                last.length += 1;
            } else {
                ranges.push(last)?;
                last = Range {
                    first: page,
                    length: 1,
                    place: last.place + last.length,
                };
            }
        }
        ranges.push(last)?;
        Ok(FileIndex {
            ranges,
            memory,
            count: pages.len() as u32,
        })
    }

    /// How many pages stand in the file before this page of the memory. `None` exactly where the file doesn't have it.
    pub fn find(&self, page: u32) -> Option<u32>
        ensures { result ≡ position (λ p. p == page) self.now.numbers }
    {
        let after = begun_by(&self.ranges, page);
        if after == 0 {
            return None;
        }
        let range = self.ranges[after - 1];
        let offset = page - range.first;
        if offset < range.length {
            Some(range.place + offset)
        } else {
            None
        }
    }

    /// How many pages the file has.
    pub fn count(&self) -> u32
        ensures count { result ≡ length self.now.numbers }
        ensures index { IsIndex self.now }
    {
        self.count
    }

    /// How many pages the memory has.
    pub fn memory(&self) -> u32
        ensures memory { result ≡ self.now.memory }
        ensures index { IsIndex self.now }
    {
        self.memory
    }

    /// The pages of the memory that the file has, ascending. NoMemory where memory runs out.
    pub fn pages(&self, alloc: Global) -> Result<Vec<u32>, NoMemory>
        ensures { IfOk result (λ pages. pages.items ≡ self.now.numbers) }
    {
        let mut pages = Vec::with_capacity(alloc, self.count as usize)?;
        for range in &self.ranges {
            push_pages(&mut pages, *range)?;
        }
        Ok(pages)
    }

    // The index, to be shared.
    pub(crate) fn shared(self, alloc: Global) -> Result<Rc<FileIndex>, AllocFailed<FileIndex>>
        ensures value { IfOk result (λ index. index.value ≡ self) }
        ensures index { IsIndex self }
    {
        let _ = &self.count;
        Rc::new(alloc, self)
    }

    /// Where the page at this place begins in the file.
    pub(crate) fn offset(&self, place: u32) -> u64
        ensures { result ≡ index_length self.now + PAGE_SIZE * place }
    {
        INDEX_HEAD as u64
            + INDEX_RANGE as u64 * self.ranges.len() as u64
            + PAGE_SIZE as u64 * place as u64
    }

    /// What stands before the pages, and the first of them behind it.
    pub(crate) fn text_with(&self, alloc: Global, pages: &[u8]) -> Result<Blob, NoMemory>
        ensures { IfOk result (λ text. text ≡ index_text self.now ++ pages.now) }
    {
        let ranges = self.ranges.len();
        let header = Header {
            memory: self.memory,
            ranges: ranges as u32,
            pages: self.count,
        };
        let size = INDEX_HEAD + INDEX_RANGE * ranges + pages.len();
        let mut text = Writer::with_capacity(alloc, size)?;
        header.write(&mut text)?;
        write_ranges(&mut text, &self.ranges)?;
        text.bytes(pages)?;
        Ok(text.into_blob())
    }

    /// The index that a header and the text of its ranges spell. `None` where they spell none.
    pub(crate) fn read(
        alloc: Global,
        header: Header,
        bytes: &[u8],
    ) -> Result<Option<FileIndex>, NoMemory>
        requires size { length bytes.now ≡ INDEX_RANGE * header.ranges }
        requires possible { IsTrue (are_counts header.memory header.ranges header.pages) }
        ensures { ReadsIndex header.memory header.pages bytes.now result }
    {
        let ranges = read_ranges(alloc, bytes, header.ranges as usize)?;
        if pages_in(&ranges, header.memory) != Some(header.pages) {
            return Ok(None);
        }
        Ok(Some(FileIndex {
            ranges,
            memory: header.memory,
            count: header.pages,
        }))
    }
}
