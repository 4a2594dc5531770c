//! The page files that marks name.

ghost use Rattle.std.specs.Prelude.{◌≡◌, ◌+◌, ◌≤◌, ◌<◌, ◌++◌, ℕ, map, length, sum_by, nat_eq, true, false, IsTrue, OnOk, IfOk, IfErr, IsErrOf, MatchOption};
ghost use Rattle.std.specs.List.{list_any, AllByRecursion, Contains};
ghost use Rattle.std.specs.List.Sorted.{IsStrictlyIncreasing, IsNonDecreasingBy};
ghost use Rattle.format_spec.specs.declared.limits.TheConstants.{MAX_LAYERS};
ghost use Rattle.state_spec.specs.Files.{memories_in};
ghost use Rattle.sys_state.specs.System.{part_of, IsWithinLimits};
ghost use Rattle.page_spec.specs.PageFile.{index_length};
ghost use Rattle.disk_model.specs.Causes.{FailsFor};
ghost use Rattle.disk_model.specs.Files.{Files};
ghost use Rattle.disk_model.specs.OnlyReads.{OnlyReads};
ghost use Rattle.page_file.specs.Errors.{IsBadFile, page_error};
ghost use Rattle.page_file.specs.Files.{IsAsKnown};
ghost use Rattle.height_store.specs.Bad.{AreGoodMarks, IsFirstBadPage, IsGoodNaming, namings, mark_namings};
ghost use Rattle.height_store.specs.Kept.{HasStacks};
ghost use Rattle.height_store.specs.Naming.{rows_of, IsFileOf, Takes, index_bytes, IsFirstBadNaming};
ghost use Rattle.height_store.specs.Opened.{parts_of, FitNamings};
ghost use Rattle.height_store.specs.Store.{IsHeight, numbers_of};

use crate::chunks::index_of;
use crate::marks::OpenedMark;
use crate::store::PublishedHeight;
use byte_codec::NoMemory;
use disk_model::Disk;
use layer_stack::Stack;
use mark_file::MarkMem;
use page_file::{PageError, PageFile};
use std::alloc::Global;
use sys_state::memory_pages;

/// Opens each page file that these marks name, once, by number. The marks are all that the disk has, and good.
/// BadPage for the first that is absent, isn't a valid page file or has more memory pages than a memory that names it.
pub(crate) fn open_pages<D: Disk>(
    alloc: Global,
    disk: &mut D,
    marks: &[OpenedMark],
) -> Result<Vec<PageFile>, PageError>
    requires good { IsTrue D.tells → AreGoodMarks (D.view disk.old).state.files (map parts_of marks.now) }

    ensures kept { IsTrue D.tells → IfOk result (λ files. AllByRecursion (IsAsKnown (D.view disk.old).state.files) files.items) }
    ensures ascends { IfOk result (λ files. IsStrictlyIncreasing (numbers_of files.items)) }
    ensures named { IfOk result (λ files. (n : ℕ) → list_any (nat_eq n) (numbers_of files.items) ≡ list_any (λ naming. nat_eq n naming.0) (namings (map parts_of marks.now))) }
    ensures fits { IfOk result (λ files. FitNamings files.items (namings (map parts_of marks.now))) }
    ensures bad_page { IsTrue D.tells → (number : ℕ) → IsErrOf result (PageError.BadPage number) → IsFirstBadPage (D.view disk.old).state.files number }
    ensures reads_only { IsTrue D.tells → IfOk result (λ files. OnlyReads (sum_by (λ file. index_length file.index) files.items) (D.view disk.old) (D.view disk.new)) }
    ensures only_reads { IsTrue D.tells → (most : ℕ) × OnlyReads most (D.view disk.old) (D.view disk.new) }
    ensures cause { FailsFor D.Disk page_error IsBadFile disk.old disk.new result }
{
    let mut namings = namings_of(alloc, marks)?;
    namings.sort_unstable_by_key(|naming| naming.0);
    open_named(alloc, disk, &namings)
}

/// The heights of these marks, with the page files that each names. These are among the files, which ascend by number.
pub(crate) fn heights_of(
    alloc: Global,
    marks: Vec<OpenedMark>,
    files: &[PageFile],
) -> Result<Vec<PublishedHeight>, NoMemory>
    requires ascends { IsStrictlyIncreasing (numbers_of files.now) }
    requires named { AllByRecursion (λ naming. list_any (nat_eq naming.0) (numbers_of files.now) ≡ true) (namings (map parts_of marks.items)) }
    requires fits { FitNamings files.now (namings (map parts_of marks.items)) }

    ensures marks { IfOk result (λ heights. map (λ h. record { mark = h.mark; system = h.system }) heights.items ≡ marks.items) }
    ensures good { IfOk result (λ heights. AllByRecursion IsHeight heights.items) }
    ensures stacks { (all : Files) → AllByRecursion (IsAsKnown all) files.now → IfOk result (λ heights. AllByRecursion (HasStacks all) heights.items) }
{
    let mut heights = Vec::with_capacity(alloc, marks.len())?;
    for mark in marks {
        heights.push(height_of(alloc, mark, files)?)?;
    }
    Ok(heights)
}

// ---- which page files the marks name

// The page files that these marks name, each with the pages of the memory, by the order of marks, memories and layers.
fn namings_of(alloc: Global, marks: &[OpenedMark]) -> Result<Vec<(u64, u32)>, NoMemory>
    ensures { IfOk result (λ all. all.items ≡ namings (map parts_of marks.now)) }
{
    let mut all = Vec::new(alloc);
    for mark in marks {
        add_mark(alloc, &mut all, mark)?;
    }
    Ok(all)
}

fn add_mark(alloc: Global, all: &mut Vec<(u64, u32)>, mark: &OpenedMark) -> Result<(), NoMemory>
    ensures { OnOk result (all.new.items ≡ all.old.items ++ mark_namings (parts_of mark.now)) }
{
    let pages = memory_pages(alloc, &mark.sys)?;
    add_mems(all, &mark.mark.mems, &pages)
}

// Adds those that memories of so many pages each name.
fn add_mems(all: &mut Vec<(u64, u32)>, mems: &[MarkMem], pages: &[u32]) -> Result<(), NoMemory>
    requires { length mems.now ≡ length pages.now }
    ensures { OnOk result (all.new.items ≡ all.old.items ++ rows_of mems.now pages.now) }
{
    for (i, mem) in mems.iter().enumerate() {
        add_mem(all, &mem.layers, pages[i])?;
    }
    Ok(())
}

fn add_mem(all: &mut Vec<(u64, u32)>, layers: &[u64], pages: u32) -> Result<(), NoMemory>
    ensures { OnOk result (all.new.items ≡ all.old.items ++ map (λ number. (number, pages)) layers.now) }
{
    for number in layers {
        all.push((*number, pages))?;
    }
    Ok(())
}

// ---- opening

// Opens each page file that is named, once. The namings are ordered by number.
fn open_named<D: Disk>(
    alloc: Global,
    disk: &mut D,
    named: &[(u64, u32)],
) -> Result<Vec<PageFile>, PageError>
    requires ordered { IsNonDecreasingBy (λ naming. naming.0) named.now }

    ensures kept { IsTrue D.tells → IfOk result (λ files. AllByRecursion (IsAsKnown (D.view disk.old).state.files) files.items) }
    ensures ascends { IfOk result (λ files. IsStrictlyIncreasing (numbers_of files.items)) }
    ensures named { IfOk result (λ files. (n : ℕ) → list_any (nat_eq n) (numbers_of files.items) ≡ list_any (λ naming. nat_eq n naming.0) named.now) }
    ensures fits { IfOk result (λ files. FitNamings files.items named.now) }
    ensures bad_page { IsTrue D.tells → (number : ℕ) → IsErrOf result (PageError.BadPage number) → IsFirstBadNaming (D.view disk.old).state.files named.now number }
    ensures reads_only { IsTrue D.tells → IfOk result (λ files. OnlyReads (index_bytes files.items) (D.view disk.old) (D.view disk.new)) }
    ensures only_reads { IsTrue D.tells → (most : ℕ) × OnlyReads most (D.view disk.old) (D.view disk.new) }
    ensures cause { FailsFor D.Disk page_error IsBadFile disk.old disk.new result }
{
    let mut files = Vec::new(alloc);
    for naming in named {
        open_one(alloc, disk, &mut files, naming.0, naming.1)?;
    }
    Ok(files)
}

// Opens the page file of this number unless it is among the files, and compares its memory pages with these.
fn open_one<D: Disk>(
    alloc: Global,
    disk: &mut D,
    files: &mut Vec<PageFile>,
    number: u64,
    pages: u32,
) -> Result<(), PageError>
    requires ascends { IsStrictlyIncreasing (numbers_of files.old.items) }
    requires kept { IsTrue D.tells → AllByRecursion (IsAsKnown (D.view disk.old).state.files) files.old.items }

    ensures takes { OnOk result (Takes files.old.items number pages files.new.items) }
    ensures kept { IsTrue D.tells → OnOk result (AllByRecursion (IsAsKnown (D.view disk.old).state.files) files.new.items) }
    ensures good { IsTrue D.tells → OnOk result (IsGoodNaming (D.view disk.old).state.files (number, pages)) }
    ensures number { (n : ℕ) → IsErrOf result (PageError.BadPage n) → n ≡ number }
    ensures bad { IsTrue D.tells → (n : ℕ) → IsErrOf result (PageError.BadPage n) → IsGoodNaming (D.view disk.old).state.files (number, pages) → ⊥ }
    ensures reads_only { IsTrue D.tells → OnOk result ((most : ℕ) × (index_bytes files.new.items ≡ index_bytes files.old.items + most) × OnlyReads most (D.view disk.old) (D.view disk.new)) }
    ensures only_reads { IsTrue D.tells → (most : ℕ) × OnlyReads most (D.view disk.old) (D.view disk.new) }
    ensures cause { FailsFor D.Disk page_error IsBadFile disk.old disk.new result }
{
    if let Some(file) = find_file(files, number) {
        return check_fits(file, pages);
    }
    let file = PageFile::open(alloc, disk, number)?;
    check_fits(&file, pages)?;
    files.push(file)?;
    Ok(())
}

// BadPage where the file has more memory pages than these.
fn check_fits(file: &PageFile, pages: u32) -> Result<(), PageError>
    ensures fits { OnOk result (file.now.index.memory ≤ pages) }
    ensures bad { IfErr result (λ e. (e ≡ PageError.BadPage file.now.number) × (pages < file.now.index.memory)) }
{
    if file.index().memory() > pages {
        return Err(PageError::BadPage(file.number()));
    }
    Ok(())
}

// The file of this number among files that ascend by number.
fn find_file(files: &[PageFile], number: u64) -> Option<&PageFile>
    requires { IsStrictlyIncreasing (numbers_of files.now) }
    ensures { MatchOption result (list_any (nat_eq number) (numbers_of files.now) ≡ false) (λ file. IsFileOf files.now number file.now) }
{
    match files.binary_search_by_key(&number, |file| file.number()) {
        Ok(i) => Some(&files[i]),
        Err(_) => None,
    }
}

// ---- the page files of each memory

fn height_of(
    alloc: Global,
    mark: OpenedMark,
    files: &[PageFile],
) -> Result<PublishedHeight, NoMemory>
    requires ascends { IsStrictlyIncreasing (numbers_of files.now) }
    requires named { AllByRecursion (λ naming. list_any (nat_eq naming.0) (numbers_of files.now) ≡ true) (mark_namings (parts_of mark)) }
    requires fits { FitNamings files.now (mark_namings (parts_of mark)) }

    ensures mark { IfOk result (λ h. record { mark = h.mark; system = h.system } ≡ mark) }
    ensures good { IfOk result IsHeight }
    ensures stacks { (all : Files) → AllByRecursion (IsAsKnown all) files.now → IfOk result (HasStacks all) }
{
    let stacks = stacks_of(alloc, &mark.mark.mems, files)?;
    let chunks = index_of(alloc, &mark.mark, &mark.sys)?;
    Ok(PublishedHeight {
        mark: mark.mark,
        sys: mark.sys,
        stacks,
        chunks,
    })
}

// The page files that each of these memories names. They are among the files.
fn stacks_of(alloc: Global, mems: &[MarkMem], files: &[PageFile]) -> Result<Vec<Stack>, NoMemory>
    requires ascends { IsStrictlyIncreasing (numbers_of files.now) }
    requires few { AllByRecursion (λ mem. length mem.layers ≤ MAX_LAYERS) mems.now }
    requires named { AllByRecursion (λ mem. AllByRecursion (λ number. list_any (nat_eq number) (numbers_of files.now) ≡ true) mem.layers) mems.now }

    ensures numbers { IfOk result (λ stacks. map numbers_of stacks.items ≡ map (λ mem. mem.layers) mems.now) }
    ensures among { IfOk result (λ stacks. AllByRecursion (AllByRecursion (Contains files.now)) stacks.items) }
{
    let mut stacks = Vec::with_capacity(alloc, mems.len())?;
    for mem in mems {
        stacks.push(stack_of(alloc, &mem.layers, files)?)?;
    }
    Ok(stacks)
}

fn stack_of(alloc: Global, layers: &[u64], files: &[PageFile]) -> Result<Stack, NoMemory>
    requires ascends { IsStrictlyIncreasing (numbers_of files.now) }
    requires few { length layers.now ≤ MAX_LAYERS }
    requires named { AllByRecursion (λ number. list_any (nat_eq number) (numbers_of files.now) ≡ true) layers.now }

    ensures numbers { IfOk result (λ stack. numbers_of stack ≡ layers.now) }
    ensures among { IfOk result (AllByRecursion (Contains files.now)) }
{
    let mut stack = Stack::empty(alloc);
    for number in layers {
        match find_file(files, *number) {
            Some(file) => stack.push(file.copy(alloc)?)?,
            None => unreachable!(),
        }
    }
    Ok(stack)
}
