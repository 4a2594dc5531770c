//! Reading what a disk stands for, and changing nothing.

ghost use Rattle.std.specs.Prelude.{◌≡◌, ◌+◌, ◌≤◌, ℕ, List, nat_eq, IsTrue, OnOk, OnErr, IfOk, IfErr, IsErrOf};
ghost use Rattle.std.specs.List.{list_any, AllByRecursion};
ghost use Rattle.std.specs.List.Sorted.{IsStrictlyIncreasing};
ghost use Rattle.store_spec.specs.Image.{Opens};
ghost use Rattle.disk_model.specs.declared.name.Kind.TheVariants as kind;
ghost use Rattle.disk_model.specs.Causes.{FailsFor};
ghost use Rattle.disk_model.specs.Files.{IsListing};
ghost use Rattle.disk_model.specs.OnlyReads.{OnlyReads};
ghost use Rattle.height_store.specs.Bad.{IsFirstBadMark, IsFirstBadPage, LooksAtMarks};
ghost use Rattle.height_store.specs.Errors.{IsBadFile, disk_error};
ghost use Rattle.height_store.specs.Found.{IsFound};
ghost use Rattle.height_store.specs.Kept.{IsReadable};
ghost use Rattle.height_store.specs.Opened.{ReadsAtMost};
ghost use Rattle.height_store.specs.Store.{IsHeight, numbers_of, is_named};

use crate::error::StoreError;
use crate::marks::read_marks;
use crate::pages::{heights_of, open_pages};
use crate::store::HeightStore;
use byte_codec::NoMemory;
use disk_model::{Disk, Kind};
use page_file::PageFile;
use std::alloc::Global;

impl HeightStore {
    /// Opens a disk as it reads, and only looks at it: nothing is settled or removed. Reads its marks by height and the indices
    /// of the page files that they name by number; other page files, drafts and stage files are passed over. No page is read.
    ///
    /// The answer is that of `open` for a disk that reads so: BadMark for the first mark by height that isn't a valid mark of its
    /// height or is the seventeenth; where all marks are good, BadPage for the first page file by number that a mark names and
    /// that is absent, isn't a valid page file or has more memory pages than the memory. Fault where the disk failed, Memory where
    /// memory ran out.
    pub fn open_read<D: Disk>(alloc: Global, disk: &mut D) -> Result<HeightStore, StoreError>
        ensures only_reads { IsTrue D.tells → (most : ℕ) × OnlyReads most (D.view disk.old) (D.view disk.new) }
        ensures good { IfOk result (λ store. AllByRecursion IsHeight store.heights) }
        ensures found { IsTrue D.tells → IfOk result (λ store. IsReadable store.heights (D.view disk.old).state.files) }
        ensures bad_mark { IsTrue D.tells → (height : ℕ) → IsErrOf result (StoreError.BadMark height) → IsFirstBadMark (D.view disk.old).state.files height }
        ensures bad_page { IsTrue D.tells → (number : ℕ) → IsErrOf result (StoreError.BadPage number) → IsFirstBadPage (D.view disk.old).state.files number }
        ensures opens { IsTrue D.tells → OnOk result (Opens (D.view disk.old).state.files) }
        ensures named { IfOk result (λ store. (n : ℕ) → list_any (nat_eq n) store.named ≡ is_named store.heights n) }
        ensures named_ascends { IfOk result (λ store. IsStrictlyIncreasing store.named) }
        ensures next { IfOk result (λ store. (store.numbers_given ≡ 0) × (store.least_free ≡ 0)) }
        ensures bad_mark_reads { IsTrue D.tells → (heights : List ℕ) → IsListing kind.Mark (D.view disk.old).state.files heights
            → (height : ℕ) → IsErrOf result (StoreError.BadMark height) → LooksAtMarks heights (D.view disk.old) (D.view disk.new) }
        ensures read { IsTrue D.tells → IfOk result (λ store. ReadsAtMost (D.view disk.old).state.files store (D.view disk.old).bytes_read (D.view disk.new).bytes_read) }
        ensures cause { FailsFor D.Disk disk_error IsBadFile disk.old disk.new result }
    {
        let marks = disk.list(alloc, Kind::Mark)?;
        read_store(alloc, disk, &marks)
    }
}

/// Reads the marks of these heights, which are all that the disk has, and opens the page files that they name. No number was given yet.
pub(crate) fn read_store<D: Disk>(
    alloc: Global,
    disk: &mut D,
    heights: &[u64],
) -> Result<HeightStore, StoreError>
    requires listed { IsTrue D.tells → IsListing kind.Mark (D.view disk.old).state.files heights.now }

    ensures found { IsTrue D.tells → IfOk result (λ store. IsFound store (D.view disk.old).state.files) }
    ensures good { IfOk result (λ store. AllByRecursion IsHeight store.heights) }
    ensures bad_mark { IsTrue D.tells → (height : ℕ) → IsErrOf result (StoreError.BadMark height) → IsFirstBadMark (D.view disk.old).state.files height }
    ensures bad_page { IsTrue D.tells → (number : ℕ) → IsErrOf result (StoreError.BadPage number) → IsFirstBadPage (D.view disk.old).state.files number }
    ensures named { IfOk result (λ store. (n : ℕ) → list_any (nat_eq n) store.named ≡ is_named store.heights n) }
    ensures named_ascends { IfOk result (λ store. IsStrictlyIncreasing store.named) }
    ensures next { IfOk result (λ store. (store.numbers_given ≡ 0) × (store.least_free ≡ 0)) }
    ensures opens { IsTrue D.tells → OnOk result (Opens (D.view disk.old).state.files) }
    ensures read { IsTrue D.tells → IfOk result (λ store. ReadsAtMost (D.view disk.old).state.files store (D.view disk.old).bytes_read (D.view disk.new).bytes_read) }
    ensures bad_mark_reads { IsTrue D.tells → (height : ℕ) → IsErrOf result (StoreError.BadMark height) → LooksAtMarks heights.now (D.view disk.old) (D.view disk.new) }
    ensures only_reads { IsTrue D.tells → (most : ℕ) × OnlyReads most (D.view disk.old) (D.view disk.new) }
    ensures cause { FailsFor D.Disk disk_error IsBadFile disk.old disk.new result }
{
    check_order(heights)?;
    let marks = read_marks(alloc, disk, heights)?;
    let files = open_pages(alloc, disk, &marks)?;
    let named = numbers(alloc, &files)?;
    let heights = heights_of(alloc, marks, &files)?;
    Ok(HeightStore::new(heights, named))
}

// The numbers of page files.
fn numbers(alloc: Global, files: &[PageFile]) -> Result<Vec<u64>, NoMemory>
    ensures { IfOk result (λ numbers. numbers.items ≡ numbers_of files.now) }
{
    let numbers = files.iter().map(|file| file.number()).collect(alloc)?;
    Ok(numbers)
}

// BadMark for the first height that isn't above the one before it: no disk that tells its files lists one.
fn check_order(heights: &[u64]) -> Result<(), StoreError>
    ensures ascends { OnOk result (IsStrictlyIncreasing heights.now) }
    ensures only { OnErr result (IsStrictlyIncreasing heights.now → ⊥) }
    ensures bad_mark { IfErr result (λ e. (height : ℕ) × (e ≡ StoreError.BadMark height)) }
{
    for i in 1..heights.len() {
        if heights[i] <= heights[i - 1] {
            return Err(StoreError::BadMark(heights[i]));
        }
    }
    Ok(())
}
