//! Opening a disk.

ghost use Rattle.std.specs.Prelude.{◌≡◌, ◌≤◌, ◌+◌, ℕ, List, None, is_some, nat_eq, true, IsTrue, OnOk, IfOk, IsErrAnd, IsErrOf};
ghost use Rattle.std.specs.List.{list_any, AllByRecursion};
ghost use Rattle.std.specs.List.Sorted.{IsStrictlyIncreasing};
ghost use Rattle.store_spec.specs.Image.{Published, StandsFor, Opens};
ghost use Rattle.disk_model.specs.declared.name.Kind.TheVariants as kind;
ghost use Rattle.disk_model.specs.declared.name.Name.{Name};
ghost use Rattle.disk_model.specs.declared.name.Name.TheVariants as name;
ghost use Rattle.disk_model.specs.Causes.{Fails, FailsFor};
ghost use Rattle.disk_model.specs.Files.{IsListing};
ghost use Rattle.disk_model.specs.OnlyReads.{OnlyReads};
ghost use Rattle.disk_model.specs.State.{IsSettled, IsImageNow};
ghost use Rattle.disk_model.specs.View.{EachImage, LeavesOnly};
ghost use Rattle.disk_model.specs.Writing.{Writes};
ghost use Rattle.height_store.specs.Bad.{IsFirstBadMark, IsFirstBadPage, marks_bytes};
ghost use Rattle.height_store.specs.Errors.{IsBadFile, disk_error};
ghost use Rattle.height_store.specs.Found.{is_stray};
ghost use Rattle.height_store.specs.Kept.{IsReadable, MatchesFiles, KeepsHeights, StandsForSome, StandsAsBefore};
ghost use Rattle.height_store.specs.Opened.{ReadsAtMost};
ghost use Rattle.height_store.specs.Store.{IsHeight, is_named, is_needed};

use crate::error::StoreError;
use crate::finding::read_store;
use crate::store::HeightStore;
use crate::sweeping::sweep;
use disk_model::{Disk, DiskError, Kind};
use std::alloc::Global;

impl HeightStore {
    /// Opens a disk: settles it, reads its marks by height and the indices of the page files that they name by number,
    /// and removes every page file that no mark names, every draft and every stage file. No page is read.
    ///
    /// BadMark for the first mark by height that isn't a valid mark of its height or is the seventeenth; a file that is longer than any mark
    /// is not read. Where all marks are good,
    /// BadPage for the first page file by number that a mark names and that is absent, isn't a valid
    /// page file or has more memory pages than the memory. Nothing is removed then. Fault where the disk failed, Memory where memory ran out.
    ///
    /// Every mark and every page file that it names reads as before, whatever the files stand for. Where every image on entry
    /// stands for some heights, every image since stands for heights that one on entry stands for; and after Ok every image stands
    /// for the heights that the disk reads.
    pub fn open<D: Disk>(alloc: Global, disk: &mut D) -> Result<HeightStore, StoreError>
        ensures over { IsTrue D.tells → IfOk result (λ store. MatchesFiles store (D.view disk.new).state.files) }
        ensures good { IfOk result (λ store. AllByRecursion IsHeight store.heights) }
        ensures found { IsTrue D.tells → IfOk result (λ store. IsReadable store.heights (D.view disk.old).state.files) }
        ensures settled { IsTrue D.tells → OnOk result (IsSettled (D.view disk.new).state) }
        ensures bad_mark { IsTrue D.tells → (height : ℕ) → IsErrOf result (StoreError.BadMark height) → IsFirstBadMark (D.view disk.old).state.files height }
        ensures bad_page { IsTrue D.tells → (number : ℕ) → IsErrOf result (StoreError.BadPage number) → IsFirstBadPage (D.view disk.old).state.files number }
        ensures bad_keeps { IsTrue D.tells → IsErrAnd result IsBadFile → LeavesOnly (D.view disk.old) (D.view disk.new) (IsImageNow (D.view disk.old).state) }
        ensures stands { IsTrue D.tells → (ps : List Published)
            → EachImage (D.view disk.old).state StandsForSome → StandsFor (D.view disk.old).state.files ps
            → IfOk result (λ store. KeepsHeights store.heights (D.view disk.new).state ps) }
        ensures images { IsTrue D.tells
            → EachImage (D.view disk.old).state StandsForSome
            → LeavesOnly (D.view disk.old) (D.view disk.new) (StandsAsBefore (D.view disk.old).state) }
        ensures opens { IsTrue D.tells → OnOk result (Opens (D.view disk.old).state.files) }
        ensures kept { IsTrue D.tells → IfOk result (λ store. (q : Name) → is_needed store.heights q ≡ true → (D.view disk.new).state.files q ≡ (D.view disk.old).state.files q) }
        ensures marks { IsTrue D.tells → (n : ℕ) → (D.view disk.new).state.files (name.Mark n) ≡ (D.view disk.old).state.files (name.Mark n) }
        ensures bad_reads { IsTrue D.tells → IsErrAnd result IsBadFile → (D.view disk.new).state.files ≡ (D.view disk.old).state.files }
        ensures pages { IsTrue D.tells → IfOk result (λ store. (n : ℕ) → is_some ((D.view disk.new).state.files (name.Page n)) ≡ is_named store.heights n) }
        ensures no_stage { IsTrue D.tells → OnOk result ((n : ℕ) → (D.view disk.new).state.files (name.Stage n) ≡ None) }
        ensures named { IfOk result (λ store. (n : ℕ) → list_any (nat_eq n) store.named ≡ is_named store.heights n) }
        ensures named_ascends { IfOk result (λ store. IsStrictlyIncreasing store.named) }
        ensures next { IfOk result (λ store. (store.numbers_given ≡ 0) × (store.least_free ≡ 0)) }
        ensures bad_mark_reads { IsTrue D.tells → (heights : List ℕ) → IsListing kind.Mark (D.view disk.old).state.files heights → (height : ℕ) → IsErrOf result (StoreError.BadMark height)
            → (D.view disk.new).bytes_read ≤ (D.view disk.old).bytes_read + marks_bytes (D.view disk.old).state.files heights }
        ensures read { IsTrue D.tells → IfOk result (λ store. ReadsAtMost (D.view disk.old).state.files store (D.view disk.old).bytes_read (D.view disk.new).bytes_read) }
        ensures appended { IsTrue D.tells → (D.view disk.new).appended ≡ (D.view disk.old).appended }
        ensures cause { FailsFor D.Disk disk_error IsBadFile disk.old disk.new result }
    {
        disk.settle(alloc)?;
        let lists = list_all(alloc, disk)?;
        let store = read_store(alloc, disk, &lists.marks)?;
        sweep_strays(alloc, disk, &lists, store.named())?;
        Ok(store)
    }
}

// The numbers of all files, by kind.
#[derive(Drop)]
struct Lists {
    marks: Vec<u64>,
    pages: Vec<u64>,
    drafts: Vec<u64>,
    stages: Vec<u64>,
}

// Lists all files.
fn list_all<D: Disk>(alloc: Global, disk: &mut D) -> Result<Lists, DiskError>
    ensures marks { IsTrue D.tells → IfOk result (λ lists. IsListing kind.Mark (D.view disk.old).state.files lists.marks.items) }
    ensures pages { IsTrue D.tells → IfOk result (λ lists. IsListing kind.Page (D.view disk.old).state.files lists.pages.items) }
    ensures drafts { IsTrue D.tells → IfOk result (λ lists. IsListing kind.Draft (D.view disk.old).state.files lists.drafts.items) }
    ensures stages { IsTrue D.tells → IfOk result (λ lists. IsListing kind.Stage (D.view disk.old).state.files lists.stages.items) }
    ensures reads_only { IsTrue D.tells → OnlyReads 0 (D.view disk.old) (D.view disk.new) }
    ensures cause { Fails D.Disk disk.old disk.new result }
{
    Ok(Lists {
        marks: disk.list(alloc, Kind::Mark)?,
        pages: disk.list(alloc, Kind::Page)?,
        drafts: disk.list(alloc, Kind::Draft)?,
        stages: disk.list(alloc, Kind::Stage)?,
    })
}

// Removes all files but the marks and the page files of these numbers, which ascend. The lists have all files that there are.
fn sweep_strays<D: Disk>(
    alloc: Global,
    disk: &mut D,
    lists: &Lists,
    named: &[u64],
) -> Result<(), DiskError>
    requires pages { IsTrue D.tells → IsListing kind.Page (D.view disk.old).state.files lists.now.pages.items }
    requires drafts { IsTrue D.tells → IsListing kind.Draft (D.view disk.old).state.files lists.now.drafts.items }
    requires stages { IsTrue D.tells → IsListing kind.Stage (D.view disk.old).state.files lists.now.stages.items }
    requires ascends { IsStrictlyIncreasing named.now }

    ensures gone { IsTrue D.tells → OnOk result ((q : Name) → is_stray named.now q ≡ true → (D.view disk.new).state.files q ≡ None) }
    ensures writes { Writes D.Disk (is_stray named.now) 0 disk.old disk.new result }
{
    sweep(alloc, disk, Kind::Page, &lists.pages, named)?;
    sweep(alloc, disk, Kind::Draft, &lists.drafts, &[])?;
    sweep(alloc, disk, Kind::Stage, &lists.stages, &[])
}
