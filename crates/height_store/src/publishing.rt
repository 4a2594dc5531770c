//! Publishing and purging heights.

ghost use Rattle.std.specs.Prelude.{◌≡◌, ◌↔◌, ◌<◌, ◌≤◌, ◌+◌, ◌++◌, ◌∷◌, [], ◌||◌, ◌⊎◌, ℕ, List, Err, length, is_some, not, false, ◌==◌, IsTrue, OnOk, IfOk, IsErrOf};
ghost use Rattle.std.specs.List.{AllByRecursion};
ghost use Rattle.format_spec.specs.declared.limits.TheConstants.{MAX_PUBLISHED};
ghost use Rattle.state_spec.specs.State.{SystemPart};
ghost use Rattle.store_spec.specs.Image.{Published, without_published};
ghost use Rattle.store_spec.specs.Mark.{mark_text};
ghost use Rattle.disk_model.specs.declared.name.Name.TheVariants as name;
ghost use Rattle.disk_model.specs.Files.{same_name};
ghost use Rattle.disk_model.specs.State.{IsSettled, IsAbsent};
ghost use Rattle.disk_model.specs.Causes.{FailsFor};
ghost use Rattle.disk_model.specs.View.{LeavesOnly};
ghost use Rattle.disk_model.specs.Writing.{Writes, WritesOnly};
ghost use Rattle.page_file.specs.Files.{IsAsKnown};
ghost use Rattle.height_store.specs.Errors.{IsBadHeight, disk_error};
ghost use Rattle.height_store.specs.Kept.{IsReadable, IsWritable, IsMadeOf, HasFirmPages, KeepsHeights, StandsForEither};
ghost use Rattle.height_store.specs.Store.{FitsMark, IsHeight, Gains, height_at, without_height, is_newest};
ghost use Rattle.height_store.specs.Written.{is_of, HasWritten, IsBeforeOrAfter};

use crate::chunks::index_of;
use crate::error::StoreError;
use crate::store::{HeightStore, PublishedHeight};
use byte_codec::NoMemory;
use disk_model::{Disk, DiskError, Name};
use layer_stack::Stack;
use mark_file::{Mark, MarkError};
use std::alloc::Global;

impl HeightStore {
    /// Publishes a height: writes its mark as a draft, seals it, and gives it the mark's name. The mark is one of a state of
    /// version 1, above all heights that are published, of which there are fewer than 16; there is a stack for each memory, with the
    /// page files that the mark names.
    ///
    /// A crash at any moment leaves the heights before or those after; after Ok it leaves those after. That is said of a disk
    /// where nothing is pending, as opening leaves it. Fault where the disk failed, Memory where memory ran out.
    pub fn publish<D: Disk>(
        &mut self,
        alloc: Global,
        mark: Mark,
        stacks: Vec<Stack>,
        disk: &mut D,
    ) -> Result<(), DiskError>
        requires good { (s : SystemPart) × FitsMark mark s stacks.items }
        requires above { AllByRecursion (λ h. h.mark.height < mark.height) self.old.heights }
        requires few { length self.old.heights < MAX_PUBLISHED }
        requires readable { IsTrue D.tells → IsReadable self.old.heights (D.view disk.old).state.files }
        requires writable { IsTrue D.tells → IsWritable self.old mark.height (D.view disk.old).state.files }
        requires kept { IsTrue D.tells → AllByRecursion (AllByRecursion (IsAsKnown (D.view disk.old).state.files)) stacks.items }

        ensures gains { OnOk result (Gains self.old mark stacks.items self.new) }
        ensures numbers_given { self.new.numbers_given ≡ self.old.numbers_given }
        ensures readable { IsTrue D.tells → OnOk result (IsReadable self.new.heights (D.view disk.new).state.files) }
        ensures writable { IsTrue D.tells → OnOk result ((h : ℕ) → IsWritable self.old h (D.view disk.old).state.files → IsWritable self.new h (D.view disk.new).state.files) }
        ensures stands { IsTrue D.tells → (ps : List Published) (s : SystemPart) (p : Published)
            → IsSettled (D.view disk.old).state → KeepsHeights self.old.heights (D.view disk.old).state ps
            → IsMadeOf (D.view disk.old).state.files mark s stacks.items p → HasFirmPages (D.view disk.old).state mark
            → OnOk result (KeepsHeights self.new.heights (D.view disk.new).state (ps ++ p ∷ [])) }
        ensures images { IsTrue D.tells → (ps : List Published) (s : SystemPart) (p : Published)
            → IsSettled (D.view disk.old).state → KeepsHeights self.old.heights (D.view disk.old).state ps
            → IsMadeOf (D.view disk.old).state.files mark s stacks.items p → HasFirmPages (D.view disk.old).state mark
            → LeavesOnly (D.view disk.old) (D.view disk.new) (StandsForEither ps (ps ++ p ∷ [])) }
        ensures writes { Writes D.Disk (is_of mark.height) (length (mark_text mark)) disk.old disk.new result }
    {
        let height = mark.height;
        let text = mark.encode(alloc)?;
        let published = published(alloc, &mark, text.bytes(), stacks)?;
        self.heights.reserve(1)?;
        write_mark(alloc, disk, height, text.bytes())?;
        self.heights.push(published)?;
        Ok(())
    }

    /// Removes a published height: its mark goes, and its page files go when the disk is opened next.
    ///
    /// A crash at any moment leaves the heights before or those after; after Ok it leaves those after. That is said of a disk
    /// where nothing is pending, as opening leaves it. NoHeight exactly where the height is not published, LastHeight exactly
    /// where it is the newest: nothing is called then. Fault where the disk failed, Memory where memory ran out.
    pub fn purge<D: Disk>(
        &mut self,
        alloc: Global,
        height: u64,
        disk: &mut D,
    ) -> Result<(), StoreError>
        requires { IsTrue D.tells → IsReadable self.old.heights (D.view disk.old).state.files }

        ensures no_height { (result ≡ Err StoreError.NoHeight) ↔ (is_some (height_at self.old.heights height) ≡ false) }
        ensures last_height { (result ≡ Err StoreError.LastHeight) ↔ IsTrue (is_newest self.old.heights height) }
        ensures refused { IsErrOf result StoreError.NoHeight ⊎ IsErrOf result StoreError.LastHeight → (self.new ≡ self.old) × (disk.new ≡ disk.old) }
        ensures store { OnOk result (self.new ≡ record self.old { heights = without_height self.old.heights height }) }
        ensures numbers_given { self.new.numbers_given ≡ self.old.numbers_given }
        ensures readable { IsTrue D.tells → OnOk result (IsReadable self.new.heights (D.view disk.new).state.files) }
        ensures writable { IsTrue D.tells → OnOk result ((h : ℕ) → IsWritable self.old h (D.view disk.old).state.files → IsWritable self.new h (D.view disk.new).state.files) }
        ensures stands { IsTrue D.tells → (ps : List Published)
            → IsSettled (D.view disk.old).state → KeepsHeights self.old.heights (D.view disk.old).state ps
            → OnOk result (KeepsHeights self.new.heights (D.view disk.new).state (without_published ps height)) }
        ensures images { IsTrue D.tells → (ps : List Published)
            → IsSettled (D.view disk.old).state → KeepsHeights self.old.heights (D.view disk.old).state ps
            → LeavesOnly (D.view disk.old) (D.view disk.new) (StandsForEither ps (without_published ps height)) }
        ensures writes { IsTrue D.tells → WritesOnly (same_name (name.Mark height)) 0 result (D.view disk.old) (D.view disk.new) }
        ensures cause { FailsFor D.Disk disk_error IsBadHeight disk.old disk.new result }
    {
        let newest = match self.find(height) {
            None => return Err(StoreError::NoHeight),
            Some(_) => self.height(self.count() - 1),
        };
        if height == newest {
            return Err(StoreError::LastHeight);
        }
        disk.remove(alloc, Name::Mark(height))?;
        drop_height(&mut self.heights, height);
        Ok(())
    }
}

// A height with this mark, whose bytes these are, what its system text spells, these page files and the index of its chunks. NoMemory where memory runs out.
fn published(
    alloc: Global,
    mark: &Mark,
    text: &[u8],
    stacks: Vec<Stack>,
) -> Result<PublishedHeight, NoMemory>
    requires text { text.now ≡ mark_text mark.now }
    requires fits { (s : SystemPart) × FitsMark mark.now s stacks.items }
    ensures mark { IfOk result (λ h. h.mark ≡ mark.now) }
    ensures stacks { IfOk result (λ h. h.stacks ≡ stacks.items) }
    ensures good { IfOk result IsHeight }
{
    match Mark::decode_both(alloc, mark.height, text) {
        Ok((mark, sys)) => {
            let chunks = index_of(alloc, &mark, &sys)?;
            Ok(PublishedHeight {
                mark,
                sys,
                stacks,
                chunks,
            })
        }
        Err(MarkError::BadMark(_)) => unreachable!(),
        Err(MarkError::Memory) => Err(NoMemory),
    }
}

fn drop_height(heights: &mut Vec<PublishedHeight>, height: u64)
    ensures { heights.new.items ≡ without_height heights.old.items height }
{
    heights.retain(
        |kept| -> bool
            ensures { result ≡ not (kept.now.mark.height == height) }
        { kept.mark.height != height },
    );
}

// Writes this text as the mark of a height: as a draft, which is sealed and then renamed.
fn write_mark<D: Disk>(
    alloc: Global,
    disk: &mut D,
    height: u64,
    text: &[u8],
) -> Result<(), DiskError>
    requires no_draft { IsTrue D.tells → IsAbsent (D.view disk.old).state (name.Draft height) }
    requires no_mark { IsTrue D.tells → IsAbsent (D.view disk.old).state (name.Mark height) }

    ensures written { IsTrue D.tells → OnOk result (HasWritten height text.now (D.view disk.old) (D.view disk.new)) }
    ensures images { IsTrue D.tells → IsSettled (D.view disk.old).state → LeavesOnly (D.view disk.old) (D.view disk.new) (IsBeforeOrAfter (D.view disk.old).state height text.now) }
    ensures writes { Writes D.Disk (is_of height) (length text.now) disk.old disk.new result }
{
    let draft = Name::Draft(height);
    disk.create(alloc, draft)?;
    disk.append(alloc, draft, text)?;
    disk.seal(alloc, draft)?;
    disk.rename(alloc, draft, Name::Mark(height))
}
