//! Removing files that no height needs.

ghost use Rattle.std.specs.Prelude.{◌≡◌, ℕ, [], ◌∷◌, None, not, ◌&&◌, true, false, nat_eq, IsTrue, OnOk};
ghost use Rattle.std.specs.List.{list_any, AllByRecursion};
ghost use Rattle.std.specs.List.Sorted.{IsStrictlyIncreasing};
ghost use Rattle.disk_model.specs.declared.name.Name.{Name};
ghost use Rattle.disk_model.specs.Files.{name_of};
ghost use Rattle.disk_model.specs.State.{IsThere};
ghost use Rattle.disk_model.specs.Writing.{Writes};
ghost use Rattle.height_store.specs.Found.{is_other, is_other_of};
ghost use Rattle.height_store.specs.Opened.{is_swept};

use disk_model::{Disk, DiskError, Kind, Name};
use std::alloc::Global;

/// Removes all page files but those of these numbers, all stage files but those of those numbers, and all drafts.
pub(crate) fn sweep_others<D: Disk>(
    alloc: Global,
    disk: &mut D,
    pages: &[u64],
    stages: &[u64],
) -> Result<(), DiskError>
    requires pages_ascend { IsStrictlyIncreasing pages.now }
    requires stages_ascend { IsStrictlyIncreasing stages.now }

    ensures gone { IsTrue D.tells → OnOk result ((q : Name) → is_other pages.now stages.now q ≡ true → (D.view disk.new).state.files q ≡ None) }
    ensures writes { Writes D.Disk (is_other pages.now stages.now) 0 disk.old disk.new result }
{
    sweep_kind(alloc, disk, Kind::Page, pages)?;
    sweep_kind(alloc, disk, Kind::Draft, &[])?;
    sweep_kind(alloc, disk, Kind::Stage, stages)
}

// Removes all files of a kind but those of these numbers, which ascend.
fn sweep_kind<D: Disk>(
    alloc: Global,
    disk: &mut D,
    kind: Kind,
    keep: &[u64],
) -> Result<(), DiskError>
    requires { IsStrictlyIncreasing keep.now }

    ensures gone { IsTrue D.tells → OnOk result ((n : ℕ) → list_any (nat_eq n) keep.now ≡ false → (D.view disk.new).state.files (name_of kind n) ≡ None) }
    ensures writes { Writes D.Disk (is_other_of kind keep.now) 0 disk.old disk.new result }
{
    let numbers = disk.list(alloc, kind)?;
    sweep(alloc, disk, kind, &numbers, keep)
}

/// Removes the files of a kind with these numbers, but for those to be kept, which ascend. They are there.
pub(crate) fn sweep<D: Disk>(
    alloc: Global,
    disk: &mut D,
    kind: Kind,
    numbers: &[u64],
    keep: &[u64],
) -> Result<(), DiskError>
    requires there { IsTrue D.tells → AllByRecursion (λ n. IsThere (D.view disk.old).state (name_of kind n)) numbers.now }
    requires ascend { IsTrue D.tells → IsStrictlyIncreasing numbers.now }
    requires keep_ascend { IsStrictlyIncreasing keep.now }

    ensures gone { IsTrue D.tells → OnOk result ((n : ℕ) → list_any (nat_eq n) numbers.now ≡ true → list_any (nat_eq n) keep.now ≡ false
        → (D.view disk.new).state.files (name_of kind n) ≡ None) }
    ensures writes { Writes D.Disk (is_swept kind numbers.now keep.now) 0 disk.old disk.new result }
{
    for number in numbers {
        sweep_one(alloc, disk, kind, *number, keep)?;
    }
    Ok(())
}

// Removes the file of this number, which is there, unless it is to be kept.
fn sweep_one<D: Disk>(
    alloc: Global,
    disk: &mut D,
    kind: Kind,
    number: u64,
    keep: &[u64],
) -> Result<(), DiskError>
    requires there { IsTrue D.tells → IsThere (D.view disk.old).state (name_of kind number) }
    requires keep_ascend { IsStrictlyIncreasing keep.now }

    ensures gone { IsTrue D.tells → OnOk result (list_any (nat_eq number) keep.now ≡ false → (D.view disk.new).state.files (name_of kind number) ≡ None) }
    ensures writes { Writes D.Disk (is_swept kind (number ∷ []) keep.now) 0 disk.old disk.new result }
{
    if !is_among(keep, number) {
        disk.remove(alloc, name_in(kind, number))?;
    }
    Ok(())
}

// Whether the number is one of these, which ascend.
fn is_among(numbers: &[u64], number: u64) -> bool
    requires { IsStrictlyIncreasing numbers.now }
    ensures { result ≡ list_any (nat_eq number) numbers.now }
{
    numbers.binary_search(&number).is_ok()
}

// The name of the file of this kind and number.
fn name_in(kind: Kind, number: u64) -> Name
    ensures { result ≡ name_of kind number }
{
    match kind {
        Kind::Page => Name::Page(number),
        Kind::Mark => Name::Mark(number),
        Kind::Draft => Name::Draft(number),
        Kind::Stage => Name::Stage(number),
    }
}
