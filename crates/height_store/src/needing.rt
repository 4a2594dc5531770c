//! Which page files are needed, and sweeping the others.

ghost use Rattle.std.specs.Prelude.{◌≡◌, ◌||◌, ℕ, List, nat_eq, IsTrue, OnOk, IfOk};
ghost use Rattle.std.specs.List.{list_any, AllByRecursion};
ghost use Rattle.std.specs.List.Sorted.{IsStrictlyIncreasing};
ghost use Rattle.store_spec.specs.Image.{Published, StandsFor};
ghost use Rattle.disk_model.specs.View.{LeavesOnly};
ghost use Rattle.disk_model.specs.Writing.{Writes};
ghost use Rattle.height_store.specs.Kept.{IsReadable, IsWritable, KeepsHeights};
ghost use Rattle.height_store.specs.Needed.{is_page_needed, is_dispensable, files_swept};
ghost use Rattle.height_store.specs.Store.{IsHeight};

use crate::store::{HeightStore, PublishedHeight};
use crate::sweeping::sweep_others;
use byte_codec::NoMemory;
use disk_model::{Disk, DiskError};
use mark_file::MarkMem;
use std::alloc::Global;

impl HeightStore {
    /// The numbers of the page files that a published mark names, together with those given, ascending. NoMemory where memory runs out.
    pub fn needed(&self, alloc: Global, pins: &[u64]) -> Result<Vec<u64>, NoMemory>
        ensures each { IfOk result (λ needed. (n : ℕ) → list_any (nat_eq n) needed.items ≡ is_page_needed self.now.heights pins.now n) }
        ensures ascends { IfOk result (λ needed. IsStrictlyIncreasing needed.items) }
    {
        gather(alloc, &self.heights, pins)
    }

    /// Removes every page file that no published mark names and whose number isn't among `pins`, every stage file whose number
    /// isn't among `stages`, and every draft. All other files stay as they are, and so do the heights.
    ///
    /// A crash at any moment leaves the heights that are published. Fault where the disk failed, Memory where memory ran out: such
    /// files may be gone then, and others not.
    pub fn sweep<D: Disk>(
        &mut self,
        alloc: Global,
        pins: &[u64],
        stages: &[u64],
        disk: &mut D,
    ) -> Result<(), DiskError>
        ensures store { self.new ≡ self.old }
        ensures swept { IsTrue D.tells → OnOk result ((D.view disk.new).state.files ≡ files_swept self.old.heights pins.now stages.now (D.view disk.old).state.files) }
        ensures readable { IsTrue D.tells → IsReadable self.old.heights (D.view disk.old).state.files → OnOk result (IsReadable self.new.heights (D.view disk.new).state.files) }
        ensures writable { IsTrue D.tells → OnOk result ((h : ℕ) → IsWritable self.old h (D.view disk.old).state.files → IsWritable self.new h (D.view disk.new).state.files) }
        ensures stands { IsTrue D.tells → (ps : List Published)
            → KeepsHeights self.old.heights (D.view disk.old).state ps → KeepsHeights self.new.heights (D.view disk.new).state ps }
        ensures images { IsTrue D.tells → (ps : List Published)
            → KeepsHeights self.old.heights (D.view disk.old).state ps → LeavesOnly (D.view disk.old) (D.view disk.new) (λ image. StandsFor image ps) }
        ensures writes { Writes D.Disk (is_dispensable self.old.heights pins.now stages.now) 0 disk.old disk.new result }
    {
        sweep_unneeded(alloc, disk, &self.heights, pins, stages)
    }
}

// Removes the files that these heights don't need and that are none of these page files and stage files, but for marks.
fn sweep_unneeded<D: Disk>(
    alloc: Global,
    disk: &mut D,
    heights: &[PublishedHeight],
    pins: &[u64],
    stages: &[u64],
) -> Result<(), DiskError>
    ensures good { OnOk result (AllByRecursion IsHeight heights.now) }
    ensures swept { IsTrue D.tells → OnOk result ((D.view disk.new).state.files ≡ files_swept heights.now pins.now stages.now (D.view disk.old).state.files) }
    ensures writes { Writes D.Disk (is_dispensable heights.now pins.now stages.now) 0 disk.old disk.new result }
{
    let needed = gather(alloc, heights, pins)?;
    let mut kept = Vec::from_slice(alloc, stages)?;
    put_in_order(&mut kept);
    sweep_others(alloc, disk, &needed, &kept)
}

// The numbers of the page files that the marks of these heights name, together with those given, ascending.
fn gather(alloc: Global, heights: &[PublishedHeight], pins: &[u64]) -> Result<Vec<u64>, NoMemory>
    ensures each { IfOk result (λ numbers. (n : ℕ) → list_any (nat_eq n) numbers.items ≡ is_page_needed heights.now pins.now n) }
    ensures ascends { IfOk result (λ numbers. IsStrictlyIncreasing numbers.items) }
    ensures good { OnOk result (AllByRecursion IsHeight heights.now) }
{
    let mut numbers = Vec::from_slice(alloc, pins)?;
    for height in heights {
        add_layers(&mut numbers, &height.mark().mems)?;
    }
    put_in_order(&mut numbers);
    Ok(numbers)
}

// Adds the numbers of the page files that these memories name.
fn add_layers(numbers: &mut Vec<u64>, mems: &[MarkMem]) -> Result<(), NoMemory>
    ensures { OnOk result ((n : ℕ) → list_any (nat_eq n) numbers.new.items
        ≡ (list_any (nat_eq n) numbers.old.items || list_any (λ memory. list_any (nat_eq n) memory.layers) mems.now)) }
{
    for mem in mems {
        numbers.extend_from_slice(&mem.layers)?;
    }
    Ok(())
}

// Puts numbers in order, each once.
fn put_in_order(numbers: &mut Vec<u64>)
    ensures each { (n : ℕ) → list_any (nat_eq n) numbers.new.items ≡ list_any (nat_eq n) numbers.old.items }
    ensures ascends { IsStrictlyIncreasing numbers.new.items }
{
    numbers.sort_unstable();
    numbers.dedup();
}
