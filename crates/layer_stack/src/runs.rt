//! Pages that stand one behind the other in one layer.
ghost use Rattle.std.specs.Prelude.{◌≡◌, ◌*◌, ◌<◌, ◌≤◌, ◌++◌, length, take, drop, replicate, Some, slice_index, IsTrue, OnOk, IfOk};
ghost use Rattle.std.specs.List.{AllByRecursion};
ghost use Rattle.format_spec.specs.declared.limits.TheConstants.{PAGE_SIZE as page_size};
ghost use Rattle.disk_model.specs.Causes.{Fails};
ghost use Rattle.disk_model.specs.OnlyReads.{OnlyReads};
ghost use Rattle.page_file.specs.Files.{IsAsKnown};
ghost use Rattle.layer_stack.specs.Stacks.{PagesReadAs};
ghost use Rattle.layer_stack.specs.Found.{FindsLayer, IsRun};

use crate::Stack;
use disk_model::{Disk, DiskError};
use format_spec::PAGE_SIZE;
use std::alloc::Global;

impl Stack {
    /// Reads these pages of the memory into `into`, one behind the other: of each the bytes that the newest layer with it has, or zeros where no layer
    /// has it. It asks the disk once for pages that stand behind each other in one layer. The files are as when the layers were opened or finished.
    /// Fault where the disk failed, Memory where memory ran out; `into` then has any bytes.
    pub fn read_pages<D: Disk>(
        &self,
        alloc: Global,
        disk: &mut D,
        pages: &[u32],
        into: &mut [u8],
    ) -> Result<(), DiskError>
        requires size { length into.old ≡ page_size * length pages.now }
        requires kept { IsTrue D.tells → AllByRecursion (IsAsKnown (D.view disk.old).state.files) self.now }

        ensures bytes { IsTrue D.tells → OnOk result (PagesReadAs (D.view disk.old).state.files self.now pages.now into.new) }
        ensures reads_only { IsTrue D.tells → OnlyReads (page_size * length pages.now) (D.view disk.old) (D.view disk.new) }
        ensures cause { Fails D.Disk disk.old disk.new result }
    {
        let mut done = 0;
        while done < pages.len() {
            let room = &mut into[done * PAGE_SIZE..];
            done += self.read_run(alloc, disk, &pages[done..], room)?;
        }
        Ok(())
    }

    // Reads the first of these pages, and those behind it that stand behind it in the same layer. Answers how many they are.
    fn read_run<D: Disk>(
        &self,
        alloc: Global,
        disk: &mut D,
        pages: &[u32],
        into: &mut [u8],
    ) -> Result<usize, DiskError>
        requires some { 0 < length pages.now }
        requires size { length into.old ≡ page_size * length pages.now }
        requires kept { IsTrue D.tells → AllByRecursion (IsAsKnown (D.view disk.old).state.files) self.now }

        ensures count { IfOk result (λ count. (0 < count) × (count ≤ length pages.now)) }
        ensures bytes { IsTrue D.tells → IfOk result (λ count. PagesReadAs (D.view disk.old).state.files self.now (take count pages.now) (take (count * page_size) into.new)) }
        ensures reads_only { IsTrue D.tells → IfOk result (λ count. OnlyReads (page_size * count) (D.view disk.old) (D.view disk.new)) }
        ensures reads_at_most { IsTrue D.tells → OnlyReads (page_size * length pages.now) (D.view disk.old) (D.view disk.new) }
        ensures cause { Fails D.Disk disk.old disk.new result }
    {
        match self.layer_with(pages[0]) {
            Some((i, place)) => {
                let count = self.run_of(i, place, pages);
                let room = &mut into[..count * PAGE_SIZE];
                self.layers[i].read_pages(alloc, disk, place, room)?;
                Ok(count)
            }
            None => {
                clear(into, PAGE_SIZE);
                Ok(1)
            }
        }
    }

    // How many of these pages stand behind each other in this layer, from this place on, and in no newer one. The first one does.
    fn run_of(&self, i: usize, place: u32, pages: &[u32]) -> usize
        requires some { 0 < length pages.now }
        requires first { FindsLayer self.now (slice_index pages.now 0) (Some (i, place)) }
        ensures some { 0 < result }
        ensures count { result ≤ length pages.now }
        ensures run { IsRun self.now i place (take result pages.now) }
    {
        for k in 1..pages.len() {
            match self.layer_with(pages[k]) {
                Some((layer, at)) if layer == i && at as usize == place as usize + k => {}
                _ => return k,
            }
        }
        pages.len()
    }
}

// Zeros at the first of these bytes, so many.
fn clear(bytes: &mut [u8], count: usize)
    requires { count ≤ length bytes.old }
    ensures { bytes.new ≡ replicate count 0 ++ drop count bytes.old }
{
    bytes[..count].fill(0);
}
