//! Layers of one memory.
ghost use Rattle.std.specs.Prelude.{◌≡◌, ◌<◌, ◌≤◌, ◌++◌, [], ◌∷◌, List, length, drop, reverse, replicate, false, is_some, slice_index, IsTrue, OnOk, OnErr, IfOk};
ghost use Rattle.std.specs.List.{AllByRecursion};
ghost use Rattle.format_spec.specs.declared.limits.TheConstants.{PAGE_SIZE, MAX_LAYERS};
ghost use Rattle.disk_model.specs.OnlyReads.{OnlyReads};
ghost use Rattle.disk_model.specs.Causes.{Fails};
ghost use Rattle.page_file.specs.Files.{IsAsKnown};
ghost use Rattle.layer_stack.specs.Stacks.{ReadsAs, newest, numbers_of, sizes_of};
ghost use Rattle.layer_stack.specs.Found.{FindsLayer};

use byte_codec::NoMemory;
use disk_model::{Disk, DiskError};
use page_file::{PageBytes, PageFile};
use std::alloc::Global;
use std::marker::Model;

/// Layers of one memory, oldest first, each a page file. At most `MAX_LAYERS`.
#[derive(Debug, Drop)]
pub struct Stack {
    pub(crate) layers: Vec<PageFile>,
}

// Contracts see the list of page files.
impl Model for Stack {
    ghost use Rattle.std.specs.Prelude.{List, ◌≤◌, length};
    ghost use Rattle.format_spec.specs.declared.limits.TheConstants.{MAX_LAYERS};
    ghost use Rattle.page_file.specs.Files.{NumberedFile};

    ghost Value = { List NumberedFile };

    ghost view = { λ stack. stack.layers.items };

    ghost invariant = { λ stack. length stack.layers.items ≤ MAX_LAYERS };
}

impl Stack {
    /// No layers.
    pub fn empty(alloc: Global) -> Stack
        ensures { result ≡ [] }
    {
        Stack {
            layers: Vec::new(alloc),
        }
    }

    /// The same layers. NoMemory where memory runs out.
    pub fn copy(&self, alloc: Global) -> Result<Stack, NoMemory>
        ensures { IfOk result (λ stack. stack ≡ self.now) }
    {
        self.above(alloc, 0)
    }

    /// The layers from this one on, counted from the oldest as 0. NoMemory where memory runs out.
    pub fn above(&self, alloc: Global, from: u32) -> Result<Stack, NoMemory>
        requires { from ≤ length self.now }
        ensures { IfOk result (λ stack. stack ≡ drop from self.now) }
    {
        let upper = &self.layers[from as usize..];
        let mut layers = Vec::with_capacity(alloc, upper.len())?;
        for file in upper {
            layers.push(file.copy(alloc)?)?;
        }
        Ok(Stack { layers })
    }

    /// The page files, oldest first.
    pub fn files(&self) -> &[PageFile]
        ensures files { result.now ≡ self.now }
        ensures few { length self.now ≤ MAX_LAYERS }
    {
        &self.layers
    }

    /// How many layers there are.
    pub fn count(&self) -> u32
        ensures count { result ≡ length self.now }
        ensures few { result ≤ MAX_LAYERS }
    {
        self.layers.len() as u32
    }

    /// The number of the page file of this layer, counted from the oldest as 0.
    pub fn number(&self, i: u32) -> u64
        requires { i < length self.now }
        ensures { result ≡ slice_index (numbers_of self.now) i }
    {
        self.layers[i as usize].number()
    }

    /// How many pages this layer has, counted from the oldest as 0.
    pub fn size(&self, i: u32) -> u32
        requires { i < length self.now }
        ensures size { result ≡ slice_index (sizes_of self.now) i }
        ensures some { 1 ≤ result }
    {
        self.layers[i as usize].index().count()
    }

    /// The number of the newest layer that has this page of the memory, and the page's place in that file. `None` exactly where no layer has it.
    pub fn find(&self, page: u32) -> Option<(u64, u32)>
        ensures { result ≡ newest (reverse self.now) page }
    {
        let (i, place) = self.layer_with(page)?;
        Some((self.layers[i].number(), place))
    }

    /// Reads a page of the memory: the bytes that the newest layer with this page has, and true; or zeros and false, exactly where no layer has it.
    /// It asks the disk once, and only for a page that a layer has. The files are as when the layers were opened or finished.
    /// Fault where the disk failed, Memory where memory ran out; `into` then has any bytes.
    pub fn read<D: Disk>(
        &self,
        alloc: Global,
        disk: &mut D,
        page: u32,
        into: &mut PageBytes,
    ) -> Result<bool, DiskError>
        requires { IsTrue D.tells → AllByRecursion (IsAsKnown (D.view disk.old).state.files) self.now }

        ensures bytes { IsTrue D.tells → OnOk result (ReadsAs (D.view disk.old).state.files self.now page into.new) }
        ensures found { IfOk result (λ found. found ≡ is_some (newest (reverse self.now) page)) }
        ensures zeros { IfOk result (λ found. found ≡ false → into.new ≡ replicate PAGE_SIZE 0) }
        ensures reads_only { IsTrue D.tells → OnlyReads PAGE_SIZE (D.view disk.old) (D.view disk.new) }
        ensures cause { Fails D.Disk disk.old disk.new result }
    {
        match self.layer_with(page) {
            Some((i, place)) => {
                self.layers[i].read_page(alloc, disk, place, into)?;
                Ok(true)
            }
            None => {
                into.fill(0);
                Ok(false)
            }
        }
    }

    /// Puts a layer above all others, of which there are fewer than `MAX_LAYERS`. NoMemory where memory runs out; the layers are then as before.
    pub fn push(&mut self, file: PageFile) -> Result<(), NoMemory>
        requires { length self.old < MAX_LAYERS }
        ensures pushed { OnOk result (self.new ≡ self.old ++ file ∷ []) }
        ensures unchanged { OnErr result (self.new ≡ self.old) }
    {
        self.layers.push(file)?;
        Ok(())
    }

    // The index of the newest layer that has this page, and the page's place in it. `None` exactly where no layer has it.
    pub(crate) fn layer_with(&self, page: u32) -> Option<(usize, u32)>
        ensures { FindsLayer self.now page result }
    {
        for i in (0..self.layers.len()).rev() {
            if let Some(place) = self.layers[i].index().find(page) {
                return Some((i, place));
            }
        }
        None
    }
}
