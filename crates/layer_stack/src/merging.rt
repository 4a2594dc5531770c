//! What a merge needs of layers: which of them it takes, their pages, and the exchange.
ghost use Rattle.std.specs.Prelude.{◌≡◌, ◌+◌, ◌<◌, ◌≤◌, ℕ, length, drop, OnOk, OnErr, IfOk};
ghost use Rattle.format_spec.specs.declared.limits.TheConstants.{MAX_LAYERS};
ghost use Rattle.page_spec.specs.Layers.{plan as merge_plan, union};
ghost use Rattle.layer_stack.specs.Stacks.{EndBy, list_with, pages_in};

use crate::Stack;
use crate::union::{mark_pages, marked_pages, memory_of};
use byte_codec::NoMemory;
use page_file::PageFile;
use std::alloc::Global;

/// From which layer on a merge takes them, counted from the oldest as 0: the first that has less than twice the pages of all after it.
/// `None` exactly where there is none. At most `MAX_LAYERS` sizes.
pub fn plan(sizes: &[u32]) -> Option<u32>
    requires { length sizes.now ≤ MAX_LAYERS }
    ensures { result ≡ merge_plan sizes.now }
{
    let mut from = None;
    let mut later: u64 = 0;
    for i in (0..sizes.len()).rev() {
        let size = u64::from(sizes[i]);
        if size < 2 * later {
            from = Some(i as u32);
        }
        later += size;
    }
    from
}

impl Stack {
    /// Puts a page file in the place of so many layers from this one on, counted from the oldest as 0. NoMemory where memory runs out; the layers
    /// are then as before.
    pub fn replace(
        &mut self,
        _alloc: Global,
        from: u32,
        count: u32,
        file: PageFile,
    ) -> Result<(), NoMemory>
        requires some { 0 < count }
        requires within { from + count ≤ length self.old }
        ensures replaced { OnOk result (self.new ≡ list_with from count file self.old) }
        ensures unchanged { OnErr result (self.new ≡ self.old) }
    {
        put_in_place(&mut self.layers, from as usize, count as usize, file);
        Ok(())
    }

    /// The pages that some layer has, of the layers from this one on, ascending. NoMemory where memory runs out.
    pub fn pages_of(&self, alloc: Global, from: u32) -> Result<Vec<u32>, NoMemory>
        requires { from ≤ length self.now }
        ensures { IfOk result (λ pages. (memory : ℕ) → EndBy memory (drop from self.now) → pages.items ≡ union memory (pages_in (drop from self.now))) }
    {
        let layers = &self.layers[from as usize..];
        let memory = memory_of(layers) as usize;
        let mut marks = vec![in alloc; false; memory]?;
        for file in layers {
            let pages = file.index().pages(alloc)?;
            mark_pages(&mut marks, &pages);
        }
        marked_pages(alloc, &marks)
    }
}

// Puts a page file in the place of so many layers from this one on.
fn put_in_place(layers: &mut Vec<PageFile>, from: usize, count: usize, file: PageFile)
    requires some { 0 < count }
    requires within { from + count ≤ length layers.old.items }
    ensures { layers.new.items ≡ list_with from count file layers.old.items }
{
    for _i in 0..count - 1 {
        let _ = layers.remove(from);
    }
    layers[from] = file;
}
