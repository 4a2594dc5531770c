//! The pages that some of several layers have.
ghost use Rattle.std.specs.Prelude.{◌≡◌, ◌<◌, ◌≤◌, ◌^◌, ◌||◌, ℕ, false, length, slice_index_or, filter, IfOk};
ghost use Rattle.std.specs.List.{AllByRecursion, range_with_len};
ghost use Rattle.format_spec.specs.declared.limits.TheConstants.{MAX_MEMORY_PAGES};
ghost use Rattle.page_spec.specs.Layers.{has_page};
ghost use Rattle.layer_stack.specs.Stacks.{EndBy};

use byte_codec::NoMemory;
use page_file::PageFile;
use std::alloc::Global;

// The pages of the largest memory that a layer is of.
pub(crate) fn memory_of(layers: &[PageFile]) -> u32
    ensures ends { EndBy result layers.now }
    ensures few { result ≤ MAX_MEMORY_PAGES }
{
    let mut memory = 0;
    for file in layers {
        memory = file.index().memory().max(memory);
    }
    memory
}

// Marks these pages.
pub(crate) fn mark_pages(marks: &mut [bool], pages: &[u32])
    requires { AllByRecursion (λ page. page < length marks.old) pages.now }
    ensures { (page : ℕ) → slice_index_or marks.new page false ≡ (slice_index_or marks.old page false || has_page page pages.now) }
{
    for page in pages {
        marks[*page as usize] = true;
    }
}

// The pages that are marked, ascending.
pub(crate) fn marked_pages(alloc: Global, marks: &[bool]) -> Result<Vec<u32>, NoMemory>
    requires { length marks.now ≤ 2 ^ 32 }
    ensures { IfOk result (λ pages. pages.items ≡ filter (λ page. slice_index_or marks.now page false) (range_with_len 0 (length marks.now))) }
{
    let mut pages = Vec::new(alloc);
    for page in 0..marks.len() {
        if marks[page] {
            pages.push(page as u32)?;
        }
    }
    Ok(pages)
}
