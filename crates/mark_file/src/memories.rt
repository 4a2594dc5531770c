//! The memories of a mark.

ghost use Rattle.std.specs.Prelude.{◌≡◌, [], length};
ghost use Rattle.format_spec.specs.Fields.{each, field, block, any};
ghost use Rattle.mark_file.specs.Reading.{layer_after, sum_after, memory_of, memory_after};
ghost use Rattle.byte_codec.specs.Gives.{Gives};

use crate::fields::{read_layer, read_layer_count, read_sum};
use crate::mark::MarkMem;
use byte_codec::{FieldError, Reader};
use format_spec::CHUNK_PAGES;
use hash_domain::Hash32;
use std::alloc::Global;

/// What a mark of this version says of memories of so many pages.
pub(crate) fn read_mems(
    alloc: Global,
    reader: &mut Reader,
    pages: &[u32],
    version: u32,
) -> Result<Vec<MarkMem>, FieldError>
    ensures { Gives (λ mems. (mems.items, reader.new)) result (each (memory_after version pages.now) (length pages.now) [] reader.old) }
{
    let mut mems = Vec::new(alloc);
    for count in pages {
        mems.push(read_mem(alloc, reader, *count, version)?)?;
    }
    Ok(mems)
}

// What it says of a memory of so many pages.
#[tactic(auto, unfolding(crate::specs::Reading::memory_of))]
fn read_mem(
    alloc: Global,
    reader: &mut Reader,
    pages: u32,
    version: u32,
) -> Result<MarkMem, FieldError>
    ensures { Gives (λ mem. (mem, reader.new)) result (memory_of version pages reader.old) }
{
    let count = read_layer_count(reader, pages)?;
    let layers = read_layers(alloc, reader, count)?;
    let sums = read_sums(alloc, reader, pages.div_ceil(CHUNK_PAGES as u32), version)?;
    Ok(MarkMem { layers, sums })
}

fn read_layers(alloc: Global, reader: &mut Reader, count: u32) -> Result<Vec<u64>, FieldError>
    ensures { Gives (λ layers. (layers.items, reader.new)) result (each layer_after count [] reader.old) }
{
    let mut layers = Vec::new(alloc);
    for _ in 0..count {
        layers.push(read_layer(reader, &layers)?)?;
    }
    Ok(layers)
}

fn read_sums(
    alloc: Global,
    reader: &mut Reader,
    count: u32,
    version: u32,
) -> Result<Vec<Option<Hash32>>, FieldError>
    ensures { Gives (λ sums. (sums.items, reader.new)) result (each (sum_after version) count [] reader.old) }
{
    let mut sums = Vec::new(alloc);
    for _ in 0..count {
        sums.push(read_sum(reader, version)?)?;
    }
    Ok(sums)
}
