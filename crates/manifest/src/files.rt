//! The file rows of a manifest's text.

ghost use Rattle.std.specs.Prelude.{◌≡◌, ◌<◌, ◌≤◌, ◌+◌, ◌%◌, ◌*◌, [], length, IfOk, Some};
ghost use Rattle.std.specs.List.{AllByRecursion};
ghost use Rattle.format_spec.specs.Fields.{each};
ghost use Rattle.format_spec.specs.declared.limits.TheConstants.{MAX_STATE_PAGES, PAGE_SIZE};
ghost use Rattle.state_spec.specs.ManifestText.{id_in, file_after};
ghost use Rattle.byte_codec.specs.Gives.{Gives};
ghost use Rattle.manifest.specs.Reading.{heap_row, stable_row, system_row};

use crate::fields::{
    read_heap_name, read_memory_size, read_stable_name, read_system_name, read_system_size,
};
use crate::rows::FileRow;
use byte_codec::{FieldError, Reader};
use hash_domain::read_hash;
use std::alloc::Global;
use sys_state::CanisterId;

/// The rows of so many files: both memories of each canister, and last the system text.
pub(crate) fn read_files(
    alloc: Global,
    reader: &mut Reader,
    version: u32,
    count: u32,
) -> Result<Vec<FileRow>, FieldError>
    requires { count % 2 ≡ 1 }
    ensures rows { Gives (λ files. (files.items, reader.new)) result (each (file_after version count) count [] reader.old) }
    ensures count { IfOk result (λ files. length files.items ≡ count) }
    ensures names { IfOk result (λ files. AllByRecursion (λ row. length row.name < 256) files.items) }
{
    let mut files = Vec::new(alloc);
    let mut last = None;
    let mut total = 0;
    for _ in 0..count / 2 {
        let (id, heap) = read_heap(alloc, reader, version, &last, total)?;
        total += heap.size;
        files.push(heap)?;
        let stable = read_stable(alloc, reader, version, &id, total)?;
        total += stable.size;
        files.push(stable)?;
        last = Some(id);
    }
    files.push(read_system(alloc, reader)?)?;
    Ok(files)
}

// The heap of an id above the last one, and that id. The memories before have this size together.
#[tactic(auto, unfolding(crate::specs::Reading::heap_row))]
fn read_heap(
    alloc: Global,
    reader: &mut Reader,
    version: u32,
    last: &Option<CanisterId>,
    total: u64,
) -> Result<(CanisterId, FileRow), FieldError>
    ensures row { Gives (λ x. (x.1, reader.new)) result (heap_row version last.now total reader.old) }
    ensures id { IfOk result (λ x. id_in x.1.name ≡ Some x.0) }
    ensures short { IfOk result (λ x. length x.1.name < 256) }
    ensures size { IfOk result (λ x. total + x.1.size ≤ MAX_STATE_PAGES * PAGE_SIZE) }
{
    let (id, name) = read_heap_name(alloc, reader, last)?;
    let size = read_memory_size(reader, version, total)?;
    let hash = read_hash(reader)?;
    Ok((id, FileRow { name, size, hash }))
}

// The stable memory of this id.
#[tactic(auto, unfolding(crate::specs::Reading::stable_row))]
fn read_stable(
    alloc: Global,
    reader: &mut Reader,
    version: u32,
    id: &CanisterId,
    total: u64,
) -> Result<FileRow, FieldError>
    ensures row { Gives (λ row. (row, reader.new)) result (stable_row version id.now total reader.old) }
    ensures id { IfOk result (λ row. id_in row.name ≡ Some id.now) }
    ensures short { IfOk result (λ row. length row.name < 256) }
    ensures size { IfOk result (λ row. total + row.size ≤ MAX_STATE_PAGES * PAGE_SIZE) }
{
    let name = read_stable_name(alloc, reader, id)?;
    let size = read_memory_size(reader, version, total)?;
    let hash = read_hash(reader)?;
    Ok(FileRow { name, size, hash })
}

// The system text.
#[tactic(auto, unfolding(crate::specs::Reading::system_row))]
fn read_system(alloc: Global, reader: &mut Reader) -> Result<FileRow, FieldError>
    ensures row { Gives (λ row. (row, reader.new)) result (system_row reader.old) }
    ensures short { IfOk result (λ row. length row.name < 256) }
{
    let name = read_system_name(alloc, reader)?;
    let size = read_system_size(reader)?;
    let hash = read_hash(reader)?;
    Ok(FileRow { name, size, hash })
}
