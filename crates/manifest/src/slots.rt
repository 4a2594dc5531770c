//! Where the chunks of files stand, which the sizes give.

ghost use Rattle.std.specs.Prelude.{◌≡◌, ◌<◌, ◌+◌, ◌++◌, ◌^◌, ℕ, length, IfOk, OnOk};
ghost use Rattle.state_spec.specs.ManifestText.{slots, slots_of as slots_of_file};

use crate::rows::FileRow;
use byte_codec::NoMemory;
use format_spec::CHUNK_SIZE;
use std::alloc::Global;
use std::marker::Model;

/// The file, size and offset of a chunk.
#[derive(Drop)]
pub(crate) struct Slot {
    pub(crate) file: u32,
    pub(crate) size: u32,
    pub(crate) offset: u64,
}

// Contracts see the record of its fields.
impl Model for Slot {
    ghost use Rattle.state_spec.specs.ManifestText.{Slot as Place};

    ghost Value = { Place };

    ghost view = { λ slot. record { file = slot.file; size = slot.size; offset = slot.offset } };
}

/// The slots of all chunks of these files, of which the first has this number.
pub(crate) fn slots_of(alloc: Global, first: u32, files: &[FileRow]) -> Result<Vec<Slot>, NoMemory>
    requires { first + length files.now < 2 ^ 32 }
    ensures { IfOk result (λ found. found.items ≡ slots first files.now) }
{
    let mut found = Vec::new(alloc);
    for (number, row) in files.iter().enumerate() {
        add_slots(&mut found, first + number as u32, row.size)?;
    }
    Ok(found)
}

// Adds the slots of a file of this number and size.
fn add_slots(found: &mut Vec<Slot>, file: u32, size: u64) -> Result<(), NoMemory>
    ensures { OnOk result (found.new.items ≡ found.old.items ++ slots_of_file file size) }
{
    for i in 0..size.div_ceil(CHUNK_SIZE as u64) {
        let offset = i * CHUNK_SIZE as u64;
        found.push(Slot {
            file,
            size: (size - offset).min(CHUNK_SIZE as u64) as u32,
            offset,
        })?;
    }
    Ok(())
}
