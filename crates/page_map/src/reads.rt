//! Reading of maps.
ghost use Rattle.std.specs.Prelude.{◌≡◌, ℕ, ◌+◌, ◌*◌, ◌≤◌, List, length, take, drop, reverse, is_some, IsTrue, IsSome, OnOk, if◌then◌else◌};
ghost use Rattle.std.specs.List.{AllByRecursion};
ghost use Rattle.format_spec.specs.declared.limits.TheConstants.{PAGE_SIZE as page_size, MAX_MEMORY_PAGES};
ghost use Rattle.page_spec.specs.Layers.{Layer, page_from};
ghost use Rattle.disk_model.specs.Causes.{Fails};
ghost use Rattle.disk_model.specs.OnlyReads.{OnlyReads};
ghost use Rattle.page_file.specs.Files.{IsAsKnown};
ghost use Rattle.layer_stack.specs.Stacks.{AreLayers};
ghost use Rattle.page_map.specs.Maps.{owns_at, own_at};
ghost use Rattle.page_map.specs.Reads.{page_of, bytes_with, AreWhole};
ghost use Rattle.page_map.specs.Pieces.{pages_for_read};

use crate::own::OwnPages;
use crate::pieces::{pages_of_range, piece_of};
use disk_model::{Disk, DiskError};
use format_spec::PAGE_SIZE;
use layer_stack::Stack;
use page_delta::DeltaId;
use page_pool::PageBytes;
use std::alloc::Global;

// Reads bytes of a map from a place on: the pages of its own from memory, and the others from the disk.
pub(crate) fn read_range<D: Disk>(
    own: &OwnPages,
    alloc: Global,
    disk: &mut D,
    id: DeltaId,
    stack: &Stack,
    at: u64,
    into: &mut [u8],
) -> Result<(), DiskError>
    requires live { IsSome (owns_at own.now id) }
    requires whole { AreWhole (own_at own.now id) }
    requires few { at + length into.old ≤ MAX_MEMORY_PAGES * page_size }
    requires kept { IsTrue D.tells → AllByRecursion (IsAsKnown (D.view disk.old).state.files) stack.now }

    ensures bytes { IsTrue D.tells → OnOk result ((layers : List Layer) (count : ℕ) → AreLayers (D.view disk.old).state.files stack.now layers → at + length into.old ≤ count * page_size
        → into.new ≡ take (length into.old) (drop at (bytes_with layers (own_at own.now id) count))) }
    ensures reads_only { IsTrue D.tells → OnlyReads (page_size * length (pages_for_read own.now id at (length into.old))) (D.view disk.old) (D.view disk.new) }
    ensures cause { Fails D.Disk disk.old disk.new result }
{
    let pages = pages_of_range(at, into.len() as u64);
    for page in pages.0..pages.1 {
        let piece = piece_of(at, into.len(), page);
        let room = &mut into[piece.from..piece.to];
        read_piece(own, alloc, disk, id, stack, page, piece.start, room)?;
    }
    Ok(())
}

// Reads bytes of one page of a map, from a place in that page on.
fn read_piece<D: Disk>(
    own: &OwnPages,
    alloc: Global,
    disk: &mut D,
    id: DeltaId,
    stack: &Stack,
    page: u32,
    start: usize,
    into: &mut [u8],
) -> Result<(), DiskError>
    requires live { IsSome (owns_at own.now id) }
    requires within { start + length into.old ≤ page_size }
    requires kept { IsTrue D.tells → AllByRecursion (IsAsKnown (D.view disk.old).state.files) stack.now }

    ensures bytes { IsTrue D.tells → OnOk result ((layers : List Layer) → AreLayers (D.view disk.old).state.files stack.now layers
        → into.new ≡ take (length into.old) (drop start (page_of layers (own_at own.now id page) page))) }
    ensures reads_only { IsTrue D.tells → OnlyReads (if is_some (own_at own.now id page) then 0 else page_size) (D.view disk.old) (D.view disk.new) }
    ensures cause { Fails D.Disk disk.old disk.new result }
{
    match own.page(id, page) {
        Some(bytes) => {
            into.copy_from_slice(&bytes[start..start + into.len()]);
            Ok(())
        }
        None => read_layers(alloc, disk, stack, page, start, into),
    }
}

// Reads bytes of one page of the layers, from a place in that page on.
fn read_layers<D: Disk>(
    alloc: Global,
    disk: &mut D,
    stack: &Stack,
    page: u32,
    start: usize,
    into: &mut [u8],
) -> Result<(), DiskError>
    requires within { start + length into.old ≤ page_size }
    requires kept { IsTrue D.tells → AllByRecursion (IsAsKnown (D.view disk.old).state.files) stack.now }

    ensures bytes { IsTrue D.tells → OnOk result ((layers : List Layer) → AreLayers (D.view disk.old).state.files stack.now layers
        → into.new ≡ take (length into.old) (drop start (page_from (reverse layers) page))) }
    ensures reads_only { IsTrue D.tells → OnlyReads page_size (D.view disk.old) (D.view disk.new) }
    ensures cause { Fails D.Disk disk.old disk.new result }
{
    let mut buffer = [0; PAGE_SIZE];
    stack.read(alloc, disk, page, &mut buffer)?;
    into.copy_from_slice(&buffer[start..start + into.len()]);
    Ok(())
}

// Reads one page of a map.
pub(crate) fn read_page<D: Disk>(
    own: &OwnPages,
    alloc: Global,
    disk: &mut D,
    id: DeltaId,
    stack: &Stack,
    page: u32,
    into: &mut PageBytes,
) -> Result<(), DiskError>
    requires live { IsSome (owns_at own.now id) }
    requires kept { IsTrue D.tells → AllByRecursion (IsAsKnown (D.view disk.old).state.files) stack.now }

    ensures bytes { IsTrue D.tells → OnOk result ((layers : List Layer) → AreLayers (D.view disk.old).state.files stack.now layers → into.new ≡ page_of layers (own_at own.now id page) page) }
    ensures reads_only { IsTrue D.tells → OnlyReads (if is_some (own_at own.now id page) then 0 else page_size) (D.view disk.old) (D.view disk.new) }
    ensures cause { Fails D.Disk disk.old disk.new result }
{
    match own.page(id, page) {
        Some(bytes) => {
            *into = *bytes;
            Ok(())
        }
        None => {
            stack.read(alloc, disk, page, into)?;
            Ok(())
        }
    }
}
