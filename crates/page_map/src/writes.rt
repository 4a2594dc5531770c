//! Writing of maps.
ghost use Rattle.std.specs.Prelude.{◌≡◌, ℕ, ◌+◌, ◌-◌, ◌*◌, ◌<◌, ◌≤◌, ◌^◌, ◌&&◌, nat_lt, List, length, Some, None, IsTrue, IsSome, OnOk, OnErr, IfOk, if◌then◌else◌};
ghost use Rattle.std.specs.List.{AllByRecursion};
ghost use Rattle.format_spec.specs.declared.limits.TheConstants.{PAGE_SIZE as page_size, MAX_MEMORY_PAGES};
ghost use Rattle.state_spec.specs.Memory.{with_bytes_at};
ghost use Rattle.format_spec.specs.Bytes.{Bytes};
ghost use Rattle.page_spec.specs.Layers.{Layer};
ghost use Rattle.disk_model.specs.Causes.{Fails};
ghost use Rattle.disk_model.specs.OnlyReads.{OnlyReads};
ghost use Rattle.page_file.specs.Files.{IsAsKnown};
ghost use Rattle.layer_stack.specs.Stacks.{AreLayers};
ghost use Rattle.page_map.specs.Maps.{OwnPage, owns_at, own_at};
ghost use Rattle.page_map.specs.Reads.{page_of, bytes_with, AreWhole};
ghost use Rattle.page_map.specs.Changes.{SameMaps, ChangesOnly, KeepsOthers, Puts, Writes};
ghost use Rattle.page_map.specs.Pieces.{AreTheirPages, is_foreign, pages_for_write};

use crate::own::OwnPages;
use crate::pieces::piece_of;
use crate::reads::read_page;
use disk_model::{Disk, DiskError};
use format_spec::PAGE_SIZE;
use layer_stack::Stack;
use page_delta::DeltaId;
use std::alloc::Global;

// Writes bytes of a map from a place on, which are in these pages, the first of them and the one behind the last, and answers the id that has
// them. What is written stands in a fork until all is: so after an error every map is as before.
pub(crate) fn write_fork<D: Disk>(
    own: &mut OwnPages,
    alloc: Global,
    disk: &mut D,
    id: DeltaId,
    stack: &Stack,
    pages: (u32, u32),
    at: u64,
    bytes: &[u8],
    stamp: u64,
) -> Result<DeltaId, DiskError>
    requires live { IsSome (owns_at own.old id) }
    requires whole { AreWhole (own_at own.old id) }
    requires pages { AreTheirPages at (length bytes.now) pages.0 pages.1 }
    requires few { at + length bytes.now ≤ MAX_MEMORY_PAGES * page_size }
    requires kept { IsTrue D.tells → AllByRecursion (IsAsKnown (D.view disk.old).state.files) stack.now }

    ensures fresh { IfOk result (λ fork. owns_at own.old fork ≡ None) }
    ensures live { IfOk result (λ fork. IsSome (owns_at own.new fork)) }
    ensures written { IfOk result (λ fork. Writes (own_at own.old id) (own_at own.new fork) stamp pages.0 pages.1) }
    ensures bytes { IsTrue D.tells → IfOk result (λ fork. (layers : List Layer) (count : ℕ) → AreLayers (D.view disk.old).state.files stack.now layers
        → at + length bytes.now ≤ count * page_size → bytes_with layers (own_at own.new fork) count ≡ with_bytes_at (bytes_with layers (own_at own.old id) count) at bytes.now) }
    ensures others { KeepsOthers own.old own.new id }
    ensures unchanged { OnErr result (SameMaps own.old own.new) }
    ensures reads_only { IsTrue D.tells → OnlyReads (page_size * length (pages_for_write own.old id at (length bytes.now))) (D.view disk.old) (D.view disk.new) }
    ensures cause { Fails D.Disk disk.old disk.new result }
{
    let fork = own.fork(alloc, id)?;
    match write_pages(own, alloc, disk, fork, stack, pages, at, bytes, stamp) {
        Ok(()) => {
            own.give_up(id);
            Ok(fork)
        }
        Err(error) => {
            own.give_up(fork);
            Err(error)
        }
    }
}

// Writes bytes of a map from a place on, which are in these pages, the first of them and the one behind the last. After an error some of
// them may be written.
pub(crate) fn write_pages<D: Disk>(
    own: &mut OwnPages,
    alloc: Global,
    disk: &mut D,
    id: DeltaId,
    stack: &Stack,
    pages: (u32, u32),
    at: u64,
    bytes: &[u8],
    stamp: u64,
) -> Result<(), DiskError>
    requires live { IsSome (owns_at own.old id) }
    requires whole { AreWhole (own_at own.old id) }
    requires pages { AreTheirPages at (length bytes.now) pages.0 pages.1 }
    requires few { at + length bytes.now ≤ MAX_MEMORY_PAGES * page_size }
    requires kept { IsTrue D.tells → AllByRecursion (IsAsKnown (D.view disk.old).state.files) stack.now }

    ensures written { OnOk result (Writes (own_at own.old id) (own_at own.new id) stamp pages.0 pages.1) }
    ensures bytes { IsTrue D.tells → OnOk result ((layers : List Layer) (count : ℕ) → AreLayers (D.view disk.old).state.files stack.now layers
        → at + length bytes.now ≤ count * page_size → bytes_with layers (own_at own.new id) count ≡ with_bytes_at (bytes_with layers (own_at own.old id) count) at bytes.now) }
    ensures live { IsSome (owns_at own.new id) }
    ensures others { ChangesOnly own.old own.new id }
    ensures reads_only { IsTrue D.tells → OnlyReads (page_size * length (pages_for_write own.old id at (length bytes.now))) (D.view disk.old) (D.view disk.new) }
    ensures cause { Fails D.Disk disk.old disk.new result }
{
    for page in pages.0..pages.1 {
        let piece = piece_of(at, bytes.len(), page);
        let part = &bytes[piece.from..piece.to];
        write_page(own, alloc, disk, id, stack, page, piece.start, part, stamp)?;
    }
    Ok(())
}

// Writes bytes of one page of a map, from a place in that page on. After an error nothing is written.
pub(crate) fn write_page<D: Disk>(
    own: &mut OwnPages,
    alloc: Global,
    disk: &mut D,
    id: DeltaId,
    stack: &Stack,
    page: u32,
    start: usize,
    bytes: &[u8],
    stamp: u64,
) -> Result<(), DiskError>
    requires live { IsSome (owns_at own.old id) }
    requires whole { AreWhole (own_at own.old id) }
    requires page { page < 2 ^ 20 }
    requires within { start + length bytes.now ≤ page_size }
    requires kept { IsTrue D.tells → AllByRecursion (IsAsKnown (D.view disk.old).state.files) stack.now }

    ensures put { OnOk result ((page_bytes : Bytes) × (length page_bytes ≡ page_size) × Puts own.old own.new id page (record { bytes = page_bytes; stamp = stamp })) }
    ensures bytes { IsTrue D.tells → OnOk result ((layers : List Layer) → AreLayers (D.view disk.old).state.files stack.now layers
        → page_of layers (own_at own.new id page) page ≡ with_bytes_at (page_of layers (own_at own.old id page) page) start bytes.now) }
    ensures err { OnErr result (own.new ≡ own.old) }
    ensures reads_only { IsTrue D.tells → OnlyReads (if nat_lt (length bytes.now) page_size && is_foreign own.old id page then page_size else 0) (D.view disk.old) (D.view disk.new) }
    ensures cause { Fails D.Disk disk.old disk.new result }
{
    if let Some(whole) = bytes.as_array::<4096>() {
        own.set(alloc, id, page, whole, stamp)?;
        return Ok(());
    }
    let mut buffer = [0; PAGE_SIZE];
    read_page(own, alloc, disk, id, stack, page, &mut buffer)?;
    buffer[start..start + bytes.len()].copy_from_slice(bytes);
    own.set(alloc, id, page, &buffer, stamp)?;
    Ok(())
}
