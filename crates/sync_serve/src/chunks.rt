//! Chunks of a published height.

ghost use Rattle.std.specs.Prelude.{◌≡◌, ◌≤◌, ◌*◌, IsTrue, IfOk, length};
ghost use Rattle.format_spec.specs.declared.limits.TheConstants.{CHUNK_SIZE as chunk_size};
ghost use Rattle.format_spec.specs.Bytes.{part_count};
ghost use Rattle.store_spec.specs.Image.{Published};
ghost use Rattle.disk_model.specs.Causes.{Fails};
ghost use Rattle.disk_model.specs.OnlyReads.{OnlyReads};
ghost use Rattle.height_store.specs.Kept.{HasStacks, ShowsHeight};
ghost use Rattle.sync_spec.specs.Messages.{chunk};
ghost use Rattle.sync_spec.specs.Serving.{content_of as content_in};
ghost use Rattle.sync_plan.specs.Views.{content_of as content_seen};
ghost use Rattle.sync_serve.specs.Places.{IsPlace};

use crate::items::{content_with, part_at};
use disk_model::{Disk, DiskError};
use format_spec::{CHUNK_PAGES, CHUNK_SIZE, PAGE_SIZE};
use height_store::PublishedHeight;
use std::alloc::Global;
use sync_plan::Content;
use sys_state::memory_pages;

/// A chunk of a memory, read from the disk, or of the system text; or that there is none of this number. Each chunk of a
/// published height has a row, since its version is 1.
pub(crate) fn chunk_of<D: Disk>(
    alloc: Global,
    found: &PublishedHeight,
    disk: &mut D,
    index: u32,
) -> Result<Content, DiskError>
    requires { IsTrue D.tells → HasStacks (D.view disk.old).state.files found.now }
    ensures content { IsTrue D.tells → (p : Published) → ShowsHeight (D.view disk.old).state.files found.now p → IfOk result (λ content. content_seen content ≡ content_in p.state (chunk index)) }
    ensures reads_only { IsTrue D.tells → OnlyReads chunk_size (D.view disk.old) (D.view disk.new) }
    ensures cause { Fails D.Disk disk.old disk.new result }
{
    let pages = memory_pages(alloc, found.sys())?;
    let place = place_of(&pages, index);
    if place.file as usize == pages.len() {
        let system = found.mark().system.bytes();
        return Ok(content_with(alloc, part_at(system, CHUNK_SIZE as u32, place.chunk))?);
    }
    let size = u64::from(pages[place.file as usize]) * PAGE_SIZE as u64;
    let offset = u64::from(place.chunk) * CHUNK_SIZE as u64;
    let len = (size - offset).min(CHUNK_SIZE as u64);
    let bytes = found.read_bytes(alloc, disk, place.file, offset, len)?;
    Ok(Content::Here(bytes))
}

// The file that a chunk is in, by its number in the order of files, and the chunk's number there.
#[derive(Clone, Copy)]
struct Place {
    file: u32,
    chunk: u32,
}

// Where the chunk of this number is, in memories of so many pages, or behind them in the system text.
fn place_of(pages: &[u32], index: u32) -> Place
    requires { length pages.now ≤ 2048 }
    ensures { IsPlace pages.now index result }
{
    let mut left = index;
    for file in 0..pages.len() {
        let chunks = chunk_count(pages[file]);
        if left < chunks {
            return Place {
                file: file as u32,
                chunk: left,
            };
        }
        left -= chunks;
    }
    Place {
        file: pages.len() as u32,
        chunk: left,
    }
}

// How many chunks so many pages have.
fn chunk_count(pages: u32) -> u32
    ensures { result ≡ part_count CHUNK_SIZE (pages * PAGE_SIZE) }
{
    pages.div_ceil(CHUNK_PAGES as u32)
}
