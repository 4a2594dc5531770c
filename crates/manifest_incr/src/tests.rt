ghost use Rattle.std.specs.Prelude.{◌≡◌, [], ◌*◌, ◌<◌, ◌≤◌, false, length, IsTrue, IfOk};
ghost use Rattle.std.specs.List.{AllByRecursion};
ghost use Rattle.std.specs.Ordering.{nat_cmp};
ghost use Rattle.format_spec.specs.Bytes.{ascending};
ghost use Rattle.page_map.specs.Reads.{IsLive};

use super::*;
use disk_model::{DiskError, MemDisk};
use hash_domain::{Hash32, sum_of};
use page_map::{PageMap, Pages};
use std::alloc::Global;
use std::test::Fail;

#[test]
fn stale_chunks_are_dirty_partial_or_new(rt: HostRuntime) -> Result<(), Fail> {
    let alloc = rt.alloc();
    assert_eq!(rt; stale(alloc, &[], 0, 1)?.as_slice(), [0].as_slice());
    assert_eq!(rt; stale(alloc, &[], 300, 301)?.as_slice(), [1].as_slice());
    assert_eq!(rt; stale(alloc, &[5], 256, 257)?.as_slice(), [0, 1].as_slice());
    assert_eq!(rt; stale(alloc, &[300], 600, 600)?.as_slice(), [1].as_slice());
    assert!(rt; stale(alloc, &[], 512, 512)?.is_empty());
    Ok(())
}

// A map of three pages of its own, the second of which has one byte that isn't zero.
fn map_of_3(alloc: Global, disk: &mut MemDisk) -> Result<(Pages, PageMap), Fail>
    ensures live { IfOk result (λ made. IsLive made.0 made.1) }
    ensures size { IfOk result (λ made. made.1.length ≡ 3) }
    ensures stack { IfOk result (λ made. made.1.stack ≡ []) }
{
    let mut pages = Pages::new(alloc, 1)?;
    let mut map = pages.empty(alloc)?;
    pages.grow(&mut map, 3);
    pages.write(alloc, &mut map, disk, 4097, &[7], 1)?;
    Ok((pages, map))
}

// The sums of a map of three pages by a version.
fn sums_of_3(
    alloc: Global,
    pages: &mut Pages,
    map: &PageMap,
    disk: &mut MemDisk,
    version: u32,
) -> Result<ChunkTable, DiskError>
    requires live { IsLive pages.old map.now }
    requires size { map.now.length ≡ 3 }
    requires stack { map.now.stack ≡ [] }
    ensures live { IsLive pages.new map.now }
{
    ChunkTable::empty(alloc).refresh(alloc, &[0], pages, map, disk, version)
}

#[test]
fn a_stale_chunk_is_read_and_hashed(rt: HostRuntime) -> Result<(), Fail> {
    let alloc = rt.alloc();
    let mut disk = MemDisk::new(alloc, Vec::new(alloc), None);
    let (mut pages, map) = map_of_3(alloc, &mut disk)?;
    let mut bytes = [0; 12_288];
    bytes[4097] = 7;
    let table = sums_of_3(alloc, &mut pages, &map, &mut disk, 2)?;
    assert_eq!(rt; table.sums(), [sum_of(1, &bytes)].as_slice());
    Ok(())
}
