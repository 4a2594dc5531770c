ghost use Rattle.std.specs.Prelude.{◌≡◌, ◌+◌, ◌<◌, ◌≤◌, length, IfOk};
ghost use Rattle.std.specs.List.{AllByRecursion};
ghost use Rattle.page_spec.specs.PageFile.{IsIndex};
ghost use Rattle.disk_model.specs.Mem.{mem_view};
ghost use Rattle.page_file.specs.Files.{IsAsKnown};
ghost use Rattle.layer_stack.specs.Stacks.{EndBy};
ghost use Rattle.page_map.specs.Reads.{IsLive};

use super::*;
use disk_model::{Disk, DiskError, MemDisk, Name};
use layer_stack::Stack;
use page_file::{FileIndex, PageError, PageFile, PageWriter};
use std::alloc::Global;
use std::test::Fail;

// Writes a page file with two pages of a memory of 10, each full of one byte, in five calls.
fn write_layer(
    alloc: Global,
    disk: &mut MemDisk,
    number: u64,
    pages: [u32; 2],
    bytes: [u8; 2],
) -> Result<(), PageError>
    requires { IsIndex (record { memory = 10; numbers = pages }) }
{
    if disk.size(alloc, Name::Page(number))?.is_some() {
        return Err(PageError::BadPage(number));
    }
    let index = FileIndex::build(alloc, &pages, 10)?;
    let mut writer = PageWriter::begin(alloc, disk, number, index)?;
    writer.add(alloc, disk, &[bytes[0]; 4096])?;
    writer.add(alloc, disk, &[bytes[1]; 4096])?;
    writer.finish(alloc, disk)?;
    Ok(())
}

// Opens a page file of a memory of at most 10 pages, in three calls.
fn open_layer(alloc: Global, disk: &mut MemDisk, number: u64) -> Result<PageFile, PageError>
    ensures kept { IfOk result (λ file. IsAsKnown (mem_view disk.new).state.files file) }
    ensures ends { IfOk result (λ file. AllByRecursion (λ page. page < 40) file.index.numbers) }
    ensures state { (mem_view disk.new).state ≡ (mem_view disk.old).state }
{
    let file = PageFile::open(alloc, disk, number)?;
    if file.index().memory() > 10 {
        return Err(PageError::BadPage(number));
    }
    Ok(file)
}

// Opens two layers that were written, in six calls.
fn opened_layers(alloc: Global, disk: &mut MemDisk) -> Result<Stack, PageError>
    ensures kept { IfOk result (λ stack. AllByRecursion (IsAsKnown (mem_view disk.new).state.files) stack) }
    ensures ends { IfOk result (λ stack. EndBy 40 stack) }
{
    let older = open_layer(alloc, disk, 5)?;
    let newer = open_layer(alloc, disk, 8)?;
    let mut stack = Stack::empty(alloc);
    stack.push(older)?;
    stack.push(newer)?;
    Ok(stack)
}

// A map of 40 pages over two layers, in 16 calls: of pages 1 and 2, then 2 and 7.
fn map_of_40(alloc: Global, disk: &mut MemDisk) -> Result<(Pages, PageMap), Fail>
    ensures live { IfOk result (λ made. IsLive made.0 made.1) }
    ensures size { IfOk result (λ made. made.1.length ≡ 40) }
    ensures kept { IfOk result (λ made. AllByRecursion (IsAsKnown (mem_view disk.new).state.files) made.1.stack) }
{
    write_layer(alloc, disk, 5, [1, 2], [51, 52])?;
    write_layer(alloc, disk, 8, [2, 7], [82, 87])?;
    let stack = opened_layers(alloc, disk)?;
    let mut pages = Pages::new(alloc, 1)?;
    let map = pages.over(alloc, stack, 40)?;
    Ok((pages, map))
}

// Writes bytes into a map of 40 pages.
fn write_bytes(
    alloc: Global,
    pages: &mut Pages,
    map: &mut PageMap,
    disk: &mut MemDisk,
    at: u64,
    bytes: &[u8],
    stamp: u64,
) -> Result<(), DiskError>
    requires live { IsLive pages.old map.old }
    requires size { map.old.length ≡ 40 }
    requires kept { AllByRecursion (IsAsKnown (mem_view disk.old).state.files) map.old.stack }
    requires within { at + length bytes.now ≤ 163840 }
    ensures live { IsLive pages.new map.new }
    ensures size { map.new.length ≡ 40 }
    ensures kept { AllByRecursion (IsAsKnown (mem_view disk.new).state.files) map.new.stack }
{
    pages.write(alloc, map, disk, at, bytes, stamp)
}

// Four bytes of a map of 40 pages.
fn four_bytes(
    alloc: Global,
    pages: &mut Pages,
    map: &PageMap,
    disk: &mut MemDisk,
    at: u64,
) -> Result<[u8; 4], DiskError>
    requires live { IsLive pages.old map.now }
    requires size { map.now.length ≡ 40 }
    requires kept { AllByRecursion (IsAsKnown (mem_view disk.old).state.files) map.now.stack }
    requires within { at ≤ 163836 }
    ensures live { IsLive pages.new map.now }
    ensures kept { AllByRecursion (IsAsKnown (mem_view disk.new).state.files) map.now.stack }
{
    let mut bytes = [1; 4];
    pages.read(alloc, map, disk, at, &mut bytes)?;
    Ok(bytes)
}

#[test]
fn a_write_reads_the_pages_that_it_fills_in_part(rt: HostRuntime) -> Result<(), Fail> {
    let alloc = rt.alloc();
    let mut disk = MemDisk::new(alloc, Vec::new(alloc), None);
    let (mut pages, mut map) = map_of_40(alloc, &mut disk)?;
    let before = disk.bytes_read();
    write_bytes(alloc, &mut pages, &mut map, &mut disk, 8100, &[9; 200], 7)?;
    assert_eq!(rt; disk.bytes_read().saturating_sub(before), 8192);
    assert_eq!(rt;
        four_bytes(alloc, &mut pages, &map, &mut disk, 8098)?,
        [51, 51, 9, 9]
    );
    assert_eq!(rt;
        four_bytes(alloc, &mut pages, &map, &mut disk, 8298)?,
        [9, 9, 82, 82]
    );
    assert_eq!(rt; disk.bytes_read().saturating_sub(before), 8192);
    Ok(())
}

#[test]
fn a_write_that_fails_half_way_leaves_all_reads(rt: HostRuntime) -> Result<(), Fail> {
    let alloc = rt.alloc();
    let mut disk = MemDisk::new(alloc, Vec::from_slice(alloc, &[17])?, None);
    let (mut pages, mut map) = map_of_40(alloc, &mut disk)?;
    let failed = write_bytes(alloc, &mut pages, &mut map, &mut disk, 8100, &[9; 200], 7);
    assert_eq!(rt; failed, Err(DiskError::Fault));
    assert_eq!(rt;
        four_bytes(alloc, &mut pages, &map, &mut disk, 8190)?,
        [51, 51, 82, 82]
    );
    Ok(())
}

#[test]
fn a_map_goes_over_to_layers_that_have_its_older_pages(rt: HostRuntime) -> Result<(), Fail> {
    let alloc = rt.alloc();
    let mut disk = MemDisk::new(alloc, Vec::new(alloc), None);
    let (mut pages, mut map) = map_of_40(alloc, &mut disk)?;
    // A byte of page 1 as the layers have it, and then one of page 4.
    write_bytes(alloc, &mut pages, &mut map, &mut disk, 4096, &[51], 5)?;
    write_bytes(alloc, &mut pages, &mut map, &mut disk, 16_384, &[7], 9)?;
    let layers = opened_layers(alloc, &mut disk)?;
    pages.rebase(alloc, &mut map, 5, layers)?;
    assert_eq!(rt; pages.dirty(alloc, &map, 0)?.as_slice(), [4].as_slice());
    assert_eq!(rt; pages.stack(&map).count(), 2);
    assert_eq!(rt;
        four_bytes(alloc, &mut pages, &map, &mut disk, 16_382)?,
        [0, 0, 7, 0]
    );
    Ok(())
}

#[test]
fn a_fork_stays_as_it_was(rt: HostRuntime) -> Result<(), Fail> {
    let alloc = rt.alloc();
    let mut disk = MemDisk::new(alloc, Vec::new(alloc), None);
    let mut pages = Pages::new(alloc, 1)?;
    let mut map = pages.empty(alloc)?;
    pages.grow(&mut map, 2);
    pages.write(alloc, &mut map, &mut disk, 4095, &[7, 8], 1)?;
    let fork = pages.fork(alloc, &map)?;
    pages.write(alloc, &mut map, &mut disk, 4095, &[9, 9], 2)?;
    let mut now = [1; 4];
    pages.read(alloc, &fork, &mut disk, 4094, &mut now)?;
    assert_eq!(rt; now, [0, 7, 8, 0]);
    Ok(())
}

#[test]
fn a_map_that_is_given_up_leaves_its_fork(rt: HostRuntime) -> Result<(), Fail> {
    let alloc = rt.alloc();
    let mut disk = MemDisk::new(alloc, Vec::new(alloc), None);
    let mut pages = Pages::new(alloc, 1)?;
    let mut map = pages.empty(alloc)?;
    pages.grow(&mut map, 1);
    pages.write(alloc, &mut map, &mut disk, 4092, &[7, 8], 1)?;
    pages.restack(&mut map, Stack::empty(alloc));
    let fork = pages.fork(alloc, &map)?;
    pages.give_up(map);
    assert_eq!(rt; pages.length(&fork), 1);
    let mut now = [1; 4];
    pages.read(alloc, &fork, &mut disk, 4092, &mut now)?;
    assert_eq!(rt; now, [7, 8, 0, 0]);
    Ok(())
}
