ghost use Rattle.std.specs.Prelude.{◌≤◌};

use super::*;
use disk_model::{Disk, MemDisk, Name};
use hash_domain::Hash32;
use hex::decode_to_slice;
use std::alloc::Global;
use std::process::Abort;
use std::test::Fail;

// The mark of a canister with one page, as height 1 with page file 0, and what that file begins with: values of a program in
// another language.
const MARK: &str =
    "49434d4b00000001000000000000000100000024494353590000000100000000000000000000000101000000000000010000000000000000000000010000000000000000beedb2d1fe14d2a1f2a55ea7b1430bc260ce57831e5309b336f370db1bbb1af2000000009d635b144968103bac92fba2f13725393b48f45b945a53c45e01239cfa5c120900d20df6c93dbc5257167f2f6dee380e2b050f12d93f87910c02adf4db8eb778e7686e6d73046e4cf7d578e5be8a52551efd278d38d4a6a703d1205f99163c0a";

const INDEX: &str =
    "494350460000000100000001000000010000000100000001000000000000102c000000000000000100000000";

// That mark as height 2, and the hashes of its page and of its system text as chunks: values of the same program.
const SECOND: &str =
    "49434d4b00000001000000000000000200000024494353590000000100000000000000000000000101000000000000010000000000000000000000010000000000000000beedb2d1fe14d2a1f2a55ea7b1430bc260ce57831e5309b336f370db1bbb1af2000000009d635b144968103bac92fba2f13725393b48f45b945a53c45e01239cfa5c120900d20df6c93dbc5257167f2f6dee380e2b050f12d93f87910c02adf4db8eb77881ec2e8cdbcc96c386efead79fa921fd886f87236e1b59a48a7f6de9cfb48a94";

// The mark of the same state in version 2: a value of the same program.
const IN_SECOND: &str =
    "49434d4b0000000200000000000000010000002449435359000000010000000000000000000000010100000000000001000000000000000000000001000000000000000001beedb2d1fe14d2a1f2a55ea7b1430bc260ce57831e5309b336f370db1bbb1af2000000009d635b144968103bac92fba2f13725393b48f45b945a53c45e01239cfa5c120907e11a7015b0664fd03f3429858a142d846d542125c5656a0217321a6704d2d9b37b2afeb3a92c8edb32cfc097b6e091d3575f5a76ed0517617611857666d6bb";

const PAGE_HASH: &str = "beedb2d1fe14d2a1f2a55ea7b1430bc260ce57831e5309b336f370db1bbb1af2";

const SYSTEM_HASH: &str = "9d635b144968103bac92fba2f13725393b48f45b945a53c45e01239cfa5c1209";

// A disk with that mark, cut by so many bytes, as this height, with that page file where it is asked for, and with files that no
// mark names.
fn disk_of(alloc: Global, height: u64, cut: usize, whole: bool) -> Result<MemDisk, Fail> {
    let mut disk = MemDisk::new(alloc, Vec::new(alloc), None);
    let mut mark = [0; 200];
    decode_to_slice(MARK, &mut mark)?;
    let mut text = [0; 4_140];
    decode_to_slice(INDEX, &mut text[..44])?;
    text[44] = 1;
    disk.create(alloc, Name::Mark(height))?;
    disk.append(
        alloc,
        Name::Mark(height),
        &mark[..200usize.saturating_sub(cut)],
    )?;
    disk.seal(alloc, Name::Mark(height))?;
    if whole {
        disk.create(alloc, Name::Page(0))?;
        disk.append(alloc, Name::Page(0), &text)?;
        disk.seal(alloc, Name::Page(0))?;
    }
    disk.create(alloc, Name::Page(1))?;
    disk.create(alloc, Name::Draft(1))?;
    disk.create(alloc, Name::Stage(7))?;
    Ok(disk)
}

#[test]
fn a_store_is_opened(rt: HostRuntime) -> Result<(), Fail> {
    let alloc = rt.alloc();
    let mut disk = disk_of(alloc, 1, 0, true)?;
    let store = HeightStore::open(alloc, &mut disk)?;
    assert_eq!(rt; disk.bytes_read(), 200 + 44);
    check_height(&rt, &store);
    assert!(rt; store.mark(2).is_none());
    assert!(rt; store.sys(2).is_none());
    assert!(rt; store.stack(1, 2).is_none());
    Ok(())
}

// Height 1 alone is there.
fn check_height(rt: &impl Abort, store: &HeightStore) {
    assert_eq!(rt; store.count(), 1);
    assert!(rt; store.mark(1).is_some_and(|mark| mark.height == 1));
    assert!(rt; store.sys(1).is_some_and(|sys| sys.canisters() == 1));
    assert!(rt; store.stack(1, 0).is_some_and(|stack| stack.count() == 1));
}

#[test]
fn numbers_are_given_once(rt: HostRuntime) -> Result<(), Fail> {
    let alloc = rt.alloc();
    let mut disk = disk_of(alloc, 1, 0, true)?;
    let mut store = HeightStore::open(alloc, &mut disk)?;
    assert_eq!(rt; store.next_number(), 1);
    assert_eq!(rt; store.next_number(), 2);
    Ok(())
}

#[test]
fn files_that_no_mark_names_are_removed(rt: HostRuntime) -> Result<(), Fail> {
    let alloc = rt.alloc();
    let mut disk = disk_of(alloc, 1, 0, true)?;
    HeightStore::open(alloc, &mut disk)?;
    for name in [Name::Page(1), Name::Draft(1), Name::Stage(7)] {
        assert_eq!(rt; disk.size(alloc, name)?, None);
    }
    Ok(())
}

// What a purge of this height is answered.
fn purged(alloc: Global, height: u64) -> Result<Option<StoreError>, Fail>
    requires from_one { 1 ≤ height }
{
    let mut disk = disk_of(alloc, 1, 0, true)?;
    let mut store = HeightStore::open(alloc, &mut disk)?;
    Ok(store.purge(alloc, height, &mut disk).err())
}

#[test]
fn the_last_height_stays(rt: HostRuntime) -> Result<(), Fail> {
    let alloc = rt.alloc();
    assert!(rt; purged(alloc, 1)? == Some(StoreError::LastHeight));
    assert!(rt; purged(alloc, 2)? == Some(StoreError::NoHeight));
    Ok(())
}

// What a store of this disk is refused with.
fn refusal_of(alloc: Global, disk: &mut MemDisk) -> Option<StoreError> {
    HeightStore::open(alloc, disk).err()
}

#[test]
fn a_disk_is_opened_as_it_is(rt: HostRuntime) -> Result<(), Fail> {
    let alloc = rt.alloc();
    let mut disk = disk_of(alloc, 1, 0, true)?;
    let store = HeightStore::open_read(alloc, &mut disk)?;
    assert_eq!(rt; store.count(), 1);
    assert_eq!(rt; disk.bytes_read(), 200 + 44);
    for name in [Name::Page(1), Name::Draft(1), Name::Stage(7)] {
        assert_eq!(rt; disk.size(alloc, name)?, Some(0));
    }
    let mut cut = disk_of(alloc, 1, 1, true)?;
    assert!(rt;
        HeightStore::open_read(alloc, &mut cut).is_err_and(|error| error == StoreError::BadMark(1))
    );
    let mut bare = disk_of(alloc, 1, 0, false)?;
    assert!(rt;
        HeightStore::open_read(alloc, &mut bare).is_err_and(|error| error == StoreError::BadPage(0))
    );
    Ok(())
}

#[test]
fn bad_files_are_named(rt: HostRuntime) -> Result<(), Fail> {
    let alloc = rt.alloc();
    let mut cut = disk_of(alloc, 1, 1, true)?;
    assert!(rt; refusal_of(alloc, &mut cut) == Some(StoreError::BadMark(1)));
    assert_eq!(rt; cut.size(alloc, Name::Draft(1))?, Some(0));
    let mut moved = disk_of(alloc, 3, 0, true)?;
    assert!(rt; refusal_of(alloc, &mut moved) == Some(StoreError::BadMark(3)));
    let mut bare = disk_of(alloc, 1, 0, false)?;
    assert!(rt; refusal_of(alloc, &mut bare) == Some(StoreError::BadPage(0)));
    let mut mark = [0; 201];
    decode_to_slice(IN_SECOND, &mut mark)?;
    let mut second = MemDisk::new(alloc, Vec::new(alloc), None);
    second.create(alloc, Name::Mark(1))?;
    second.append(alloc, Name::Mark(1), &mark)?;
    second.seal(alloc, Name::Mark(1))?;
    assert!(rt; refusal_of(alloc, &mut second) == Some(StoreError::BadMark(1)));
    Ok(())
}

#[test]
fn a_disk_that_fails_is_a_fault(rt: HostRuntime) -> Result<(), Fail> {
    let alloc = rt.alloc();
    let mut faulty = MemDisk::new(alloc, Vec::from_slice(alloc, &[3])?, None);
    assert!(rt; refusal_of(alloc, &mut faulty) == Some(StoreError::Fault));
    assert_eq!(rt; faulty.calls(), 4);
    Ok(())
}

// A disk with both marks, that page file, and files that no mark names.
fn disk_of_two(alloc: Global) -> Result<MemDisk, Fail> {
    let mut disk = MemDisk::new(alloc, Vec::new(alloc), None);
    let mut mark = [0; 200];
    decode_to_slice(MARK, &mut mark)?;
    let mut second = [0; 200];
    decode_to_slice(SECOND, &mut second)?;
    let mut text = [0; 4_140];
    decode_to_slice(INDEX, &mut text[..44])?;
    text[44] = 1;
    disk.create(alloc, Name::Mark(1))?;
    disk.append(alloc, Name::Mark(1), &mark)?;
    disk.seal(alloc, Name::Mark(1))?;
    disk.create(alloc, Name::Mark(2))?;
    disk.append(alloc, Name::Mark(2), &second)?;
    disk.seal(alloc, Name::Mark(2))?;
    disk.create(alloc, Name::Page(0))?;
    disk.append(alloc, Name::Page(0), &text)?;
    disk.seal(alloc, Name::Page(0))?;
    disk.create(alloc, Name::Page(1))?;
    disk.create(alloc, Name::Page(2))?;
    disk.create(alloc, Name::Draft(3))?;
    disk.create(alloc, Name::Stage(5))?;
    disk.create(alloc, Name::Stage(6))?;
    Ok(disk)
}

fn hash_of(text: &str) -> Result<Hash32, Fail> {
    let mut hash = [0; 32];
    decode_to_slice(text, &mut hash)?;
    Ok(Hash32(hash))
}

#[test]
fn the_first_height_with_a_chunk_is_found(rt: HostRuntime) -> Result<(), Fail> {
    let alloc = rt.alloc();
    let mut disk = disk_of_two(alloc)?;
    let mut store = HeightStore::open(alloc, &mut disk)?;
    let (page, system) = (hash_of(PAGE_HASH)?, hash_of(SYSTEM_HASH)?);
    assert!(rt; store.find_chunk(4_096, &page) == Some((1, 0, 0)));
    assert!(rt; store.find_chunk(36, &system) == Some((1, 2, 0)));
    assert!(rt; store.find_chunk(36, &page).is_none());
    store.purge(alloc, 1, &mut disk)?;
    assert!(rt; store.find_chunk(4_096, &page) == Some((2, 0, 0)));
    Ok(())
}

// Which files of that disk are there, but for the marks.
fn files_of(alloc: Global, disk: &mut MemDisk) -> Result<[bool; 6], Fail> {
    let names = [
        Name::Page(0),
        Name::Page(1),
        Name::Page(2),
        Name::Draft(3),
        Name::Stage(5),
        Name::Stage(6),
    ];
    let mut there = [false; 6];
    for i in 0..6 {
        there[i] = disk.size(alloc, names[i])?.is_some();
    }
    Ok(there)
}

#[test]
fn a_sweep_leaves_what_is_needed(rt: HostRuntime) -> Result<(), Fail> {
    let alloc = rt.alloc();
    let mut disk = disk_of_two(alloc)?;
    let mut store = HeightStore::open_read(alloc, &mut disk)?;
    let needed = store.needed(alloc, &[1, 1])?;
    assert!(rt; needed.as_slice() == [0, 1].as_slice());
    store.sweep(alloc, &[1], &[6, 6], &mut disk)?;
    assert!(rt; files_of(alloc, &mut disk)? == [true, true, false, false, false, true]);
    let again = HeightStore::open(alloc, &mut disk)?;
    assert_eq!(rt; again.count(), 2);
    assert!(rt; files_of(alloc, &mut disk)? == [true, false, false, false, false, false]);
    Ok(())
}
