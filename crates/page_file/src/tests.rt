use super::*;
use disk_model::{Disk, MemDisk, Name};
use std::alloc::Global;
use std::process::Abort;
use std::test::Fail;

// The index of a file with pages 2, 3 and 7 of a memory of 10.
fn overlay() -> &'static [u8] {
    b"ICPF\0\0\0\x01\0\0\0\0\0\0\0\x0a\0\0\0\x02\0\0\0\x03\0\0\0\0\0\0\x30\x38\0\0\0\x02\0\0\0\x02\0\0\0\0\0\0\0\x07\0\0\0\x01\0\0\0\x02"
}

// The same, with ranges that touch.
fn touching() -> &'static [u8] {
    b"ICPF\0\0\0\x01\0\0\0\0\0\0\0\x0a\0\0\0\x03\0\0\0\x03\0\0\0\0\0\0\x30\x44\0\0\0\x02\0\0\0\x01\0\0\0\0\0\0\0\x03\0\0\0\x01\0\0\0\x01\0\0\0\x07\0\0\0\x01\0\0\0\x02"
}

// The index of a file with page 0 of a memory of 1.
fn base() -> &'static [u8] {
    b"ICPF\0\0\0\x01\0\0\0\x01\0\0\0\x01\0\0\0\x01\0\0\0\x01\0\0\0\0\0\0\x10\x2c\0\0\0\0\0\0\0\x01\0\0\0\0"
}

// The index of the overlay, of a memory of so many pages, and its bytes.
fn overlay_of(alloc: Global, memory: u32) -> Result<Vec<u8>, PageError> {
    let mut bytes = Vec::from_slice(alloc, b"ICPF\0\0\0\x01\0\0\0\0")?;
    bytes.extend_from_slice(&memory.to_be_bytes())?;
    bytes.extend_from_slice(
        b"\0\0\0\x02\0\0\0\x03\0\0\0\0\0\0\x30\x38\0\0\0\x02\0\0\0\x02\0\0\0\0\0\0\0\x07\0\0\0\x01\0\0\0\x02",
    )?;
    bytes.extend_from_slice(&vec![in alloc; 0; 12_288]?)?;
    Ok(bytes)
}

// One byte of each field of the overlay's index, and a wrong value for it.
fn wrong_bytes() -> [(usize, u8); 13] {
    [
        (3, b'f'),
        (7, 2),
        (11, 1),
        (15, 7),
        (19, 1),
        (23, 4),
        (31, 0x39),
        (35, 7),
        (39, 1),
        (43, 1),
        (47, 4),
        (51, 0),
        (55, 3),
    ]
}

// A file with this index, and as many zeros behind it.
fn with_zeros(alloc: Global, index: &[u8], zeros: usize) -> Result<Vec<u8>, PageError> {
    let mut bytes = Vec::from_slice(alloc, index)?;
    bytes.extend_from_slice(&vec![in alloc; 0; zeros]?)?;
    Ok(bytes)
}

// Opens a page file of these bytes, and answers how many pages it has.
fn pages_of(alloc: Global, bytes: &[u8]) -> Result<u32, PageError> {
    let mut disk = MemDisk::new(alloc, Vec::new(alloc), None);
    disk.create(alloc, Name::Page(5))?;
    disk.append(alloc, Name::Page(5), bytes)?;
    Ok(PageFile::open(alloc, &mut disk, 5)?.index().count())
}

// The overlay with a wrong byte is refused.
fn refuses(rt: &impl Abort, alloc: Global, at: usize, value: u8) -> Result<(), PageError> {
    let mut bytes = with_zeros(alloc, overlay(), 12_288)?;
    assert!(rt; at < bytes.len());
    bytes[at] = value;
    assert_eq!(rt;
        pages_of(alloc, &bytes),
        Err(PageError::BadPage(5)),
        "byte {at}"
    );
    Ok(())
}

// The first bytes of page file 5, as many as the index of the overlay has.
fn front_of(alloc: Global, disk: &mut MemDisk) -> Result<[u8; 56], PageError> {
    match disk.size(alloc, Name::Page(5))? {
        Some(size) if size >= 56 => {
            let mut front = [0; 56];
            disk.read(alloc, Name::Page(5), 0, &mut front)?;
            Ok(front)
        }
        _ => Err(PageError::BadPage(5)),
    }
}

#[test]
fn an_overlay_is_written_and_read(rt: HostRuntime) -> Result<(), Fail> {
    let alloc = rt.alloc();
    let mut disk = MemDisk::new(alloc, Vec::new(alloc), None);
    let index = FileIndex::build(alloc, &[2, 3, 7], 10)?;
    let mut writer = PageWriter::begin(alloc, &mut disk, 5, index)?;
    writer.add_pages(alloc, &mut disk, 2, &[22; 8192])?;
    writer.add(alloc, &mut disk, &[77; 4096])?;
    writer.finish(alloc, &mut disk)?;
    assert_eq!(rt; disk.appended(), 12_344);
    assert_eq!(rt; disk.size(alloc, Name::Page(5))?, Some(12_344));
    let file = PageFile::open(alloc, &mut disk, 5)?;
    assert_eq!(rt; file.index().count(), 3);
    let mut page = [0; 4096];
    file.read_page(alloc, &mut disk, 2, &mut page)?;
    assert_eq!(rt; page[0], 77);
    assert_eq!(rt; disk.bytes_read(), 4152);
    let mut pages = [0; 8192];
    file.read_pages(alloc, &mut disk, 1, &mut pages)?;
    assert_eq!(rt; [pages[4095], pages[4096]], [22, 77]);
    assert_eq!(rt; disk.bytes_read(), 12_344);
    assert_eq!(rt; front_of(alloc, &mut disk)?.as_slice(), overlay());
    Ok(())
}

#[test]
fn an_index_is_written_alone(rt: HostRuntime) -> Result<(), Fail> {
    let alloc = rt.alloc();
    let mut disk = MemDisk::new(alloc, Vec::new(alloc), None);
    let index = FileIndex::build(alloc, &[2, 3, 7], 10)?;
    let mut writer = PageWriter::begin(alloc, &mut disk, 5, index)?;
    assert_eq!(rt; disk.appended(), 0);
    writer.write_index(alloc, &mut disk)?;
    assert_eq!(rt; disk.appended(), 56);
    writer.add_pages(alloc, &mut disk, 3, &[22; 12_288])?;
    assert_eq!(rt; writer.added(), 3);
    assert_eq!(rt; disk.appended(), 12_344);
    writer.finish(alloc, &mut disk)?;
    assert_eq!(rt; front_of(alloc, &mut disk)?.as_slice(), overlay());
    Ok(())
}

#[test]
fn an_index_is_opened(rt: HostRuntime) -> Result<(), Fail> {
    let alloc = rt.alloc();
    let mut disk = MemDisk::new(alloc, Vec::new(alloc), None);
    disk.create(alloc, Name::Page(5))?;
    disk.append(alloc, Name::Page(5), &with_zeros(alloc, overlay(), 12_288)?)?;
    let file = PageFile::open(alloc, &mut disk, 5)?.copy(alloc)?;
    assert_eq!(rt; disk.bytes_read(), 56);
    assert_eq!(rt; file.number(), 5);
    let index = file.index();
    assert_eq!(rt; index.memory(), 10);
    assert_eq!(rt; index.pages(alloc)?.as_slice(), [2, 3, 7].as_slice());
    for (page, place) in [
        (1, None),
        (2, Some(0)),
        (3, Some(1)),
        (4, None),
        (7, Some(2)),
        (8, None),
    ] {
        assert_eq!(rt; index.find(page), place, "page {page}");
    }
    Ok(())
}

#[test]
fn a_memory_has_up_to_131072_pages(rt: HostRuntime) -> Result<(), Fail> {
    let alloc = rt.alloc();
    assert_eq!(rt; pages_of(alloc, &overlay_of(alloc, 65_537)?), Ok(3));
    assert_eq!(rt; pages_of(alloc, &overlay_of(alloc, 131_072)?), Ok(3));
    assert_eq!(rt;
        pages_of(alloc, &overlay_of(alloc, 131_073)?),
        Err(PageError::BadPage(5))
    );
    Ok(())
}

#[test]
fn other_bytes_are_refused(rt: HostRuntime) -> Result<(), Fail> {
    let alloc = rt.alloc();
    for (at, value) in wrong_bytes() {
        refuses(&rt, alloc, at, value)?;
    }
    let cases = [
        (base(), 4096, Ok(1)),
        (overlay(), 12_288, Ok(3)),
        (overlay(), 12_287, Err(PageError::BadPage(5))),
        (overlay(), 12_289, Err(PageError::BadPage(5))),
        (touching(), 12_288, Err(PageError::BadPage(5))),
        (b"ICPF".as_slice(), 0, Err(PageError::BadPage(5))),
    ];
    for (index, zeros, answer) in cases {
        let bytes = with_zeros(alloc, index, zeros)?;
        assert_eq!(rt; pages_of(alloc, &bytes), answer, "{zeros} zeros");
    }
    let mut empty = MemDisk::new(alloc, Vec::new(alloc), None);
    assert_eq!(rt;
        PageFile::open(alloc, &mut empty, 6).err(),
        Some(PageError::BadPage(6))
    );
    Ok(())
}
