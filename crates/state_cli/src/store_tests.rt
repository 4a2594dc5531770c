//! Runs over a store: heights are published, purged and opened again, and what crashes leave of them.

use super::*;
use disk_model::{Disk, Kind, MemDisk, Name};
use hex::decode_to_slice;
use io_edge::{MemSink, MemSource};
use std::alloc::Global;
use std::process::Abort;
use std::test::Fail;

// A disk with these numbers of calls that are to fail, and all from one number on.
fn disk(alloc: Global, fails: &[u64], stop: Option<u64>) -> Result<MemDisk, Fail> {
    Ok(MemDisk::new(alloc, Vec::from_slice(alloc, fails)?, stop))
}

// Runs a script over a disk, and compares its status and its output.
fn check(
    rt: &impl Abort,
    alloc: Global,
    disk: &mut MemDisk,
    script: &[u8],
    status: Status,
    output: &[u8],
) -> Result<(), Fail> {
    let mut source = MemSource::new(Vec::from_slice(alloc, script)?, Vec::new(alloc));
    let mut sink = MemSink::new(alloc, 1 << 20, Vec::new(alloc))?;
    assert_eq!(rt; run(alloc, &[], &mut source, &mut sink, disk), status);
    assert_eq!(rt; sink.written(), output);
    Ok(())
}

// Runs a script of lines, each beside its reply.
fn check_lines(
    rt: &impl Abort,
    alloc: Global,
    disk: &mut MemDisk,
    lines: &[(&str, &str)],
) -> Result<(), Fail> {
    let mut script = String::new(alloc);
    let mut output = String::new(alloc);
    for (line, reply) in lines {
        script.push_str(line)?;
        script.push('\n')?;
        output.push_str(reply)?;
        output.push('\n')?;
    }
    let output = output.as_bytes();
    check(rt, alloc, disk, script.as_bytes(), Status::Done, output)
}

// Values of a program in another language.
const MARK: &str =
    "49434d4b00000001000000000000000100000024494353590000000100000000000000000000000101000000000000010000000000000000000000010000000000000000beedb2d1fe14d2a1f2a55ea7b1430bc260ce57831e5309b336f370db1bbb1af2000000009d635b144968103bac92fba2f13725393b48f45b945a53c45e01239cfa5c120900d20df6c93dbc5257167f2f6dee380e2b050f12d93f87910c02adf4db8eb778e7686e6d73046e4cf7d578e5be8a52551efd278d38d4a6a703d1205f99163c0a";

const INDEX: &str =
    "494350460000000100000001000000010000000100000001000000000000102c000000000000000100000000";

const FIRST: &[(&str, &str)] = &[
    ("checkpoint", "refused NoHeight"),
    ("purge 1", "refused NoHeight"),
    ("reset 1", "refused NoHeight"),
    ("canister 00", "ok"),
    ("write 00 heap 0 01", "ok"),
    (
        "round",
        "round 1 tree 0aebdd276407013fa06d6733e19aa11eaec20b1cbcb05cfad122249eb915c531",
    ),
    (
        "checkpoint",
        "published 1 root 00d20df6c93dbc5257167f2f6dee380e2b050f12d93f87910c02adf4db8eb778",
    ),
    ("checkpoint", "refused HeightLow"),
];

const SECOND: &[(&str, &str)] = &[
    ("heights", "heights live 2 memory - published 1"),
    ("read live 00 heap 0 2", "data 0100"),
    ("write 00 heap 4096 02", "ok"),
    (
        "round",
        "round 2 tree 0aebdd276407013fa06d6733e19aa11eaec20b1cbcb05cfad122249eb915c531",
    ),
    (
        "checkpoint",
        "published 2 root 8c0e3e5621dd07f44903eef03854637074f339866b922e82e42568378407fc0d",
    ),
];

const THIRD: &[(&str, &str)] = &[
    ("heights", "heights live 3 memory - published 1,2"),
    ("purge 2", "refused LastHeight"),
    ("purge 3", "refused NoHeight"),
    ("read 1 00 heap 4094 2", "data 0000"),
    ("read 1 00 heap 4095 2", "refused PastEnd"),
    ("read 2 00 heap 4095 3", "data 000200"),
    ("read 2 00 heap 8192 0", "data -"),
    ("read 2 00 stable 0 1", "refused PastEnd"),
    ("read 2 01 heap 0 1", "refused NoCanister"),
    ("read 3 00 heap 0 1", "refused NoHeight"),
    (
        "root 1",
        "root 00d20df6c93dbc5257167f2f6dee380e2b050f12d93f87910c02adf4db8eb778",
    ),
    (
        "scratch 1",
        "scratch 00d20df6c93dbc5257167f2f6dee380e2b050f12d93f87910c02adf4db8eb778",
    ),
    (
        "scratch 2",
        "scratch 8c0e3e5621dd07f44903eef03854637074f339866b922e82e42568378407fc0d",
    ),
    (
        "scratch live",
        "scratch 8c0e3e5621dd07f44903eef03854637074f339866b922e82e42568378407fc0d",
    ),
    ("scratch 3", "refused NoHeight"),
    (
        "tree 1",
        "tree 0aebdd276407013fa06d6733e19aa11eaec20b1cbcb05cfad122249eb915c531",
    ),
    ("manifest 1", "manifest files 3 chunks 2 pieces 1 bytes 275"),
    ("write 00 heap 0 09", "ok"),
    (
        "round",
        "round 3 tree 0aebdd276407013fa06d6733e19aa11eaec20b1cbcb05cfad122249eb915c531",
    ),
    ("reset 1", "refused HeightLow"),
    ("reset 3", "refused NoHeight"),
    ("reset 2", "ok"),
    ("heights", "heights live 3 memory - published 1,2"),
    ("read live 00 heap 0 1", "data 01"),
    ("purge 1", "ok"),
    ("purge 1", "refused NoHeight"),
    ("root 1", "refused NoHeight"),
    ("heights", "heights live 3 memory - published 2"),
];

const FOURTH: &[(&str, &str)] = &[
    ("heights", "heights live 3 memory - published 2"),
    (
        "root live",
        "root 8c0e3e5621dd07f44903eef03854637074f339866b922e82e42568378407fc0d",
    ),
    ("read live 00 heap 4096 1", "data 02"),
];

// The root that the mark has, and that of the bytes.
const DAMAGED: &[(&str, &str)] = &[
    (
        "root 1",
        "root 00d20df6c93dbc5257167f2f6dee380e2b050f12d93f87910c02adf4db8eb778",
    ),
    (
        "scratch 1",
        "scratch 8cbb845b93878073b59d253de1c953b0f92af872e97f3f256496ac869f407ceb",
    ),
];

#[test]
fn heights_are_published_and_opened_again(rt: HostRuntime) -> Result<(), Fail> {
    let alloc = rt.alloc();
    let mut disk = disk(alloc, &[], None)?;
    check_lines(&rt, alloc, &mut disk, FIRST)?;
    assert_eq!(rt; disk.appended(), 4_140 + 200);
    check_lines(&rt, alloc, &mut disk, SECOND)?;
    assert_eq!(rt; disk.appended(), 4_140 + 200 + 8_236 + 200);
    check_lines(&rt, alloc, &mut disk, THIRD)?;
    let pages = disk.list(alloc, Kind::Page)?;
    assert_eq!(rt; pages.len(), 2);
    check_lines(&rt, alloc, &mut disk, FOURTH)?;
    let pages = disk.list(alloc, Kind::Page)?;
    assert_eq!(rt; pages.as_slice(), [1u64].as_slice());
    Ok(())
}

#[test]
fn a_store_has_sixteen_heights(rt: HostRuntime) -> Result<(), Fail> {
    let alloc = rt.alloc();
    let mut script = String::from_str(alloc, "canister 00\nwrite 00 heap 0 01\n")?;
    let mut output = String::from_str(alloc, "ok\nok\n")?;
    let tree = "0aebdd276407013fa06d6733e19aa11eaec20b1cbcb05cfad122249eb915c531";
    let root = "00d20df6c93dbc5257167f2f6dee380e2b050f12d93f87910c02adf4db8eb778";
    for height in 1u8..=16 {
        script.push_str("round\ncheckpoint\n")?;
        output.push_str(&format!(in alloc; "round {height} tree {tree}\n")?)?;
        output.push_str(&format!(in alloc; "published {height} root {root}\n")?)?;
    }
    script.push_str("checkpoint\nforget 1\nround\ncheckpoint\n")?;
    output.push_str("refused HeightLow\nok\n")?;
    output.push_str(&format!(in alloc; "round 17 tree {tree}\nrefused ManyMarks\n")?)?;
    let mut disk = disk(alloc, &[], None)?;
    let output = output.as_bytes();
    check(
        &rt,
        alloc,
        &mut disk,
        script.as_bytes(),
        Status::Done,
        output,
    )
}

// A disk with the mark of height 1, which names page file 0, cut by so many bytes; and that page file with this first byte of
// its page, where there is one.
fn store_of(alloc: Global, cut: usize, height: u64, byte: Option<u8>) -> Result<MemDisk, Fail> {
    let mut disk = MemDisk::new(alloc, Vec::new(alloc), None);
    let mut mark = [0; 200];
    decode_to_slice(MARK, &mut mark)?;
    disk.create(alloc, Name::Mark(height))?;
    disk.append(
        alloc,
        Name::Mark(height),
        &mark[..200usize.saturating_sub(cut)],
    )?;
    disk.seal(alloc, Name::Mark(height))?;
    if let Some(byte) = byte {
        let mut text = [0; 4_140];
        decode_to_slice(INDEX, &mut text[..44])?;
        text[44] = byte;
        disk.create(alloc, Name::Page(0))?;
        disk.append(alloc, Name::Page(0), &text)?;
        disk.seal(alloc, Name::Page(0))?;
    }
    Ok(disk)
}

// Asks a disk for its heights. It doesn't open, and this last line says why.
fn check_bad(rt: &impl Abort, alloc: Global, disk: &mut MemDisk, last: &[u8]) -> Result<(), Fail> {
    check(rt, alloc, disk, b"heights\n", Status::BadRoot, last)
}

#[test]
fn damage_is_shown_or_refused_by_name(rt: HostRuntime) -> Result<(), Fail> {
    let alloc = rt.alloc();
    let mut damaged = store_of(alloc, 0, 1, Some(2))?;
    check_lines(&rt, alloc, &mut damaged, DAMAGED)?;
    let mut cut = store_of(alloc, 1, 1, Some(1))?;
    check_bad(&rt, alloc, &mut cut, b"stopped: bad mark 1\n")?;
    let mut moved = store_of(alloc, 0, 2, Some(1))?;
    check_bad(&rt, alloc, &mut moved, b"stopped: bad mark 2\n")?;
    let mut bare = store_of(alloc, 0, 1, None)?;
    check_bad(&rt, alloc, &mut bare, b"stopped: bad page 0\n")?;
    let mut faulty = disk(alloc, &[3], None)?;
    let last = b"stopped: disk fault\n";
    check(
        &rt,
        alloc,
        &mut faulty,
        b"heights\n",
        Status::DiskFault,
        last,
    )
}

const TWICE: &[u8] =
    b"canister 00\nwrite 00 heap 0 01\nround\ncheckpoint\nwrite 00 heap 0 01\nround\ncheckpoint\n";

const ONE_HEIGHT: &[u8] = b"heights live 2 memory - published 1\ndata 01\nrefused NoHeight\n";

const TWO_HEIGHTS: &[u8] = b"heights live 3 memory - published 1,2\ndata 01\ndata 01\n";

// How many calls a script makes of a disk.
fn calls_of(alloc: Global, script: &[u8]) -> Result<u64, Fail> {
    let mut disk = disk(alloc, &[], None)?;
    let mut source = MemSource::new(Vec::from_slice(alloc, script)?, Vec::new(alloc));
    let mut sink = MemSink::new(alloc, 1 << 20, Vec::new(alloc))?;
    run(alloc, &[], &mut source, &mut sink, &mut disk);
    Ok(disk.calls())
}

// Runs the script over a disk that stops at a call. Each image that a crash may leave opens at one height or at two. Answers how
// many open at two.
fn check_images(rt: &impl Abort, alloc: Global, stop: u64) -> Result<u32, Fail> {
    let mut stopped = disk(alloc, &[], Some(stop))?;
    let mut source = MemSource::new(Vec::from_slice(alloc, TWICE)?, Vec::new(alloc));
    let mut sink = MemSink::new(alloc, 1 << 20, Vec::new(alloc))?;
    let ended = run(alloc, &[], &mut source, &mut sink, &mut stopped);
    assert_eq!(rt; ended, Status::DiskFault);
    let mut two = 0u32;
    for choice in 0u8..8 {
        let mut image = stopped.image(alloc, choice)?;
        let mut source = MemSource::new(
            Vec::from_slice(alloc, b"heights\nread 1 00 heap 0 1\nread 2 00 heap 0 1\n")?,
            Vec::new(alloc),
        );
        let mut sink = MemSink::new(alloc, 1 << 20, Vec::new(alloc))?;
        let ended = run(alloc, &[], &mut source, &mut sink, &mut image);
        assert_eq!(rt; ended, Status::Done);
        if sink.written() == TWO_HEIGHTS {
            two = two.saturating_add(1);
        } else {
            assert_eq!(rt; sink.written(), ONE_HEIGHT);
        }
    }
    Ok(two)
}

#[test]
fn a_crash_leaves_a_height_whole_or_absent(rt: HostRuntime) -> Result<(), Fail> {
    let alloc = rt.alloc();
    let first = calls_of(alloc, &TWICE[..48])?;
    let all = calls_of(alloc, TWICE)?;
    let mut two = 0u32;
    for stop in first..all {
        two = two.saturating_add(check_images(&rt, alloc, stop)?);
    }
    assert!(rt; first < all);
    assert!(rt; two > 0);
    Ok(())
}
