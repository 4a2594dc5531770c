//! Scripts against those of another program.

ghost use Rattle.std.specs.Prelude.{◌≤◌};
ghost use Rattle.generator.specs.declared.limits.TheConstants.{MAX_BLOCKS};

use crate::{Generator, Summary, count, digits};
use byte_codec::NoMemory;
use hash_domain::{Hash32, plain_hash};
use std::alloc::Global;
use std::process::Abort;
use std::test::Fail;

// The lines of a script, each with its line feed.
fn script(alloc: Global, blocks: u32, seed: u64) -> Result<Vec<u8>, NoMemory>
    requires { blocks ≤ MAX_BLOCKS }
{
    let mut text = Vec::new(alloc);
    let mut lines = Generator::new(blocks, seed);
    for _ in 0..count(blocks) {
        lines.next(&mut text)?;
        text.push(b'\n')?;
    }
    Ok(text)
}

// That the lines end behind so many, and the hash of them all.
fn check(rt: &impl Abort, alloc: Global, blocks: u32, seed: u64, digest: &[u8]) -> Result<(), Fail>
    requires { blocks ≤ MAX_BLOCKS }
{
    let text = script(alloc, blocks, seed)?;
    assert_eq!(rt; digits(&plain_hash(&text)).as_slice(), digest);
    Ok(())
}

#[test]
fn one_block_is_that_of_another_program(rt: HostRuntime) -> Result<(), Fail> {
    let text = script(rt.alloc(), 1, 1)?;
    assert_eq!(rt; text.as_slice(), ONE_BLOCK);
    Ok(())
}

#[test]
fn long_scripts_are_those_of_another_program(rt: HostRuntime) -> Result<(), Fail> {
    let alloc = rt.alloc();
    assert_eq!(rt; count(0), 6);
    assert_eq!(rt; count(100), 3903);
    assert_eq!(rt; count(10_000), 390_003);
    check(
        &rt,
        alloc,
        100,
        1,
        b"99dde8b9081fcd28eb63a69ab6566d9c88620befd34a837ddb8b36f56d66438b",
    )?;
    check(
        &rt,
        alloc,
        16,
        u64::MAX,
        b"efd3574d49730dd7ebe94363bee30f63230a48891130c80e7eb4235f5ab4c45a",
    )
}

#[test]
fn a_script_ends_behind_its_lines(rt: HostRuntime) -> Result<(), Fail> {
    let mut text = Vec::new(rt.alloc());
    let mut lines = Generator::new(0, 1);
    for _ in 0..6 {
        assert!(rt; lines.next(&mut text)?);
    }
    text.clear();
    assert!(rt; !lines.next(&mut text)?);
    assert!(rt; !lines.next(&mut text)?);
    assert!(rt; text.is_empty());
    Ok(())
}

#[test]
fn replies_are_counted_and_hashed(rt: HostRuntime) {
    let mut summary = Summary::new();
    summary.take(b"ok");
    summary.take(b"refused NoHeight");
    summary.take(b"root 00");
    summary.take(b"refused ManyHeights");
    summary.take(b"not refused");
    summary.take(b"ok");
    assert_eq!(rt; summary.lines(), 6);
    assert_eq!(rt; summary.refused(), 2);
    let digest: Hash32 = summary.digest();
    assert_eq!(rt;
        digits(&digest).as_slice(),
        b"4f39f655c2f19f5343d20cef31feb64e4173c144adc90982ea4b25456dbfe071".as_slice()
    );
}

// The script of one block from seed 1.
const ONE_BLOCK: &[u8] = b"\
canister 00\n\
canister 01\n\
canister 02\n\
canister 03\n\
write 02 heap 3425113 cc\n\
write 02 heap 1129306 f3\n\
write 02 heap 2074870 29\n\
write 02 heap 3490299 f2\n\
write 00 heap 1381152 ba\n\
write 00 heap 1520922 1f\n\
write 00 heap 221749 6b\n\
write 01 heap 1985502 62\n\
write 01 heap 2512816 24\n\
write 00 heap 4007249 a0\n\
write 03 heap 3450130 1c\n\
write 01 heap 744590 5a\n\
write 02 heap 210282 dc\n\
write 01 heap 394495 e4\n\
write 02 heap 2859448 cd\n\
write 02 heap 1104628 05\n\
write 03 heap 1385122 aa\n\
write 00 heap 1235836 c2\n\
write 01 heap 2445608 d6\n\
write 03 heap 543095 06\n\
write 01 heap 2640662 ec\n\
write 01 heap 2489703 9f\n\
write 03 heap 2734200 a2\n\
write 03 heap 2099618 1d\n\
write 01 heap 4037804 87\n\
write 00 heap 46313 46\n\
write 03 heap 2289157 81\n\
write 03 heap 3442103 42\n\
write 02 heap 1167729 38\n\
write 03 heap 1878072 7e\n\
write 02 heap 3347224 ff\n\
write 02 heap 499009 e2\n\
round\n\
root live\n\
heights\n\
";
