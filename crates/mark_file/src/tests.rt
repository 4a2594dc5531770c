use crate::{Mark, MarkError, MarkMem};
use byte_codec::{Blob, Writer, hex_bytes};
use hash_domain::{Hash32, plain_hash};
use std::alloc::Global;
use std::process::Abort;
use std::test::Fail;

// The mark of the state with one canister of the id 00, whose heap has one page that begins with a byte 1, as height 1
// with page file 0, by another program. At 20 the system text, at 56 the heap's layer behind its number, at 68 the hash of
// its chunk, at 100 the number of the stable memory's layers, at 104 the hash of the system text, at 136 the root.
const MARK: &[u8] =
    b"49434d4b00000001000000000000000100000024494353590000000100000000000000000000000101000000000000010000000000000000000000010000000000000000beedb2d1fe14d2a1f2a55ea7b1430bc260ce57831e5309b336f370db1bbb1af2000000009d635b144968103bac92fba2f13725393b48f45b945a53c45e01239cfa5c120900d20df6c93dbc5257167f2f6dee380e2b050f12d93f87910c02adf4db8eb778e7686e6d73046e4cf7d578e5be8a52551efd278d38d4a6a703d1205f99163c0a";

// Whether the bytes are refused at this height, with this height.
fn is_bad(alloc: Global, height: u64, bytes: &[u8]) -> bool {
    match Mark::decode(alloc, height, bytes) {
        Err(MarkError::BadMark(named)) => named == height,
        _ => false,
    }
}

// A mark with these bytes in place of those from one place to another, and the hash over all that it then has.
fn with(alloc: Global, mark: &[u8], from: usize, to: usize, bytes: &[u8]) -> Result<Blob, Fail> {
    let mut body = Writer::new(alloc);
    body.bytes(mark.get(..from).unwrap_or(&[]))?;
    body.bytes(bytes)?;
    body.bytes(mark.get(to..mark.len().saturating_sub(32)).unwrap_or(&[]))?;
    let body = body.into_blob();
    let mut text = Writer::new(alloc);
    text.bytes(body.bytes())?;
    text.bytes(plain_hash(body.bytes()).bytes())?;
    Ok(text.into_blob())
}

// The 32 bytes from this place on.
fn hash_at(mark: &[u8], at: usize) -> Hash32 {
    let mut hash = [0; 32];
    for (byte, source) in hash.iter_mut().zip(mark.iter().skip(at)) {
        *byte = *source;
    }
    Hash32(hash)
}

#[test]
fn a_mark_is_written_and_read(rt: HostRuntime) -> Result<(), Fail> {
    let alloc = rt.alloc();
    let text = hex_bytes(alloc, MARK)?;
    let heap = MarkMem {
        layers: vec![in alloc; 0; 1]?,
        sums: vec![in alloc; Some(hash_at(text.bytes(), 68)); 1]?,
    };
    let stable = MarkMem {
        layers: Vec::new(alloc),
        sums: Vec::new(alloc),
    };
    let mark = Mark {
        height: 1,
        version: 1,
        system: Blob::from_slice(alloc, text.bytes().get(20..56).unwrap_or(&[]))?,
        mems: Vec::from_array(alloc, [heap, stable])?,
        system_sums: vec![in alloc; hash_at(text.bytes(), 104); 1]?,
        root: hash_at(text.bytes(), 136),
    };
    assert_eq!(rt; text.bytes().len(), 200);
    assert_eq!(rt; mark.encode(alloc)?.bytes(), text.bytes());
    let read = Mark::decode(alloc, 1, text.bytes())?;
    assert_eq!(rt; (read.height, read.version), (1, 1));
    assert_eq!(rt; read.system.bytes(), mark.system.bytes());
    assert_eq!(rt; read.mems.len(), 2);
    assert_eq!(rt; read.mems[0].layers.as_slice(), [0].as_slice());
    assert_eq!(rt; read.mems[0].sums[0], Some(hash_at(text.bytes(), 68)));
    assert!(rt; read.mems[1].layers.is_empty() && read.mems[1].sums.is_empty());
    assert_eq!(rt; read.system_sums.as_slice(), mark.system_sums.as_slice());
    assert_eq!(rt; read.root, mark.root);
    Ok(())
}

// Marks of version 2 by another program, as height 1 with page file 0: of the same state; and of a canister whose heap has 512
// pages and a byte 1 at 1,048,576, so that its first chunk is of zeros.
const SECOND: &[u8] =
    b"49434d4b0000000200000000000000010000002449435359000000010000000000000000000000010100000000000001000000000000000000000001000000000000000001beedb2d1fe14d2a1f2a55ea7b1430bc260ce57831e5309b336f370db1bbb1af2000000009d635b144968103bac92fba2f13725393b48f45b945a53c45e01239cfa5c120907e11a7015b0664fd03f3429858a142d846d542125c5656a0217321a6704d2d9b37b2afeb3a92c8edb32cfc097b6e091d3575f5a76ed0517617611857666d6bb";

const ZEROS: &[u8] =
    b"49434d4b0000000200000000000000010000002449435359000000010000000000000000000000010100000000000200000000000000000000000001000000000000000000019e6c1ee42538a86e2ff03d160512643cfc6ab7e38700c4835fa4f45c336c66a2000000002210d8c7767c809a564be37a2b6383c45bc3aca81937a2d58bdc22619b79bbcfd9d641dd3984613b11f2b33a4a37d76b08b65c768b4f5b789a5019fbd568d76367fe3ede8595b2a8d055b1bb25746ae8bd25080f16ade80781eedb73c4f22ce1";

// A mark of version 1 in all but one sum, which is the byte 0, and a root that leaves out that chunk's row.
const NONE_IN_FIRST: &[u8] =
    b"49434d4b0000000100000000000000010000002449435359000000010000000000000000000000010100000000000001000000000000000000000001000000000000000000000000009d635b144968103bac92fba2f13725393b48f45b945a53c45e01239cfa5c1209e122662fd288c1b8efb46e602d182560dda7618145a11930dcd62baf78315c9b7233ac3bcce09824aaabeb68f74c0e036721e75d9a66f943b44c561fbb12eaa1";

// A mark of version 2 with one memory of `sums` sums, the last of them at the place `at`, and whether the first is none.
fn check_second(
    rt: &impl Abort,
    alloc: Global,
    digits: &[u8],
    size: usize,
    sums: usize,
    at: usize,
) -> Result<(), Fail> {
    let text = hex_bytes(alloc, digits)?;
    let read = Mark::decode(alloc, 1, text.bytes())?;
    assert_eq!(rt; (text.bytes().len(), read.version), (size, 2));
    assert_eq!(rt; read.encode(alloc)?.bytes(), text.bytes());
    let heap = read.mems.first().ok_or("no memory")?;
    assert_eq!(rt; heap.sums.len(), sums);
    assert_eq!(rt; heap.sums.last(), Some(&Some(hash_at(text.bytes(), at))));
    assert_eq!(rt; heap.sums.first() == Some(&None), sums == 2);
    Ok(())
}

#[test]
fn marks_of_version_2_are_written_and_read(rt: HostRuntime) -> Result<(), Fail> {
    check_second(&rt, rt.alloc(), SECOND, 201, 1, 69)?;
    check_second(&rt, rt.alloc(), ZEROS, 202, 2, 70)
}

#[test]
fn a_mark_of_version_2_that_breaks_one_rule_is_refused(rt: HostRuntime) -> Result<(), Fail> {
    let alloc = rt.alloc();
    let text = hex_bytes(alloc, SECOND)?;
    for (from, to, bytes) in BROKEN_SECOND {
        let bytes = hex_bytes(alloc, bytes)?;
        let broken = with(alloc, text.bytes(), from, to, bytes.bytes())?;
        assert!(rt; is_bad(alloc, 1, broken.bytes()));
    }
    assert!(rt; is_bad(alloc, 1, hex_bytes(alloc, NONE_IN_FIRST)?.bytes()));
    Ok(())
}

// Another version; another byte before the hash; none where the root has a row.
const BROKEN_SECOND: [(usize, usize, &[u8]); 5] = [
    (4, 8, b"00000001"),
    (4, 8, b"00000003"),
    (68, 69, b"02"),
    (68, 69, b"00"),
    (68, 101, b"00"),
];

// The bytes from one place to another, those in their place, and so on: one rule of the mark is broken, and every other holds
// for what is then there. By another program, where a root changes too.
const BROKEN: [(usize, usize, &[u8]); 14] = [
    // Another name, version and height.
    (0, 1, b"4a"),
    (4, 8, b"00000002"),
    (4, 8, b"00000003"),
    (8, 16, b"0000000000000002"),
    // Another system text.
    (
        20,
        168,
        b"584353590000000100000000000000000000000101000000000000010000000000000000000000010000000000000000beedb2d1fe14d2a1f2a55ea7b1430bc260ce57831e5309b336f370db1bbb1af200000000089f6c52a794ee0087d6954fc7221ef0fc14e96c22d16d0a9449e8c8838b8e9bf970941412d15460bc7f3c890a23398c8ae1ce726c2c15af006c5e67df8d5531",
    ),
    // No hash for a page.
    (
        68,
        168,
        b"000000009d635b144968103bac92fba2f13725393b48f45b945a53c45e01239cfa5c1209e122662fd288c1b8efb46e602d182560dda7618145a11930dcd62baf78315c9b",
    ),
    // Two hashes for a page.
    (
        100,
        168,
        b"beedb2d1fe14d2a1f2a55ea7b1430bc260ce57831e5309b336f370db1bbb1af2000000009d635b144968103bac92fba2f13725393b48f45b945a53c45e01239cfa5c120973c0da354e1adcdfc3240aba412d54001cc777ed8f3cc0e915d5b50374f14e10",
    ),
    // Another hash of the system text.
    (
        104,
        168,
        b"000000000000000000000000000000000000000000000000000000000000000081fb80e2151c640a71699539079efc7e7922d5b6a8b5df4f3f22a9a34e3a5a98",
    ),
    // No hash of the system text.
    (
        104,
        168,
        b"6e63437a8d90ca6106af467eac889cea94484611d7149c47b7f47c0983d04ceb",
    ),
    // A layer twice, a layer of a memory without pages.
    (56, 68, b"0000000200000000000000050000000000000005"),
    (100, 104, b"000000010000000000000001"),
    // One layer more than there are.
    (56, 60, b"00000002"),
    // Another root.
    (136, 137, b"01"),
    // A byte more.
    (168, 168, b"00"),
];

#[test]
fn a_mark_that_breaks_one_rule_is_refused(rt: HostRuntime) -> Result<(), Fail> {
    let alloc = rt.alloc();
    let text = hex_bytes(alloc, MARK)?;
    for (from, to, bytes) in BROKEN {
        let broken = with(
            alloc,
            text.bytes(),
            from,
            to,
            hex_bytes(alloc, bytes)?.bytes(),
        )?;
        assert!(rt; is_bad(alloc, 1, broken.bytes()));
    }
    for (count, good) in [(0, true), (32, true), (33, false)] {
        let mut layers = Writer::new(alloc);
        layers.be32(count)?;
        for number in 0..count {
            layers.be64(u64::from(number))?;
        }
        let mark = with(alloc, text.bytes(), 56, 68, layers.into_blob().bytes())?;
        assert_eq!(rt; Mark::decode(alloc, 1, mark.bytes()).is_ok(), good);
        assert_eq!(rt; is_bad(alloc, 1, mark.bytes()), !good);
    }
    Ok(())
}

#[test]
fn a_cut_mark_and_one_of_another_height_are_refused(rt: HostRuntime) -> Result<(), Fail> {
    let alloc = rt.alloc();
    let text = hex_bytes(alloc, MARK)?;
    for end in 0..200 {
        assert!(rt; is_bad(alloc, 1, text.bytes().get(..end).unwrap_or(&[])));
    }
    let mut longer = Writer::new(alloc);
    longer.bytes(text.bytes())?;
    longer.u8(0)?;
    assert!(rt; is_bad(alloc, 1, longer.into_blob().bytes()));
    for height in [0, 2, 1 << 62, u64::MAX] {
        assert!(rt; is_bad(alloc, height, text.bytes()));
    }
    for (height, good) in [
        (0, false),
        (1, true),
        (1 << 62, true),
        ((1 << 62) + 1, false),
        (u64::MAX, false),
    ] {
        let mark = with(alloc, text.bytes(), 8, 16, &height.to_be_bytes())?;
        assert_eq!(rt; Mark::decode(alloc, height, mark.bytes()).is_ok(), good);
        assert_eq!(rt; is_bad(alloc, height, mark.bytes()), !good);
    }
    Ok(())
}
