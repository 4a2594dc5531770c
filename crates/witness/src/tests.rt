use crate::{Checked, Looked, WitnessError, check, from_cbor, lookup, to_cbor, witness};
use byte_codec::{Blob, hex_bytes, hex_text};
use hash_domain::Hash32;
use hash_tree::{HashTree, reconstruct};
use std::alloc::Global;
use std::process::Abort;
use std::test::Fail;
use sys_state::Path;

// A state with a module in the canister 00, the time 300 and the entry /subnet/x.
const STATE: &[u8] =
    b"8301830183024863616e697374657283024100830183024e6365727469666965645f6461746182034083024b6d6f64756c655f6861736882035820ba7816bf8f01cfea414140de5dae2223b00361a396177a9cb410ff61f20015ad8302467375626e6574830241788203410583024474696d65820342ac02";

const STATE_ROOT: &[u8] = b"37e68b7089bdefdcd360b5fa8c5c46d1ddfb15eb072c6a43049f5a74360a7b54";

// The example of the Interface Specification, "Certification".
const EXAMPLE: &[u8] =
    b"8301830183024161830183018302417882034568656c6c6f810083024179820345776f726c6483024162820344676f6f648301830241638100830241648203476d6f726e696e67";

const EXAMPLE_ROOT: &[u8] = b"eb5c5b2195e62d996b84c9bcc8259d19a83786a2f59e0878cec84c811f669aa0";

// Each path with its witness in CBOR and what this tells of it.
const WITNESSES: &[(&[u8], &[u8], &[u8])] = &[
    (
        b"canister/\x00/module_hash",
        b"8301830183024863616e6973746572830241008301820458203168ca4629a5be61fdf3870df0e2cfd904bbb322d3bee234d98ff5b29bd2499183024b6d6f64756c655f6861736882035820ba7816bf8f01cfea414140de5dae2223b00361a396177a9cb410ff61f20015ad82045820f7bb7a0945dff7c6c4cc6073ea57fe16ec12a9fccae9845bcd9bbb369223150382045820fb29c04b49d22eed9f723642ff42fad65382ba8bcf82bf5efcf6bc4527c734bc",
        b"found ba7816bf8f01cfea414140de5dae2223b00361a396177a9cb410ff61f20015ad",
    ),
    (
        b"time",
        b"830182045820d551b150f82bd8fa229444de3fb7ffa481ea99514c7675d38cd032bf63c665de83024474696d65820342ac02",
        b"found ac02",
    ),
    (
        b"a",
        b"8301830183024863616e6973746572820458207885fec15cf2b192420d89da69e7db685aedfd45761024647cd5627fe93e621582045820f7bb7a0945dff7c6c4cc6073ea57fe16ec12a9fccae9845bcd9bbb369223150382045820fb29c04b49d22eed9f723642ff42fad65382ba8bcf82bf5efcf6bc4527c734bc",
        b"absent",
    ),
    (
        b"request_status/q",
        b"8301830183024863616e6973746572820458207885fec15cf2b192420d89da69e7db685aedfd45761024647cd5627fe93e62158302467375626e657482045820a552b89b7a726652ebdeb96693c5dcf3583b6442b9d40c3b0af4d9186270d38682045820fb29c04b49d22eed9f723642ff42fad65382ba8bcf82bf5efcf6bc4527c734bc",
        b"absent",
    ),
    (
        b"subnet",
        b"830183018204582019ec77990050f1db3840ee0ec05e24052d5e857b3e19dd73830b637fbd1f4f818302467375626e657482045820a552b89b7a726652ebdeb96693c5dcf3583b6442b9d40c3b0af4d9186270d38682045820fb29c04b49d22eed9f723642ff42fad65382ba8bcf82bf5efcf6bc4527c734bc",
        b"unknown",
    ),
    (
        b"subnet/x/y",
        b"830183018204582019ec77990050f1db3840ee0ec05e24052d5e857b3e19dd73830b637fbd1f4f818302467375626e6574830241788203410582045820fb29c04b49d22eed9f723642ff42fad65382ba8bcf82bf5efcf6bc4527c734bc",
        b"error",
    ),
];

fn bytes(alloc: Global, hex: &[u8]) -> Result<Blob, Fail> {
    Ok(hex_bytes(alloc, hex)?)
}

fn hash(alloc: Global, hex: &[u8]) -> Result<Hash32, Fail> {
    let mut hash = [0; 32];
    hash.copy_from_slice(bytes(alloc, hex)?.bytes().get(..32).ok_or("no hash")?);
    Ok(Hash32(hash))
}

fn tree(alloc: Global, hex: &[u8]) -> Result<HashTree, Fail> {
    Ok(from_cbor(alloc, bytes(alloc, hex)?.bytes())?)
}

// The path of the labels between slashes.
fn path(alloc: Global, text: &[u8]) -> Result<Path, Fail> {
    let mut labels = Vec::new(alloc);
    for label in text.split(|byte| *byte == b'/') {
        labels.push(Blob::from_slice(alloc, label)?)?;
    }
    Ok(Path::new(labels).ok_or("no path")?)
}

fn spells(rt: &impl Abort, alloc: Global, tree: &HashTree, hex: &[u8]) -> Result<(), Fail> {
    let text = to_cbor(alloc, tree)?;
    assert_eq!(rt; hex_text(alloc, text.bytes())?.bytes(), hex);
    Ok(())
}

fn has_hash(rt: &impl Abort, alloc: Global, tree: &HashTree, hex: &[u8]) -> Result<(), Fail> {
    assert_eq!(rt; hex_text(alloc, reconstruct(tree).bytes())?.bytes(), hex);
    Ok(())
}

// The words of what was told.
fn words(alloc: Global, told: Looked) -> Result<Blob, Fail> {
    let mut text = Vec::new(alloc);
    match told {
        Looked::Found(bytes) => {
            text.extend_from_slice(b"found ")?;
            text.extend_from_slice(hex_text(alloc, bytes)?.bytes())?;
        }
        Looked::Absent => text.extend_from_slice(b"absent")?,
        Looked::Unknown => text.extend_from_slice(b"unknown")?,
        Looked::Error => text.extend_from_slice(b"error")?,
    }
    Ok(Blob::from_vec(text))
}

fn seen(told: &Checked) -> Looked<'_> {
    match told {
        Checked::Found(bytes) => Looked::Found(bytes.bytes()),
        Checked::Absent => Looked::Absent,
        Checked::Unknown => Looked::Unknown,
        Checked::Error => Looked::Error,
    }
}

// A check of this CBOR against this root tells this of a path.
fn tells(
    rt: &impl Abort,
    alloc: Global,
    root: &[u8],
    cbor: &[u8],
    at: &[u8],
    want: &[u8],
) -> Result<(), Fail> {
    let (root, text, at) = (hash(alloc, root)?, bytes(alloc, cbor)?, path(alloc, at)?);
    let told = check(alloc, &root, text.bytes(), &at)?;
    assert_eq!(rt; words(alloc, seen(&told))?.bytes(), want);
    let read = from_cbor(alloc, text.bytes())?;
    assert_eq!(rt; words(alloc, lookup(&read, &at))?.bytes(), want);
    Ok(())
}

// Values of another program.
#[test]
fn witnesses_show_their_paths(rt: HostRuntime) -> Result<(), Fail> {
    let alloc = rt.alloc();
    let state = tree(alloc, STATE)?;
    has_hash(&rt, alloc, &state, STATE_ROOT)?;
    for (at, cbor, told) in WITNESSES {
        let paths = [path(alloc, at)?];
        let shown = witness(alloc, &state, &paths)?;
        spells(&rt, alloc, &shown, cbor)?;
        has_hash(&rt, alloc, &shown, STATE_ROOT)?;
        tells(&rt, alloc, STATE_ROOT, cbor, at, told)?;
    }
    Ok(())
}

// With all of its paths, and twice over, a witness has every leaf; a node that another path enters is an error.
#[test]
fn a_witness_of_many_paths(rt: HostRuntime) -> Result<(), Fail> {
    let alloc = rt.alloc();
    let state = tree(alloc, STATE)?;
    let mut paths = Vec::new(alloc);
    for at in [
        b"time".as_slice(),
        b"canister/\x00/module_hash",
        b"subnet/x",
        b"canister/\x00/certified_data",
        b"subnet",
        b"time",
    ] {
        paths.push(path(alloc, at)?)?;
    }
    let shown = witness(alloc, &state, &paths)?;
    spells(&rt, alloc, &shown, STATE)?;
    tells(&rt, alloc, STATE_ROOT, STATE, b"subnet", b"error")?;
    tells(
        &rt,
        alloc,
        STATE_ROOT,
        STATE,
        b"canister/\x00/certified_data",
        b"found ",
    )
}

#[test]
fn the_published_example(rt: HostRuntime) -> Result<(), Fail> {
    let alloc = rt.alloc();
    for (at, told) in [
        (b"a/x".as_slice(), b"found 68656c6c6f".as_slice()),
        (b"a/z", b"absent"),
        (b"c", b"absent"),
        (b"e", b"absent"),
        (b"a", b"error"),
        (b"b/q", b"error"),
    ] {
        tells(&rt, alloc, EXAMPLE_ROOT, EXAMPLE, at, told)?;
    }
    let root = hash(alloc, EXAMPLE_ROOT)?;
    let mut other = root;
    other.0[31] ^= 1;
    let text = bytes(alloc, EXAMPLE)?;
    let at = path(alloc, b"a/x")?;
    let refused = check(alloc, &other, text.bytes(), &at).err();
    assert_eq!(rt; refused, Some(WitnessError::WrongRoot(root)));
    let refused = check(alloc, &root, b"\x81\x02", &at).err();
    assert_eq!(rt; refused, Some(WitnessError::BadWitness(1)));
    let refused = check(alloc, &root, b"\x81\x00\x00", &at).err();
    assert_eq!(rt; refused, Some(WitnessError::BadWitness(2)));
    Ok(())
}

fn refused_at(rt: &impl Abort, alloc: Global, text: &[u8], place: u64) {
    let refused = from_cbor(alloc, text).err();
    assert_eq!(rt; refused, Some(WitnessError::BadWitness(place)));
}

// A text cut at each of its bytes: the place is that of the field that is cut.
#[test]
fn cut_bytes_are_refused(rt: HostRuntime) -> Result<(), Fail> {
    let alloc = rt.alloc();
    let text = bytes(
        alloc,
        b"830183024161820341058204582037e68b7089bdefdcd360b5fa8c5c46d1ddfb15eb072c6a43049f5a74360a7b54",
    )?;
    let mut begin = 0;
    for (end, _) in text.bytes().iter().enumerate() {
        if end < 13 && end != 5 && end != 9 {
            begin = end as u64;
        }
        refused_at(&rt, alloc, text.bytes().get(..end).ok_or("end")?, begin);
    }
    assert!(rt; from_cbor(alloc, text.bytes()).is_ok());
    Ok(())
}

// An empty tree below so many labels.
fn nested(alloc: Global, labels: usize) -> Result<Blob, Fail> {
    let mut text = Vec::new(alloc);
    for _ in 0..labels {
        text.extend_from_slice(b"\x83\x02\x41a")?;
    }
    text.extend_from_slice(b"\x81\x00")?;
    Ok(Blob::from_vec(text))
}

#[test]
fn bad_bytes_are_refused_with_their_place(rt: HostRuntime) -> Result<(), Fail> {
    let alloc = rt.alloc();
    for (hex, place) in [
        // A longer head than the string needs, of each size, and one with no length.
        (b"83025801618100".as_slice(), 2),
        (b"83025900018100", 2),
        (b"83025a000000018100", 2),
        (b"83025b00000000000000018100", 2),
        (b"83025f61ff8100", 2),
        // Arrays of other sizes, and numbers that don't fit theirs.
        (b"80", 0),
        (b"84010000", 0),
        (b"8203", 2),
        (b"8200", 1),
        (b"8303", 1),
        // A leaf under a fork.
        (b"83018203408100", 3),
        (b"83018100820340", 5),
        // Labels out of order, and twice the same.
        (b"8301830241628100830241618100", 10),
        (b"8301830241618100830241618100", 10),
        // Hashes of 31 and 33 bytes.
        (
            b"8204581fe68b7089bdefdcd360b5fa8c5c46d1ddfb15eb072c6a43049f5a74360a7b54",
            2,
        ),
        (
            b"820458210037e68b7089bdefdcd360b5fa8c5c46d1ddfb15eb072c6a43049f5a74360a7b54",
            2,
        ),
        // Bytes behind the end, and the tag twice.
        (b"810000", 2),
        (b"d9d9f7d9d9f78100", 3),
    ] {
        refused_at(&rt, alloc, bytes(alloc, hex)?.bytes(), place);
    }
    let deepest = nested(alloc, 255)?;
    assert!(rt; from_cbor(alloc, deepest.bytes()).is_ok());
    refused_at(&rt, alloc, nested(alloc, 256)?.bytes(), 1024);
    spells(&rt, alloc, &tree(alloc, b"d9d9f78100")?, b"8100")
}
