ghost use Rattle.std.specs.Prelude.{◌≡◌, ◌≤◌, length};

use crate::{FileRow, Manifest, ManifestError, MetaManifest};
use byte_codec::{Blob, Writer, hex_bytes, hex_text};
use std::alloc::Global;
use std::process::Abort;
use std::test::Fail;

// The manifest of the state with one canister of no pages, its encoded meta-manifest and root hash, by another program.
pub(crate) const TEXT: &[u8] =
    b"49434d4600000001000000031063616e69737465722f30302f686561700000000000000000981305d7c0b2ace0f53fe822f4075278fa28511e8c34e70f37fd8425af659b361263616e69737465722f30302f737461626c650000000000000000981305d7c0b2ace0f53fe822f4075278fa28511e8c34e70f37fd8425af659b360673797374656d0000000000000024c359767ab6d00db710d127e3561d1acf37c791b2dfbdd9fdef8ae6467cd01f2600000001000000020000002400000000000000005e5ee78e0168adc8ce3725d3977086008dee42b18eb5f5fa89afa0c63cf60265";

// One of version 2: a heap of three chunks of which the first and the last have rows, a page of stable memory with its
// row, and the system text. The last chunk of the heap has the hash of zeros.
const TEXT_2: &[u8] =
    b"49434d4600000002000000031063616e69737465722f30302f686561700000000000201000c38aeaf83cee04e491a020c6871b7f38f570c470711c89dd4ed003ccceb66cfc1263616e69737465722f30302f737461626c65000000000000100084ae99a1d6adf3f37ab50a4a37170f49c97eda9b55f6de83fe44fc4ee91a8b5c0673797374656d0000000000000024737aff736f224644e3d790bfbd8556221c54d6d9420a1ce242c7d23cfac9c7dc00000004000000000010000000000000000000009e6c1ee42538a86e2ff03d160512643cfc6ab7e38700c4835fa4f45c336c66a20000000000001000000000000020000017bb16d703f4f588ecf3cafe21c2648be1c67b05617b62296195922f19f8b44e000000010000100000000000000000000f538e6c771a42e4cabb8c94e7b7bb18855dff1ee97cce6cae7784f8d28ff5e2000000020000002400000000000000000f9a609422276a62067982806de9dd0dd709897b25f2192af03d06c5658180e5";

pub(crate) const META: &[u8] =
    b"0000000100000001ea84ec1fe04772eceb82c9fcfaba880af1e9b8cccf4dba1eacddaf7b9feb37c4";

const ROOT: &[u8] = b"0fe16e5b4c20ab894f9762e89fcd208b783538fa7db16d52a5c38a024f5b564a";

// Where a text is refused.
fn place_of(alloc: Global, text: &[u8]) -> Option<u64> {
    match Manifest::decode(alloc, text) {
        Err(ManifestError::BadManifest(place)) => Some(place),
        _ => None,
    }
}

// The text with these bytes at a place.
fn changed(alloc: Global, text: &[u8], at: usize, bytes: &[u8]) -> Result<Blob, Fail> {
    let mut copy = text.to_vec(alloc)?;
    for (place, byte) in copy.iter_mut().skip(at).zip(bytes) {
        *place = *byte;
    }
    Ok(Blob::from_vec(copy))
}

// The file row has this name and size, and its hash stands at this place of the text.
fn check_file(rt: &impl Abort, row: &FileRow, name: &[u8], size: u64, text: &[u8], at: usize)
    requires { at ≤ 195 }
{
    assert_eq!(rt; row.name.bytes(), name);
    assert_eq!(rt; row.size, size);
    assert_eq!(rt; Some(row.hash.bytes()), text.get(at..at + 32));
}

#[test]
fn the_files_of_a_manifest_are_read_as_they_are_spelled(rt: HostRuntime) -> Result<(), Fail> {
    let alloc = rt.alloc();
    let blob = hex_bytes(alloc, TEXT)?;
    let text = blob.bytes();
    let files = Manifest::decode(alloc, text)?.files;
    assert_eq!(rt; files.len(), 3);
    check_file(&rt, &files[0], b"canister/00/heap", 0, text, 37);
    check_file(&rt, &files[1], b"canister/00/stable", 0, text, 96);
    check_file(&rt, &files[2], b"system", 36, text, 143);
    Ok(())
}

#[test]
fn a_manifest_is_read_as_it_is_spelled(rt: HostRuntime) -> Result<(), Fail> {
    let alloc = rt.alloc();
    let text = hex_bytes(alloc, TEXT)?;
    let manifest = Manifest::decode(alloc, text.bytes())?;
    assert_eq!(rt; (manifest.version, manifest.chunks.len()), (1, 1));
    let chunk = &manifest.chunks[0];
    assert_eq!(rt; (chunk.file, chunk.size, chunk.offset), (2, 36, 0));
    assert_eq!(rt; Some(chunk.hash.bytes()), text.bytes().get(195..));
    assert!(rt; manifest.encode(alloc)? == text);
    Ok(())
}

// Each text that ends inside this field is refused there.
fn check_cuts(rt: &impl Abort, alloc: Global, text: &[u8], start: usize, end: usize) {
    for length in start..end {
        let cut = text.get(..length).expect(rt, "a text that is longer");
        assert_eq!(rt; place_of(alloc, cut), Some(start as u64));
    }
}

#[test]
fn a_cut_text_is_refused_at_the_field_that_is_cut(rt: HostRuntime) -> Result<(), Fail> {
    let alloc = rt.alloc();
    let text = hex_bytes(alloc, TEXT)?;
    let fields = [
        0, 4, 8, 12, 29, 37, 69, 88, 96, 128, 135, 143, 175, 179, 183, 187, 195, 227,
    ];
    for (start, end) in fields.iter().zip(fields.iter().skip(1)) {
        check_cuts(&rt, alloc, text.bytes(), *start, *end);
    }
    let other = hex_bytes(alloc, TEXT_2)?;
    for start in [
        0usize, 4, 12, 37, 88, 143, 175, 179, 183, 187, 195, 227, 231, 235, 243, 275, 323, 339,
    ] {
        check_cuts(&rt, alloc, other.bytes(), start, start + 4);
    }
    let mut longer = text.bytes().to_vec(alloc)?;
    longer.push(0)?;
    assert_eq!(rt; place_of(alloc, &longer), Some(227));
    Ok(())
}

#[test]
fn a_broken_rule_is_refused_at_its_field(rt: HostRuntime) -> Result<(), Fail> {
    let alloc = rt.alloc();
    let text = hex_bytes(alloc, TEXT)?;
    for (at, bytes, place) in [
        (0, b"J".as_slice(), 0),
        (7, b"\x03".as_slice(), 4),
        (8, b"\xff\xff\xff\xff".as_slice(), 8),
        (10, b"\x08".as_slice(), 8),
        (11, b"\x02".as_slice(), 8),
        (12, b"\x0f".as_slice(), 12),
        (13, b"d".as_slice(), 12),
        (22, b"0A".as_slice(), 12),
        (29, b"\x01".as_slice(), 29),
        (36, b"\x01".as_slice(), 29),
        (37, b"\0".as_slice(), 37),
        (80, b"1".as_slice(), 69),
        (95, b"\x01".as_slice(), 88),
        (96, b"\0".as_slice(), 96),
        (129, b"d".as_slice(), 128),
        (142, b"\x17".as_slice(), 135),
        (139, b"\x04".as_slice(), 135),
        (143, b"\0".as_slice(), 143),
        (175, b"\xff\xff\xff\xff".as_slice(), 175),
        (178, b"\0".as_slice(), 175),
        (182, b"\x01".as_slice(), 179),
        (186, b"\x25".as_slice(), 183),
        (194, b"\x01".as_slice(), 187),
        (226, b"\0".as_slice(), 143),
    ] {
        let bad = changed(alloc, text.bytes(), at, bytes)?;
        assert_eq!(rt; place_of(alloc, bad.bytes()), Some(place));
    }
    Ok(())
}

#[test]
fn rows_of_version_2_are_read_by_their_rules(rt: HostRuntime) -> Result<(), Fail> {
    let alloc = rt.alloc();
    let text = hex_bytes(alloc, TEXT_2)?;
    let manifest = Manifest::decode(alloc, text.bytes())?;
    assert_eq!(rt; (manifest.version, manifest.chunks.len()), (2, 4));
    assert!(rt; manifest.encode(alloc)? == text);
    for (at, bytes, place) in [
        (7, b"\x01".as_slice(), 175),
        (7, b"\x03".as_slice(), 4),
        (178, b"\0".as_slice(), 175),
        (178, b"\x03".as_slice(), 275),
        (178, b"\x06".as_slice(), 175),
        (182, b"\x01\0\0\x10\0\0\0\0\0\0\0\0\0".as_slice(), 227),
        (185, b"\x10\x01".as_slice(), 183),
        (184, b"\0\0\0".as_slice(), 183),
        (192, b"\x18".as_slice(), 187),
        (192, b"\x20".as_slice(), 187),
        (192, b"\x10".as_slice(), 37),
        (231, b"\0\x10\0\0\0\0\0\0\0\0\0\0".as_slice(), 235),
        (240, b"\x10".as_slice(), 235),
        (278, b"\x02".as_slice(), 275),
        (326, b"\x01".as_slice(), 323),
        (330, b"\x25".as_slice(), 327),
        (370, b"\0".as_slice(), 143),
    ] {
        let bad = changed(alloc, text.bytes(), at, bytes)?;
        assert_eq!(rt; place_of(alloc, bad.bytes()), Some(place));
    }
    Ok(())
}

// The rows of a canister whose id has this last digit, with memories of this size.
fn canister_rows(out: &mut Writer, text: &[u8], digit: u8, size: u64) -> Result<(), Fail>
    requires { length text.now ≡ 227 }
{
    out.bytes(&text[12..23])?;
    out.u8(digit)?;
    out.bytes(&text[24..29])?;
    out.be64(size)?;
    out.bytes(&text[37..80])?;
    out.u8(digit)?;
    out.bytes(&text[81..88])?;
    out.be64(size)?;
    out.bytes(&text[96..128])?;
    Ok(())
}

// The text with these canisters.
fn with_canisters(alloc: Global, text: &[u8], digits: &[u8], size: u64) -> Result<Blob, Fail>
    requires { length text.now ≡ 227 }
{
    let files = 2 * digits.len().min(9) as u32;
    let mut out = Writer::new(alloc);
    out.bytes(&text[..8])?;
    out.be32(files + 1)?;
    for digit in digits {
        canister_rows(&mut out, text, *digit, size)?;
    }
    out.bytes(&text[128..179])?;
    out.be32(files)?;
    out.bytes(&text[183..])?;
    Ok(out.into_blob())
}

#[test]
fn canisters_stand_in_the_order_of_their_ids_and_fit_together(rt: HostRuntime) -> Result<(), Fail> {
    let alloc = rt.alloc();
    let text = hex_bytes(alloc, TEXT)?;
    assert_eq!(rt; text.bytes().len(), 227);
    for (version, digits, size, place) in [
        (1, b"01".as_slice(), 0, None),
        (1, b"10".as_slice(), 0, Some(128)),
        (1, b"00".as_slice(), 0, Some(128)),
        (1, b"0".as_slice(), 4096, Some(175)),
        (1, b"0".as_slice(), (1 << 28) + 4096, Some(29)),
        (1, b"012".as_slice(), 1 << 28, Some(261)),
        (2, b"01".as_slice(), 1 << 29, None),
        (2, b"0".as_slice(), (1 << 29) + 4096, Some(29)),
        (2, b"012".as_slice(), 1 << 29, Some(261)),
    ] {
        let text = changed(alloc, text.bytes(), 7, &[version])?;
        assert_eq!(rt; text.bytes().len(), 227);
        let other = with_canisters(alloc, text.bytes(), digits, size)?;
        assert_eq!(rt; place_of(alloc, other.bytes()), place);
    }
    let two = with_canisters(alloc, text.bytes(), b"01", 0)?;
    assert_eq!(rt; Manifest::decode(alloc, two.bytes())?.files.len(), 5);
    Ok(())
}

#[test]
fn a_meta_manifest_is_read_as_it_is_spelled(rt: HostRuntime) -> Result<(), Fail> {
    let alloc = rt.alloc();
    let text = hex_bytes(alloc, META)?;
    let meta = MetaManifest::decode(alloc, text.bytes())?.expect(&rt, "a meta-manifest");
    assert_eq!(rt; (meta.version, meta.pieces.len()), (1, 1));
    assert_eq!(rt; meta.encode(alloc)?.bytes(), text.bytes());
    assert_eq!(rt; hex_text(alloc, meta.root().bytes())?.bytes(), ROOT);
    for (version, count, size, is_one) in [
        (1, 1, 32, true),
        (1, 128, 4096, true),
        (1, 129, 4128, false),
        (1, 0, 0, false),
        (2, 1, 32, true),
        (3, 1, 32, false),
        (1, 1, 31, false),
        (1, 1, 33, false),
        (1, u32::MAX, 32, false),
    ] {
        let mut out = Writer::new(alloc);
        out.be32(version)?;
        out.be32(count)?;
        out.bytes(&vec![in alloc; 7; size]?)?;
        let other = out.into_blob();
        assert_eq!(rt;
            MetaManifest::decode(alloc, other.bytes())?.is_some(),
            is_one
        );
    }
    for length in 0..8 {
        let cut = text.bytes().get(..length).expect(&rt, "a text");
        assert!(rt; MetaManifest::decode(alloc, cut)?.is_none());
    }
    Ok(())
}
