use crate::{Answer, Ask, Content, Item, Known, Target, is_right};
use byte_codec::{Blob, Writer, hex_bytes};
use hash_domain::{Hash32, chunk_hash, piece_hash, plain_hash};
use manifest::{ChunkRow, Manifest, MetaManifest};
use std::alloc::Global;
use std::process::Abort;
use std::test::Fail;

// The state with one canister of no pages, by another program: its root hash, its meta-manifest, the one piece of its
// manifest, and the one chunk, which is its system text.
const ROOT: [u8; 32] =
    *b"\x0f\xe1\x6e\x5b\x4c\x20\xab\x89\x4f\x97\x62\xe8\x9f\xcd\x20\x8b\x78\x35\x38\xfa\x7d\xb1\x6d\x52\xa5\xc3\x8a\x02\x4f\x5b\x56\x4a";

const META: &[u8] =
    b"0000000100000001ea84ec1fe04772eceb82c9fcfaba880af1e9b8cccf4dba1eacddaf7b9feb37c4";

const PIECE: &[u8] =
    b"49434d4600000001000000031063616e69737465722f30302f686561700000000000000000981305d7c0b2ace0f53fe822f4075278fa28511e8c34e70f37fd8425af659b361263616e69737465722f30302f737461626c650000000000000000981305d7c0b2ace0f53fe822f4075278fa28511e8c34e70f37fd8425af659b360673797374656d0000000000000024c359767ab6d00db710d127e3561d1acf37c791b2dfbdd9fdef8ae6467cd01f2600000001000000020000002400000000000000005e5ee78e0168adc8ce3725d3977086008dee42b18eb5f5fa89afa0c63cf60265";

const CHUNK: &[u8] = b"494353590000000100000000000000000000000101000000000000000000000000000000";

// A height, a root hash of zeros, and what stands behind them.
fn message(alloc: Global, height: u64, behind: &[u8]) -> Result<Blob, Fail> {
    let mut text = Writer::new(alloc);
    text.be64(height)?;
    text.bytes(&[0; 32])?;
    text.bytes(behind)?;
    Ok(text.into_blob())
}

#[test]
fn asks_are_read_as_they_are_spelled(rt: HostRuntime) -> Result<(), Fail> {
    let alloc = rt.alloc();
    for (height, behind, item) in [
        (5, b"\x01\0\0\0\x02".as_slice(), Some(Item::Piece(2))),
        (1, b"\0\0\0\0\0".as_slice(), Some(Item::Meta)),
        (
            1 << 62,
            b"\x02\xff\xff\xff\xff".as_slice(),
            Some(Item::Chunk(u32::MAX)),
        ),
        (0, b"\x01\0\0\0\x02".as_slice(), None),
        ((1 << 62) + 1, b"\x01\0\0\0\x02".as_slice(), None),
        (5, b"\x03\0\0\0\x02".as_slice(), None),
        (5, b"\0\0\0\0\x01".as_slice(), None),
        (5, b"\x01\0\0\0".as_slice(), None),
        (5, b"\x01\0\0\0\x02\0".as_slice(), None),
    ] {
        let text = message(alloc, height, behind)?;
        let root = Hash32([0; 32]);
        let ask = item.map(|item| Ask {
            target: Target { height, root },
            item,
        });
        assert_eq!(rt; Ask::decode(text.bytes()), ask);
        if let Some(ask) = ask {
            assert_eq!(rt; ask.encode().as_slice(), text.bytes());
        }
    }
    Ok(())
}

// The answer with these bytes behind the ask for piece 2 is read as these bytes of the item, or as Gone.
fn check_answer(
    rt: &impl Abort,
    alloc: Global,
    behind: &[u8],
    want: Option<&[u8]>,
) -> Result<(), Fail> {
    let mut text = Writer::new(alloc);
    text.bytes(message(alloc, 5, b"\x01\0\0\0\x02")?.bytes())?;
    text.bytes(behind)?;
    let text = text.into_blob();
    let answer = Answer::decode(alloc, text.bytes())?.expect(rt, "an answer");
    assert_eq!(rt; answer.ask.item, Item::Piece(2));
    assert_eq!(rt; answer.encode(alloc)?.bytes(), text.bytes());
    match (&answer.content, want) {
        (Content::Gone, None) => {}
        (Content::Here(bytes), Some(want)) => assert_eq!(rt; bytes.bytes(), want),
        _ => panic!(rt; "another content"),
    }
    Ok(())
}

#[test]
fn answers_are_read_as_they_are_spelled(rt: HostRuntime) -> Result<(), Fail> {
    let alloc = rt.alloc();
    check_answer(&rt, alloc, b"\0", None)?;
    check_answer(&rt, alloc, b"\x01", Some(b"".as_slice()))?;
    check_answer(&rt, alloc, b"\x01\x07\x08", Some(b"\x07\x08".as_slice()))?;
    for (height, behind) in [
        (5, b"\x01\0\0\0\x02".as_slice()),
        (5, b"\x01\0\0\0\x02\0\x07".as_slice()),
        (5, b"\x01\0\0\0\x02\x02".as_slice()),
        (5, b"\x03\0\0\0\x02\0".as_slice()),
        (0, b"\x01\0\0\0\x02\0".as_slice()),
        (5, b"\x01\0".as_slice()),
    ] {
        let text = message(alloc, height, behind)?;
        assert!(rt; Answer::decode(alloc, text.bytes())?.is_none());
    }
    Ok(())
}

#[test]
fn an_answer_has_at_most_the_bytes_of_a_chunk(rt: HostRuntime) -> Result<(), Fail> {
    let alloc = rt.alloc();
    for (size, is_answer) in [(1_048_576, true), (1_048_577, false)] {
        let answer = Answer {
            ask: Ask {
                target: Target {
                    height: 1,
                    root: Hash32(ROOT),
                },
                item: Item::Chunk(0),
            },
            content: Content::Here(Blob::from_vec(vec![in alloc; 7; size]?)),
        };
        let text = answer.encode(alloc)?;
        assert_eq!(rt; text.bytes().len(), 46 + size);
        assert_eq!(rt; Answer::decode(alloc, text.bytes())?.is_some(), is_answer);
    }
    Ok(())
}

// The text of the item with this number alone is right, and only for that item.
fn check_known(rt: &impl Abort, known: Known, right: usize, texts: &[Blob]) {
    let items = [
        Item::Meta,
        Item::Piece(0),
        Item::Chunk(0),
        Item::Piece(1),
        Item::Chunk(1),
    ];
    for (number, item) in items.iter().enumerate() {
        for (place, text) in texts.iter().enumerate() {
            let is_it = number == right && place == right;
            assert_eq!(rt; is_right(known, *item, text.bytes()), is_it);
        }
    }
}

#[test]
fn the_items_of_a_state_are_right_each_for_itself(rt: HostRuntime) -> Result<(), Fail> {
    let alloc = rt.alloc();
    let root = Hash32(ROOT);
    let texts = [
        hex_bytes(alloc, META)?,
        hex_bytes(alloc, PIECE)?,
        hex_bytes(alloc, CHUNK)?,
    ];
    let meta = MetaManifest::decode(alloc, texts[0].bytes())?.expect(&rt, "a meta-manifest");
    let rows = Manifest::decode(alloc, texts[1].bytes())?;
    check_known(&rt, Known::Root(&root), 0, &texts);
    check_known(&rt, Known::Meta(&meta), 1, &texts);
    check_known(&rt, Known::Rows(&rows), 2, &texts);
    Ok(())
}

#[test]
fn a_meta_manifest_is_right_by_its_form_too(rt: HostRuntime) -> Result<(), Fail> {
    let alloc = rt.alloc();
    for (version, count, bytes, right) in [
        (1, 1, 32, true),
        (1, 128, 4096, true),
        (1, 129, 4128, false),
        (1, 0, 0, false),
        (2, 1, 32, false),
        (1, 1, 33, false),
        (1, 1, 31, false),
        (1, 2, 32, false),
    ] {
        let mut hashed = Writer::new(alloc);
        hashed.bytes(b"\x16ic-state-meta-manifest")?;
        hashed.be32(version)?;
        hashed.be32(count)?;
        hashed.bytes(&vec![in alloc; 7; bytes]?)?;
        let hashed = hashed.into_blob();
        let root = plain_hash(hashed.bytes());
        let text = hashed.bytes().get(23..).expect(&rt, "a text");
        assert_eq!(rt; is_right(Known::Root(&root), Item::Meta, text), right);
    }
    assert!(rt; !is_right(Known::Root(&Hash32(ROOT)), Item::Meta, b"\0\0\0\x01"));
    Ok(())
}

#[test]
fn pieces_and_chunks_are_right_by_their_size_too(rt: HostRuntime) -> Result<(), Fail> {
    let alloc = rt.alloc();
    for (size, first, last) in [
        (0, false, false),
        (1, false, true),
        (4095, false, true),
        (4096, true, true),
        (4097, false, false),
    ] {
        let bytes = vec![in alloc; 7; size]?;
        let pieces = vec![in alloc; piece_hash(&bytes); 2]?;
        let meta = MetaManifest { version: 1, pieces };
        let known = Known::Meta(&meta);
        assert_eq!(rt; is_right(known, Item::Piece(0), &bytes), first);
        assert_eq!(rt; is_right(known, Item::Piece(1), &bytes), last);
        let other = vec![in alloc; 8; size]?;
        assert!(rt; !is_right(known, Item::Piece(1), &other));
    }
    for (size, right) in [(35, false), (36, true), (37, false)] {
        let bytes = [7; 36];
        let hash = chunk_hash(&bytes);
        let row = ChunkRow {
            file: 0,
            size,
            offset: 0,
            hash,
        };
        let rows = Manifest {
            version: 1,
            files: Vec::new(alloc),
            chunks: Vec::from_array(alloc, [row])?,
        };
        assert!(rt; !is_right(Known::Rows(&rows), Item::Chunk(0), &[8; 36]));
        assert_eq!(rt; is_right(Known::Rows(&rows), Item::Chunk(0), &bytes), right);
    }
    Ok(())
}
