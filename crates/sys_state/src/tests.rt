ghost use Rattle.std.specs.Prelude.{◌≤◌, IsTrue};
ghost use Rattle.format_spec.specs.Versions.{is_version};

use crate::{CanisterId, Mem, Path, SysError, SysState};
use byte_codec::{Blob, hex_bytes, hex_text};
use std::alloc::Global;
use std::process::Abort;
use std::test::Fail;

fn id(bytes: &[u8]) -> Result<CanisterId, Fail> {
    Ok(CanisterId::new(bytes).ok_or("no id")?)
}

// The path of the labels between slashes.
fn path(alloc: Global, text: &[u8]) -> Result<Option<Path>, Fail> {
    let mut labels = Vec::new(alloc);
    for label in text.split(|byte| *byte == b'/') {
        labels.push(Blob::from_slice(alloc, label)?)?;
    }
    Ok(Path::new(labels))
}

fn put(alloc: Global, state: &mut SysState, text: &[u8]) -> Result<Option<SysError>, Fail> {
    let path = path(alloc, text)?.ok_or("no path")?;
    Ok(state.put(alloc, path, Blob::from_slice(alloc, &[5])?).err())
}

fn spells(rt: &impl Abort, alloc: Global, state: &SysState, hex: &[u8]) -> Result<(), Fail> {
    let text = state.encode(alloc)?;
    assert_eq!(rt; hex_text(alloc, text.bytes())?.bytes(), hex);
    Ok(())
}

// The same state, copied or read from its text, has the same text.
fn reads_back(rt: &impl Abort, alloc: Global, state: &SysState) -> Result<(), Fail> {
    let text = state.encode(alloc)?;
    let again = SysState::decode(alloc, text.bytes(), 9, 1)?;
    assert!(rt; again.encode(alloc)? == text);
    assert!(rt; state.copy(alloc)?.encode(alloc)? == text);
    Ok(())
}

// The place where these bytes are no system text.
fn bad_place(alloc: Global, bytes: &[u8]) -> Option<u64> {
    match SysState::decode(alloc, bytes, 9, 1) {
        Err(SysError::BadSystem(place)) => Some(place),
        _ => None,
    }
}

// A text with these bytes in place of those from one offset up to another.
fn spoiled(
    alloc: Global,
    text: &[u8],
    from: usize,
    to: usize,
    with: &[u8],
) -> Result<Vec<u8>, Fail> {
    let mut bytes = Vec::new(alloc);
    bytes.extend_from_slice(text.get(..from).ok_or("from")?)?;
    bytes.extend_from_slice(with)?;
    bytes.extend_from_slice(text.get(to..).ok_or("to")?)?;
    Ok(bytes)
}

// Where the field begins that has the byte at this offset of the text of all fields.
fn field_of(offset: usize) -> u64 {
    let mut field = 0;
    for start in [4, 8, 16, 20, 22, 30, 33, 37, 41, 45, 55] {
        if start <= offset {
            field = start as u64;
        }
    }
    field
}

const ALL_FIELDS: &[u8] =
    b"4943535900000001000000000000012c000000010100010000000361626302070800000000000000000000000102067375626e65740178000105";

#[test]
fn ids_have_1_to_29_bytes(rt: HostRuntime) {
    assert!(rt; CanisterId::new(&[]).is_none());
    assert!(rt; CanisterId::new(&[7; 29]).is_some());
    assert!(rt; CanisterId::new(&[7; 30]).is_none());
}

// As many canisters as may be, of ids of two bytes.
fn many_canisters(alloc: Global) -> Result<SysState, Fail> {
    let mut state = SysState::new(alloc);
    for i in 0..1024 {
        let number: u16 = i;
        state.create(alloc, id(&number.to_be_bytes())?, 3)?;
    }
    Ok(state)
}

#[test]
fn a_canister_too_many_is_refused(rt: HostRuntime) -> Result<(), Fail> {
    let alloc = rt.alloc();
    let mut state = many_canisters(alloc)?;
    let more = state.create(alloc, id(&[7; 29])?, 3);
    assert_eq!(rt; more, Err(SysError::ManyCanisters));
    let again = state.create(alloc, id(&[1, 0])?, 3);
    assert_eq!(rt; again, Err(SysError::Exists));
    reads_back(&rt, alloc, &state)
}

#[test]
fn canisters_are_found_by_their_ids(rt: HostRuntime) -> Result<(), Fail> {
    let alloc = rt.alloc();
    let mut state = many_canisters(alloc)?;
    let first = id(&[1, 0])?;
    assert_eq!(rt; state.place(&first), Ok(256));
    assert_eq!(rt; state.place(&id(&[1, 0, 0])?), Err(257));
    let (found, _) = state.canister_at(256).ok_or("no canister")?;
    assert!(rt; *found == first);
    state.remove(&first)?;
    assert_eq!(rt; state.remove(&first), Err(SysError::NoCanister));
    state.create(alloc, id(&[7; 29])?, 4)?;
    reads_back(&rt, alloc, &state)
}

// A state of three canisters with all the pages that it may have in this version, where a memory may have so many.
fn full_state(rt: &impl Abort, alloc: Global, version: u32, most: u64) -> Result<SysState, Fail>
    requires version { IsTrue (is_version version) }
    requires most { most ≤ 131072 }
{
    let mut state = SysState::new(alloc);
    for i in 0..3 {
        state.create(alloc, id(&[i])?, 1)?;
    }
    let cases = [
        (3, Mem::Heap, 0, Some(SysError::NoCanister)),
        (0, Mem::Heap, most + 1, Some(SysError::MemoryFull)),
        (0, Mem::Heap, u64::MAX, Some(SysError::MemoryFull)),
        (0, Mem::Heap, 1, None),
        (0, Mem::Heap, most.saturating_sub(1), None),
        (0, Mem::Heap, 1, Some(SysError::MemoryFull)),
        (0, Mem::Stable, most, None),
        (1, Mem::Heap, most, None),
        (1, Mem::Stable, most, None),
        (2, Mem::Heap, most + 1, Some(SysError::MemoryFull)),
        (2, Mem::Heap, 1, Some(SysError::StateFull)),
        (2, Mem::Heap, 0, None),
    ];
    for (canister, mem, pages, want) in cases {
        assert_eq!(rt;
            state.extend(&id(&[canister])?, mem, pages, version).err(),
            want
        );
    }
    Ok(state)
}

#[test]
fn pages_within_the_limits_of_version_1(rt: HostRuntime) -> Result<(), Fail> {
    let alloc = rt.alloc();
    let mut state = full_state(&rt, alloc, 1, 65_536)?;
    reads_back(&rt, alloc, &state)?;
    state.remove(&id(&[1])?)?;
    state.extend(&id(&[2])?, Mem::Stable, 65_536, 1)?;
    let record = state.canister(&id(&[2])?).ok_or("no canister")?;
    assert_eq!(rt;
        (record.pages(Mem::Heap), record.pages(Mem::Stable)),
        (0, 65_536)
    );
    Ok(())
}

#[test]
fn pages_within_the_limits_of_version_2(rt: HostRuntime) -> Result<(), Fail> {
    let alloc = rt.alloc();
    let text = full_state(&rt, alloc, 2, 131_072)?.encode(alloc)?;
    let again = SysState::decode(alloc, text.bytes(), 9, 2)?;
    assert!(rt; again.encode(alloc)? == text);
    assert_eq!(rt; bad_place(alloc, text.bytes()), Some(24));
    let more = spoiled(alloc, text.bytes(), 48, 52, &[0, 0, 0, 1])?;
    assert_eq!(rt;
        SysState::decode(alloc, &more, 9, 2).err(),
        Some(SysError::BadSystem(48))
    );
    let larger = spoiled(alloc, text.bytes(), 24, 28, &[0, 2, 0, 1])?;
    assert_eq!(rt;
        SysState::decode(alloc, &larger, 9, 2).err(),
        Some(SysError::BadSystem(24))
    );
    Ok(())
}

#[test]
fn page_counts_are_read_by_the_limits_of_version_1(rt: HostRuntime) -> Result<(), Fail> {
    let alloc = rt.alloc();
    let text = full_state(&rt, alloc, 1, 65_536)?.encode(alloc)?;
    let more = spoiled(alloc, text.bytes(), 48, 52, &[0, 0, 0, 1])?;
    assert_eq!(rt; bad_place(alloc, &more), Some(48));
    let larger = spoiled(alloc, text.bytes(), 24, 28, &[0, 1, 0, 1])?;
    assert_eq!(rt; bad_place(alloc, &larger), Some(24));
    Ok(())
}

#[test]
fn paths_have_1_to_8_labels_of_1_to_64_bytes(rt: HostRuntime) -> Result<(), Fail> {
    let alloc = rt.alloc();
    for text in [b"".as_slice(), b"a/b/c/d/e/f/g/h/i", b"a//b", &[7; 65]] {
        assert!(rt; path(alloc, text)?.is_none());
    }
    for text in [b"a/b/c/d/e/f/g/h".as_slice(), &[7; 64]] {
        assert!(rt; path(alloc, text)?.is_some());
    }
    Ok(())
}

// Puts a value at each path, which is answered this.
fn check_puts(
    rt: &impl Abort,
    alloc: Global,
    state: &mut SysState,
    texts: &[&[u8]],
    want: Option<SysError>,
) -> Result<(), Fail> {
    for text in texts {
        assert_eq!(rt; put(alloc, state, text)?, want);
    }
    Ok(())
}

// A state with some entries.
fn with_entries(rt: &impl Abort, alloc: Global) -> Result<SysState, Fail> {
    let mut state = SysState::new(alloc);
    let longest = b"0123456789012345678901234567890123456789012345678901234567890123";
    let texts: [&[u8]; 6] = [
        b"subnet/a",
        b"subneta",
        b"s/ubnet",
        b"subnet/0",
        b"timer/time",
        longest,
    ];
    check_puts(rt, alloc, &mut state, &texts, None)?;
    Ok(state)
}

#[test]
fn entries_stand_apart(rt: HostRuntime) -> Result<(), Fail> {
    let alloc = rt.alloc();
    let mut state = with_entries(&rt, alloc)?;
    let within: [&[u8]; 2] = [b"subnet", b"subnet/a/b"];
    check_puts(
        &rt,
        alloc,
        &mut state,
        &within,
        Some(SysError::PathConflict),
    )?;
    let reserved: [&[u8]; 2] = [b"time", b"canister/x"];
    check_puts(&rt, alloc, &mut state, &reserved, Some(SysError::Reserved))?;
    let (third, value) = state.entry(2).ok_or("no entry")?;
    assert!(rt; *third == path(alloc, b"subnet/0")?.ok_or("no path")?);
    assert_eq!(rt; value.bytes(), [5].as_slice());
    reads_back(&rt, alloc, &state)
}

#[test]
fn an_entry_is_deleted_once(rt: HostRuntime) -> Result<(), Fail> {
    let alloc = rt.alloc();
    let mut state = with_entries(&rt, alloc)?;
    let gone = path(alloc, b"subnet/a")?.ok_or("no path")?;
    assert_eq!(rt; state.del(&gone).err(), None);
    assert_eq!(rt; state.del(&gone).err(), Some(SysError::NoPath));
    let still = put(alloc, &mut state, b"subnet")?;
    assert_eq!(rt; still, Some(SysError::PathConflict));
    reads_back(&rt, alloc, &state)
}

#[test]
fn as_many_entries_as_may_be(rt: HostRuntime) -> Result<(), Fail> {
    let alloc = rt.alloc();
    let mut state = SysState::new(alloc);
    for i in 0..16_384 {
        let number: u16 = i;
        let label = Blob::from_slice(alloc, &number.to_be_bytes())?;
        let mut labels = Vec::new(alloc);
        labels.push(label)?;
        let path = Path::new(labels).ok_or("no path")?;
        state.put(alloc, path, Blob::from_slice(alloc, &[5])?)?;
    }
    let cases = [
        (b"x".as_slice(), Some(SysError::TreeFull)),
        (b"\x00a/x", Some(SysError::PathConflict)),
        (b"\x00a", None),
    ];
    for (text, want) in cases {
        assert_eq!(rt; put(alloc, &mut state, text)?, want);
    }
    reads_back(&rt, alloc, &state)
}

#[test]
fn an_empty_state_is_spelled(rt: HostRuntime) -> Result<(), Fail> {
    let alloc = rt.alloc();
    let hex = b"494353590000000100000000000000000000000000000000";
    spells(&rt, alloc, &SysState::new(alloc), hex)
}

// A state in which each field of the text has a value.
fn with_all_fields(alloc: Global, canister: &CanisterId) -> Result<SysState, Fail> {
    let mut state = SysState::new(alloc);
    state.create(alloc, canister.copy(), 1)?;
    state.set_time(300);
    state.set_module(canister, Some(Blob::from_slice(alloc, b"abc")?))?;
    state.set_certified(canister, Blob::from_slice(alloc, &[7, 8])?)?;
    put(alloc, &mut state, b"subnet/x")?;
    Ok(state)
}

#[test]
fn all_fields_are_spelled(rt: HostRuntime) -> Result<(), Fail> {
    let alloc = rt.alloc();
    let canister = id(&[0])?;
    let mut state = with_all_fields(alloc, &canister)?;
    spells(&rt, alloc, &state, ALL_FIELDS)?;
    state.set_module(&canister, None)?;
    reads_back(&rt, alloc, &state)
}

#[test]
fn a_canister_that_is_absent_has_no_module_and_no_data(rt: HostRuntime) -> Result<(), Fail> {
    let alloc = rt.alloc();
    let mut state = SysState::new(alloc);
    let absent = id(&[1])?;
    let module = state.set_module(&absent, None);
    assert_eq!(rt; module, Err(SysError::NoCanister));
    let certified = state.set_certified(&absent, Blob::from_slice(alloc, &[])?);
    assert_eq!(rt; certified, Err(SysError::NoCanister));
    Ok(())
}

#[test]
fn a_page_is_spelled_and_read(rt: HostRuntime) -> Result<(), Fail> {
    let alloc = rt.alloc();
    let mut state = SysState::new(alloc);
    let canister = id(&[0])?;
    state.create(alloc, canister.copy(), 1)?;
    state.extend(&canister, Mem::Heap, 1, 1)?;
    let hex = b"494353590000000100000000000000000000000101000000000000010000000000000000";
    spells(&rt, alloc, &state, hex)?;
    let again = SysState::decode(alloc, hex_bytes(alloc, hex)?.bytes(), 12, 1)?;
    let record = again.canister(&canister).ok_or("no canister")?;
    assert_eq!(rt; (record.birth, record.heap), (12, 1));
    Ok(())
}

#[test]
fn a_cut_text_is_bad_at_the_field_that_is_cut(rt: HostRuntime) -> Result<(), Fail> {
    let alloc = rt.alloc();
    let text = hex_bytes(alloc, ALL_FIELDS)?;
    for end in 0..58 {
        let cut = text.bytes().get(..end).ok_or("end")?;
        assert_eq!(rt; bad_place(alloc, cut), Some(field_of(end)));
    }
    Ok(())
}

#[test]
fn the_first_bad_field_is_named(rt: HostRuntime) -> Result<(), Fail> {
    let alloc = rt.alloc();
    let text = hex_bytes(alloc, ALL_FIELDS)?;
    let cases = [
        (3, 4, b"X".as_slice(), 0),
        (7, 8, b"\x02", 4),
        (18, 20, b"\x04\x01", 16),
        (20, 22, b"\x00", 20),
        (20, 21, &[30; 30], 20),
        (22, 23, b"\x02", 22),
        (23, 30, b"\x00\x00\x40\x01", 22),
        (30, 33, &[33; 34], 30),
        (33, 37, b"\x00\x01\x00\x01", 33),
        (37, 41, b"\x00\x01\x00\x01", 37),
        (43, 45, b"\x40\x01", 41),
        (45, 55, b"\x00", 45),
        (
            45,
            55,
            b"\x09\x01a\x01a\x01a\x01a\x01a\x01a\x01a\x01a\x01a",
            45,
        ),
        (45, 55, b"\x01\x00", 45),
        (45, 55, b"\x01\x04time", 45),
        (46, 55, &[65; 67], 45),
        (55, 57, b"\x04\x01", 55),
        (58, 58, b"\x00", 58),
    ];
    for (from, to, with, place) in cases {
        let bytes = spoiled(alloc, text.bytes(), from, to, with)?;
        assert_eq!(rt; bad_place(alloc, &bytes), Some(place));
    }
    Ok(())
}

// The text of these digits is bad at this place.
fn check_bad(rt: &impl Abort, alloc: Global, hex: &[u8], place: u64) -> Result<(), Fail> {
    let text = hex_bytes(alloc, hex)?;
    assert_eq!(rt; bad_place(alloc, text.bytes()), Some(place));
    Ok(())
}

#[test]
fn entries_stand_in_the_order_of_their_keys(rt: HostRuntime) -> Result<(), Fail> {
    let alloc = rt.alloc();
    let canisters =
        b"494353590000000100000000000000000000000201000000000000010000000001000000000000010000000000000000";
    check_bad(&rt, alloc, canisters, 32)?;
    let paths = b"494353590000000100000000000000000000000000000002010161000002016101620000";
    check_bad(&rt, alloc, paths, 29)
}
