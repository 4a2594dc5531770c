use crate::{HashTree, StateTree, reconstruct};
use byte_codec::{Blob, hex_text};
use hash_domain::Hash32;
use std::alloc::Global;
use std::process::Abort;
use std::test::Fail;
use sys_state::{CanisterId, Path, SysState};

fn has_hash(rt: &impl Abort, alloc: Global, hash: Hash32, hex: &[u8]) -> Result<(), Fail> {
    assert_eq!(rt; hex_text(alloc, hash.bytes())?.bytes(), hex);
    Ok(())
}

fn labeled(alloc: Global, label: &[u8], below: HashTree) -> Result<HashTree, Fail> {
    Ok(HashTree::labeled(alloc, Blob::from_slice(alloc, label)?, below)?)
}

fn leaf(alloc: Global, label: &[u8], bytes: &[u8]) -> Result<HashTree, Fail> {
    let leaf = HashTree::Leaf(Blob::from_slice(alloc, bytes)?);
    labeled(alloc, label, leaf)
}

fn fork(alloc: Global, left: HashTree, right: HashTree) -> Result<HashTree, Fail> {
    Ok(HashTree::fork(alloc, left, right)?)
}

// The example of the Interface Specification, "Certification", from its parts at `x`, `b` and `c`.
fn example(alloc: Global, x: HashTree, b: HashTree, c: HashTree) -> Result<HashTree, Fail> {
    let a = fork(alloc, x, leaf(alloc, b"y", b"world")?)?;
    let left = fork(alloc, labeled(alloc, b"a", a)?, b)?;
    let right = fork(alloc, c, leaf(alloc, b"d", b"morning")?)?;
    fork(alloc, left, right)
}

// The root and the hashes of the pruned tree are those of the Interface Specification.
#[test]
fn the_published_example(rt: HostRuntime) -> Result<(), Fail> {
    let alloc = rt.alloc();
    let want = b"eb5c5b2195e62d996b84c9bcc8259d19a83786a2f59e0878cec84c811f669aa0";
    let whole = example(
        alloc,
        fork(alloc, leaf(alloc, b"x", b"hello")?, HashTree::Empty)?,
        leaf(alloc, b"b", b"good")?,
        labeled(alloc, b"c", HashTree::Empty)?,
    )?;
    has_hash(&rt, alloc, reconstruct(&whole), want)?;
    let pruned = example(
        alloc,
        HashTree::Pruned(Hash32(
            *b"\x1b\x4f\xef\xf9\xbe\xf8\x13\x17\x88\xb0\xc9\xdc\x6d\xba\xd6\xe8\x1e\x52\x42\x49\xc8\x79\xe9\xf1\x0f\x71\xce\x37\x49\xf5\xa6\x38",
        )),
        labeled(
            alloc,
            b"b",
            HashTree::Pruned(Hash32(
                *b"\x7b\x32\xac\x0c\x6b\xa8\xce\x35\xac\x82\xc2\x55\xfc\x79\x06\xf7\xfc\x13\x0d\xab\x2a\x09\x0f\x80\xfe\x12\xf9\xc2\xca\xe8\x3b\xa6",
            )),
        )?,
        HashTree::Pruned(Hash32(
            *b"\xec\x83\x24\xb8\xa1\xf1\xac\x16\xbd\x2e\x80\x6e\xdb\xa7\x80\x06\x47\x9c\x98\x77\xfe\xd4\xeb\x46\x4a\x25\x48\x54\x65\xaf\x60\x1d",
        )),
    )?;
    has_hash(&rt, alloc, reconstruct(&pruned), want)
}

fn id(bytes: &[u8]) -> Result<CanisterId, Fail> {
    Ok(CanisterId::new(bytes).ok_or("no id")?)
}

fn put(alloc: Global, state: &mut SysState, text: &[u8]) -> Result<(), Fail> {
    let mut labels = Vec::new(alloc);
    for label in text.split(|byte| *byte == b'/') {
        labels.push(Blob::from_slice(alloc, label)?)?;
    }
    let path = Path::new(labels).ok_or("no path")?;
    Ok(state.put(alloc, path, Blob::from_slice(alloc, &[5])?)?)
}

// The tree, built and made anew, has this hash.
fn has_root(
    rt: &impl Abort,
    alloc: Global,
    state: &SysState,
    kept: &mut StateTree,
    hex: &[u8],
) -> Result<(), Fail> {
    let tree = StateTree::build(alloc, state)?;
    has_hash(rt, alloc, tree.root(), hex)?;
    has_hash(rt, alloc, reconstruct(tree.tree()), hex)?;
    kept.update(alloc, state)?;
    has_hash(rt, alloc, kept.root(), hex)
}

// The roots are those of another program.
#[test]
fn roots_are_those_of_another_program(rt: HostRuntime) -> Result<(), Fail> {
    let alloc = rt.alloc();
    let mut state = SysState::new(alloc);
    let mut kept = StateTree::build(alloc, &state)?;
    has_root(
        &rt,
        alloc,
        &state,
        &mut kept,
        b"6eef215e101fcb2be0e21bc179ed6beeacf91142af5b307734a71a665dc8cfc8",
    )?;
    state.create(alloc, id(&[0])?, 1)?;
    has_root(
        &rt,
        alloc,
        &state,
        &mut kept,
        b"0aebdd276407013fa06d6733e19aa11eaec20b1cbcb05cfad122249eb915c531",
    )?;
    state.set_module(&id(&[0])?, Some(Blob::from_slice(alloc, b"abc")?))?;
    state.set_time(300);
    put(alloc, &mut state, b"subnet/x")?;
    has_root(
        &rt,
        alloc,
        &state,
        &mut kept,
        b"37e68b7089bdefdcd360b5fa8c5c46d1ddfb15eb072c6a43049f5a74360a7b54",
    )
}

const PATHS: [&[u8]; 10] = [
    b"z",
    b"a/b/c",
    b"time1/b",
    b"a/b/d",
    b"d/e/f/g/h/i/j/k",
    b"a/bb",
    b"time1/c",
    b"canisters/x",
    b"b",
    b"time1/a",
];

#[test]
fn entries_stand_round_canisters_and_time(rt: HostRuntime) -> Result<(), Fail> {
    let alloc = rt.alloc();
    let mut state = SysState::new(alloc);
    let mut kept = StateTree::build(alloc, &state)?;
    for path in PATHS {
        put(alloc, &mut state, path)?;
    }
    has_root(
        &rt,
        alloc,
        &state,
        &mut kept,
        b"8d507ace7ba49185d329ba441fd5e150aeba013e50f37d767b3e7fbc1500fdee",
    )?;
    for i in 0..5u8 {
        let canister = id(&[i])?;
        state.create(alloc, canister.copy(), 1)?;
        let certified = [7; 4];
        state.set_certified(
            &canister,
            Blob::from_slice(alloc, &certified[..i as usize])?,
        )?;
        if i % 2 == 1 {
            state.set_module(&canister, Some(Blob::from_slice(alloc, b"abc")?))?;
        }
    }
    state.set_time(u64::MAX);
    has_root(
        &rt,
        alloc,
        &state,
        &mut kept,
        b"071fffc913c4d99d008cabbe8fce144d3b379e387be4c3edcfe416fdff97e5a4",
    )
}
