ghost use Rattle.std.specs.Prelude.{ℕ, ◌≢◌, ◌<◌, ◌^◌, IfOk, OnOk};
ghost use Rattle.page_delta.specs.Delta.{IsLive, Holds};

use crate::{DeltaId, Deltas};
use page_pool::PagePool;
use std::alloc::Global;
use std::process::Abort;
use std::test::Fail;

// A map with 40 pages, which are 1,000 apart. The byte and the stamp of each is its number among them.
fn forty_pages(alloc: Global, pool: &mut PagePool, deltas: &mut Deltas) -> Result<DeltaId, Fail>
    requires { Holds pool.old deltas.old }
    ensures live { IfOk result (λ id. IsLive deltas.new id) }
    ensures holds { OnOk result (Holds pool.new deltas.new) }
{
    let id = deltas.empty(alloc)?;
    for page in 0..40 {
        deltas.set(
            alloc,
            pool,
            id,
            page * 1000,
            &[page as u8; 4096],
            page as u64,
        )?;
    }
    Ok(id)
}

// The first byte of a page in a map, and its stamp.
fn read(deltas: &Deltas, pool: &PagePool, id: DeltaId, page: u32) -> Option<(u8, u64)>
    requires live { IsLive deltas.now id }
    requires holds { Holds pool.now deltas.now }
{
    let entry = deltas.get(id, page)?;
    Some((pool.page(entry.slot)[0], entry.stamp))
}

#[test]
fn a_fork_shares_its_pages(rt: HostRuntime) -> Result<(), Fail> {
    let alloc = rt.alloc();
    let mut pool = PagePool::new(alloc);
    let mut deltas = Deltas::new(alloc);
    let first = forty_pages(alloc, &mut pool, &mut deltas)?;
    let fork = deltas.fork(alloc, &mut pool, first)?;
    assert_eq!(rt; pool.used(), 40);
    deltas.set(alloc, &mut pool, fork, 7000, &[99; 4096], 50)?;
    assert_eq!(rt; pool.used(), 41);
    assert_eq!(rt; read(&deltas, &pool, first, 7000), Some((7, 7)));
    assert_eq!(rt; read(&deltas, &pool, fork, 7000), Some((99, 50)));
    assert_eq!(rt; read(&deltas, &pool, fork, 39_000), Some((39, 39)));
    deltas.drop_into(&mut pool, first);
    assert_eq!(rt; pool.used(), 40);
    deltas.drop_into(&mut pool, fork);
    assert_eq!(rt; pool.used(), 0);
    Ok(())
}

#[test]
fn what_is_newer_than_a_stamp_is_kept(rt: HostRuntime) -> Result<(), Fail> {
    let alloc = rt.alloc();
    let mut pool = PagePool::new(alloc);
    let mut deltas = Deltas::new(alloc);
    let first = forty_pages(alloc, &mut pool, &mut deltas)?;
    let pages = deltas.after(alloc, first, 37)?;
    assert_eq!(rt; pages.as_slice(), [38_000, 39_000].as_slice());
    let kept = deltas.keep_after(alloc, &mut pool, first, 37)?;
    assert_eq!(rt; deltas.pages(kept), 2);
    assert_eq!(rt; deltas.pages(first), 40);
    assert_eq!(rt; read(&deltas, &pool, kept, 39_000), Some((39, 39)));
    assert_eq!(rt; read(&deltas, &pool, kept, 37_000), None);
    assert_eq!(rt; pool.used(), 40);
    deltas.drop_into(&mut pool, first);
    assert_eq!(rt; pool.used(), 2);
    deltas.drop_into(&mut pool, kept);
    assert_eq!(rt; pool.used(), 0);
    Ok(())
}

// The pages of a map, each with its byte and its stamp.
type Plain = Vec<(u32, u8, u64)>;

// A map, and a plain one beside it.
#[derive(Drop)]
struct Twin {
    id: DeltaId,
    plain: Plain,
}

// The next number of a fixed sequence that looks random.
fn another(seed: &mut u32) -> u32 {
    *seed = seed.wrapping_mul(1_664_525).wrapping_add(1_013_904_223);
    *seed >> 16
}

// One of 60 pages, of which four each lie side by side.
fn page_of(number: u32) -> u32
    ensures { result < 2 ^ 20 }
{
    number % 15 * 70_000 + number / 15 % 4
}

// What a plain map has at a page.
fn plain_read(plain: &Plain, page: u32) -> Option<(u8, u64)> {
    for entry in plain.iter() {
        if entry.0 == page {
            return Some((entry.1, entry.2));
        }
    }
    None
}

// A page of a map gets a byte and a stamp, and so does that of a plain one.
fn set_page(
    alloc: Global,
    pool: &mut PagePool,
    deltas: &mut Deltas,
    id: DeltaId,
    plain: &mut Plain,
    seed: &mut u32,
) -> Result<(), Fail>
    requires live { IsLive deltas.old id }
    requires holds { Holds pool.old deltas.old }
    ensures live { OnOk result (IsLive deltas.new id) }
    ensures others { OnOk result ((other : ℕ) → other ≢ id → IsLive deltas.old other → IsLive deltas.new other) }
    ensures holds { OnOk result (Holds pool.new deltas.new) }
{
    let page = page_of(another(seed));
    let byte = (another(seed) % 256) as u8;
    let stamp = (another(seed) % 100) as u64;
    deltas.set(alloc, pool, id, page, &[byte; 4096], stamp)?;
    plain.retain(|entry| entry.0 != page);
    plain.push((page, byte, stamp))?;
    Ok(())
}

// A fork of one map takes the place of another.
fn fork_over(
    alloc: Global,
    pool: &mut PagePool,
    deltas: &mut Deltas,
    id: DeltaId,
    source: DeltaId,
) -> Result<DeltaId, Fail>
    requires live { IsLive deltas.old id }
    requires source { IsLive deltas.old source }
    requires holds { Holds pool.old deltas.old }
    ensures live { IfOk result (λ fork. IsLive deltas.new fork) }
    ensures others { OnOk result ((other : ℕ) → other ≢ id → IsLive deltas.old other → IsLive deltas.new other) }
    ensures holds { OnOk result (Holds pool.new deltas.new) }
{
    let fork = deltas.fork(alloc, pool, source)?;
    deltas.drop_into(pool, id);
    Ok(fork)
}

// What is newer than a stamp in one map takes the place of another.
fn keep_over(
    alloc: Global,
    pool: &mut PagePool,
    deltas: &mut Deltas,
    id: DeltaId,
    source: DeltaId,
    b: u64,
) -> Result<DeltaId, Fail>
    requires live { IsLive deltas.old id }
    requires source { IsLive deltas.old source }
    requires holds { Holds pool.old deltas.old }
    ensures live { IfOk result (λ kept. IsLive deltas.new kept) }
    ensures others { OnOk result ((other : ℕ) → other ≢ id → IsLive deltas.old other → IsLive deltas.new other) }
    ensures holds { OnOk result (Holds pool.new deltas.new) }
{
    let kept = deltas.keep_after(alloc, pool, source, b)?;
    deltas.drop_into(pool, id);
    Ok(kept)
}

// An empty map.
fn empty_twin(alloc: Global, pool: &PagePool, deltas: &mut Deltas) -> Result<Twin, Fail>
    requires { Holds pool.now deltas.old }
    ensures live { IfOk result (λ twin. IsLive deltas.new twin.id) }
    ensures others { OnOk result ((other : ℕ) → IsLive deltas.old other → IsLive deltas.new other) }
    ensures holds { OnOk result (Holds pool.now deltas.new) }
{
    let _used = pool.used();
    let id = deltas.empty(alloc)?;
    Ok(Twin {
        id,
        plain: Vec::new(alloc),
    })
}

// A call on a map, and the same on its plain one. Another map may take its place.
fn turn(
    alloc: Global,
    pool: &mut PagePool,
    deltas: &mut Deltas,
    twin: Twin,
    source: &Twin,
    seed: &mut u32,
) -> Result<Twin, Fail>
    requires live { IsLive deltas.old twin.id }
    requires source { IsLive deltas.old source.now.id }
    requires holds { Holds pool.old deltas.old }
    ensures live { IfOk result (λ now. IsLive deltas.new now.id) }
    ensures others { OnOk result ((other : ℕ) → other ≢ twin.id → IsLive deltas.old other → IsLive deltas.new other) }
    ensures holds { OnOk result (Holds pool.new deltas.new) }
{
    let id = twin.id;
    match another(seed) % 16 {
        0 => {
            let plain = source.plain.clone()?;
            let id = fork_over(alloc, pool, deltas, id, source.id)?;
            Ok(Twin { id, plain })
        }
        1 => {
            let b = (another(seed) % 50) as u64;
            let mut plain = source.plain.clone()?;
            plain.retain(|entry| entry.2 > b);
            let id = keep_over(alloc, pool, deltas, id, source.id, b)?;
            Ok(Twin { id, plain })
        }
        _ => {
            let mut plain = twin.plain;
            set_page(alloc, pool, deltas, id, &mut plain, seed)?;
            Ok(Twin { id, plain })
        }
    }
}

// A map has the pages of its plain one.
fn compare(rt: &impl Abort, pool: &PagePool, deltas: &Deltas, twin: &Twin)
    requires live { IsLive deltas.now twin.now.id }
    requires holds { Holds pool.now deltas.now }
{
    assert!(rt; deltas.pages(twin.id) as usize == twin.plain.len());
    for number in 0..60 {
        let page = page_of(number);
        let found = read(deltas, pool, twin.id, page);
        assert_eq!(rt; found, plain_read(&twin.plain, page));
    }
}

#[test]
fn a_thousand_calls_answer_as_plain_maps(rt: HostRuntime) -> Result<(), Fail> {
    let alloc = rt.alloc();
    let mut pool = PagePool::new(alloc);
    let mut deltas = Deltas::new(alloc);
    let mut first = empty_twin(alloc, &pool, &mut deltas)?;
    let mut second = empty_twin(alloc, &pool, &mut deltas)?;
    let mut third = empty_twin(alloc, &pool, &mut deltas)?;
    let mut seed = 1;
    for _turn in 0..1_000 {
        assert!(rt; second.id != first.id);
        assert!(rt; third.id != first.id);
        let now = turn(alloc, &mut pool, &mut deltas, first, &second, &mut seed)?;
        first = second;
        second = third;
        third = now;
        compare(&rt, &pool, &deltas, &first);
        compare(&rt, &pool, &deltas, &second);
        compare(&rt, &pool, &deltas, &third);
    }
    Ok(())
}
