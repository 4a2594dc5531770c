ghost use Rattle.std.specs.Prelude.{◌≡◌, ◌≤◌, ◌<◌, vec_len};
ghost use Rattle.format_spec.specs.declared.limits.TheConstants.{MAX_PEERS};

use crate::*;
use std::alloc::Global;
use std::process::Abort;
use std::test::Fail;
use sync_plan::Item;

// A core that misses so many chunks.
fn core_of_chunks(rt: &impl Abort, alloc: Global, peers: u32, count: u32) -> Result<SyncCore, Fail>
    requires { peers ≤ MAX_PEERS }
{
    let mut core = SyncCore::begin(alloc, peers)?;
    assert_eq!(rt; core.deliver(0, Some(Item::Meta), true), Heard::Took);
    assert_eq!(rt; core.missing(), 0);
    core.set_chunks(alloc, count, &[])?;
    Ok(core)
}

// So many turns begin.
fn turns(rt: &impl Abort, core: &mut SyncCore, count: u32) {
    for _ in 0..count {
        assert!(rt; core.turns() < 1_000_000);
        core.turn();
    }
}

// The ask that is due goes out.
fn ask(core: &mut SyncCore) -> Option<(u32, Item)> {
    let (peer, item) = core.asks()?;
    core.sent(peer, item);
    Some((peer, item))
}

#[test]
fn items_are_asked_for_in_order(rt: HostRuntime) -> Result<(), Fail> {
    let mut core = core_of_chunks(&rt, rt.alloc(), 1, 6)?;
    turns(&rt, &mut core, 1);
    for chunk in 0..4 {
        assert_eq!(rt; ask(&mut core), Some((0, Item::Chunk(chunk))));
    }
    assert_eq!(rt; ask(&mut core), None);
    assert_eq!(rt; core.deliver(0, Some(Item::Chunk(5)), true), Heard::Took);
    assert_eq!(rt; core.missing(), 5);
    assert_eq!(rt; core.deliver(0, Some(Item::Chunk(5)), true), Heard::Late);
    assert_eq!(rt; core.deliver(0, Some(Item::Chunk(0)), false), Heard::Wrong);
    assert_eq!(rt; ask(&mut core), Some((0, Item::Chunk(0))));
    assert_eq!(rt; core.deliver(7, Some(Item::Chunk(4)), true), Heard::Took);
    assert_eq!(rt; core.deliver(7, Some(Item::Piece(1)), true), Heard::Late);
    assert_eq!(rt; core.deliver(7, None, false), Heard::Wrong);
    assert_eq!(rt; core.missing(), 4);
    Ok(())
}

#[test]
fn old_asks_are_given_up(rt: HostRuntime) -> Result<(), Fail> {
    let mut core = core_of_chunks(&rt, rt.alloc(), 2, 6)?;
    turns(&rt, &mut core, 1);
    for _ in 0..6 {
        assert!(rt; ask(&mut core).is_some());
    }
    turns(&rt, &mut core, 63);
    assert_eq!(rt; ask(&mut core), None);
    turns(&rt, &mut core, 1);
    // Four strikes are three, and those of the other peer are two.
    assert_eq!(rt; core.asks(), Some((1, Item::Chunk(0))));
    assert_eq!(rt; core.deliver(0, Some(Item::Chunk(0)), true), Heard::Took);
    core.unsent(1);
    assert_eq!(rt; core.asks(), None);
    turns(&rt, &mut core, 1);
    assert_eq!(rt; ask(&mut core), Some((0, Item::Chunk(1))));
    Ok(())
}

// The next number of a fixed sequence that looks random.
fn another(seed: &mut u32) -> u32 {
    *seed = seed.wrapping_mul(1_664_525).wrapping_add(1_013_904_223);
    *seed >> 16
}

// A plain core of 1,000 chunks and 16 peers.
#[derive(Drop)]
struct Plain {
    had: Vec<bool>,
    asks: Vec<Option<(u32, u64)>>,
    strikes: Vec<u32>,
    turn: u64,
}

impl Plain {
    fn new(alloc: Global) -> Result<Plain, Fail> {
        Ok(Plain {
            had: vec![in alloc; false; 1_000]?,
            asks: vec![in alloc; None; 1_000]?,
            strikes: vec![in alloc; 0; 16]?,
            turn: 0,
        })
    }

    fn check(&self, rt: &impl Abort)
        ensures had { vec_len self.now.had ≡ 1000 }
        ensures asks { vec_len self.now.asks ≡ 1000 }
        ensures strikes { vec_len self.now.strikes ≡ 16 }
        ensures turn { self.now.turn < 1000000 }
    {
        assert!(rt; self.had.len() == 1_000);
        assert!(rt; self.asks.len() == 1_000);
        assert!(rt; self.strikes.len() == 16);
        assert!(rt; self.turn < 1_000_000);
    }

    fn strike(&mut self, rt: &impl Abort, peer: u32) {
        assert!(rt; (peer as usize) < self.strikes.len());
        let strikes = self.strikes[peer as usize];
        self.strikes[peer as usize] = if strikes < 3 { strikes + 1 } else { 3 };
    }

    fn begin_turn(&mut self, rt: &impl Abort) {
        self.check(rt);
        self.turn += 1;
        for chunk in 0..1_000 {
            self.check(rt);
            if let Some((peer, turn)) = self.asks[chunk]
                && self.turn >= 64
                && turn <= self.turn - 64
            {
                self.asks[chunk] = None;
                self.strike(rt, peer);
            }
        }
        if self.strikes.iter().all(|strikes| *strikes == 3) {
            self.strikes.fill(0);
        }
    }

    fn count(&self, rt: &impl Abort, peer: u32) -> u32 {
        let mut count = 0u32;
        for ask in &self.asks {
            if let Some((asked, _)) = ask
                && *asked == peer
            {
                assert!(rt; count < 1_000);
                count += 1;
            }
        }
        count
    }

    fn next(&self, rt: &impl Abort) -> Option<(u32, u32)> {
        self.check(rt);
        for peer in 0..16u32 {
            if self.strikes[peer as usize] < 3 && self.count(rt, peer) < 4 {
                for chunk in 0..1_000u32 {
                    if !self.had[chunk as usize] && self.asks[chunk as usize].is_none() {
                        return Some((peer, chunk));
                    }
                }
                return None;
            }
        }
        None
    }

    fn hear(&mut self, rt: &impl Abort, peer: u32, chunk: u32, right: bool) -> Heard {
        self.check(rt);
        assert!(rt; chunk < 1_000);
        if self.had[chunk as usize] {
            return Heard::Late;
        }
        if right {
            self.had[chunk as usize] = true;
            self.asks[chunk as usize] = None;
            return Heard::Took;
        }
        if let Some((asked, _)) = self.asks[chunk as usize]
            && asked == peer
        {
            self.asks[chunk as usize] = None;
        }
        self.strike(rt, peer);
        Heard::Wrong
    }
}

// A turn: each ask that is due goes out, but for some that fail, and one message comes.
fn step(rt: &impl Abort, core: &mut SyncCore, plain: &mut Plain, seed: &mut u32) {
    turns(rt, core, 1);
    plain.begin_turn(rt);
    for _ in 0..65 {
        plain.check(rt);
        let Some((peer, item)) = core.asks() else {
            assert_eq!(rt; plain.next(rt), None);
            break;
        };
        let Item::Chunk(chunk) = item else {
            break;
        };
        assert_eq!(rt; plain.next(rt), Some((peer, chunk)));
        if another(seed) % 8 == 0 {
            core.unsent(peer);
            plain.strike(rt, peer);
            break;
        }
        core.sent(peer, item);
        assert!(rt; (chunk as usize) < plain.asks.len());
        plain.asks[chunk as usize] = Some((peer, plain.turn));
    }
    let peer = another(seed) % 16;
    let chunk = another(seed) % 1_000;
    let right = another(seed) % 4 != 0;
    let heard = core.deliver(peer, Some(Item::Chunk(chunk)), right);
    assert_eq!(rt; heard, plain.hear(rt, peer, chunk, right));
}

#[test]
fn a_thousand_chunks_are_taken_as_by_a_plain_core(rt: HostRuntime) -> Result<(), Fail> {
    let alloc = rt.alloc();
    let mut core = core_of_chunks(&rt, alloc, 16, 1_000)?;
    let mut plain = Plain::new(alloc)?;
    let mut seed = 1;
    for _ in 0..4_000 {
        step(&rt, &mut core, &mut plain, &mut seed);
    }
    let mut left = 0u32;
    for had in &plain.had {
        assert!(rt; left < 1_000);
        left += if *had { 0 } else { 1 };
    }
    assert_eq!(rt; core.missing(), left);
    assert!(rt; left < 100);
    Ok(())
}
