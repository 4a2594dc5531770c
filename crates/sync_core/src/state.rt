//! The core of a sync.

ghost use Rattle.std.specs.Prelude.{◌≡◌, ℕ, ◌<◌, ◌≤◌, ◌^◌, length, Some, IfOk, OnErr, option_map, find, slice_index_or};
ghost use Rattle.format_spec.specs.declared.limits.TheConstants.{MAX_PEERS};
ghost use Rattle.sync_plan.specs.Views.{item_of};
ghost use Rattle.sync_spec.specs.Core.{core_at_start, with_items, all_pieces, chunks_without, core_after_turn, next_ask, core_after_send, core_after_failure, verdict, core_after_message, has_item, is_unasked, core_without_item, core_after_fault};
ghost use Rattle.sync_spec.specs.Core.{may_be_asked as may_ask, peers_of, asks_of};
ghost use Rattle.sync_core.specs.Views.{verdict_of, due_of};

use crate::fresh::{Fresh, Kind};
use crate::peers::{pardon, strike};
use crate::tried::{
    Flight, Wanted, ask_for, count_asks, first_unasked, give_up, give_up_old, is_missing, push,
    remove, strike_old,
};
use byte_codec::NoMemory;
use format_spec::{MAX_ASKS, MAX_PEERS, MAX_STRIKES};
use std::alloc::Global;
use std::marker::Model;
use sync_plan::Item;

/// What a message of a peer is.
#[derive(Clone, Copy, Debug, PartialEq, Eq)]
pub enum Heard {
    /// The bytes of an item that was missing.
    Took,
    /// No answer, or bytes that are not those of the item.
    Wrong,
    /// An answer for an item that is not missing.
    Late,
}

/// The core of a sync: the items of the current list that are missing, the asks in flight, the strikes of the peers, and
/// the number of the turn.
///
/// An item is asked for only where all before it are in flight. So those that were asked for at some time and are missing are the first
/// ones, and 64 at most: they are walked through, and the others are linked. A call takes no more steps where more is missing.
#[derive(Drop)]
pub struct SyncCore {
    /// The first items that are missing, with their asks.
    tried: Vec<Wanted>,
    /// Those behind them, which were never asked for.
    fresh: Fresh,
    strikes: Vec<u8>,
    turn: u64,
}

impl Model for SyncCore {
    ghost use Rattle.std.specs.Prelude.{vec_capacity};
    ghost use Rattle.sync_spec.specs.Core.{Core};
    ghost use Rattle.sync_core.specs.Views.{core_of, HoldsCore};

    ghost Value = { Core };

    ghost view = { λ c. core_of c.tried.items c.fresh c.strikes.items c.turn };

    ghost invariant = { λ c. HoldsCore (core_of c.tried.items c.fresh c.strikes.items c.turn) (vec_capacity c.tried) };
}

impl SyncCore {
    /// The core of a sync from so many peers, of which the one item is the meta-manifest.
    pub fn begin(alloc: Global, peers: u32) -> Result<SyncCore, NoMemory>
        requires { peers ≤ MAX_PEERS }
        ensures { IfOk result (λ core. core ≡ core_at_start peers) }
    {
        let strikes = vec![in alloc; 0; peers as usize]?;
        let fresh = Fresh::all(alloc, Kind::Pieces, 0)?;
        let mut tried = Vec::with_capacity(alloc, MAX_PEERS * MAX_ASKS)?;
        push(
            &mut tried,
            Wanted {
                item: Item::Meta,
                ask: None,
            },
        );
        Ok(SyncCore {
            tried,
            fresh,
            strikes,
            turn: 0,
        })
    }

    /// The next list of items: so many pieces, all of them missing.
    pub fn set_pieces(&mut self, alloc: Global, count: u32) -> Result<(), NoMemory>
        requires { length self.old.missing ≡ 0 }
        ensures pieces { IfOk result (λ _. self.new ≡ with_items self.old (all_pieces count)) }
        ensures same { OnErr result (self.new ≡ self.old) }
    {
        self.fresh = Fresh::all(alloc, Kind::Pieces, count)?;
        Ok(())
    }

    /// The next list of items: so many chunks, of which all are missing but for those that are had.
    pub fn set_chunks(&mut self, alloc: Global, count: u32, had: &[u32]) -> Result<(), NoMemory>
        requires { length self.old.missing ≡ 0 }
        ensures chunks { IfOk result (λ _. self.new ≡ with_items self.old (chunks_without count had.now)) }
        ensures same { OnErr result (self.new ≡ self.old) }
    {
        self.fresh = Fresh::all_but(alloc, Kind::Chunks, count, had)?;
        Ok(())
    }

    /// A turn begins, of fewer than 2^48: each ask of 64 turns ago is given up, and its peer has a strike more. Where all peers have
    /// three strikes, none has one.
    #[tactic(auto, unfolding(sync_spec::specs::Core::core_after_turn))]
    pub fn turn(&mut self)
        requires { self.old.turn < 2 ^ 48 }
        ensures { self.new ≡ core_after_turn self.old }
    {
        self.turn += 1;
        strike_old(&self.tried, self.turn, &mut self.strikes);
        give_up_old(&mut self.tried, self.turn);
        pardon(&mut self.strikes);
    }

    /// How many turns have begun.
    pub fn turns(&self) -> u64
        ensures { result ≡ self.now.turn }
    {
        self.turn
    }

    // How many asks each peer has.
    fn count_asks(&self) -> [usize; MAX_PEERS]
        ensures { (peer d : ℕ) → peer < MAX_PEERS → slice_index_or result peer d ≡ asks_of self.now.missing peer }
    {
        count_asks(&self.tried)
    }

    // The peer, which has so many asks, has fewer than three strikes and fewer than four asks.
    fn may_be_asked(&self, peer: u32, asks: usize) -> bool
        requires peer { peer < length self.now.strikes }
        requires asks { asks ≡ asks_of self.now.missing peer }
        ensures { result ≡ may_ask self.now peer }
    {
        self.strikes[peer as usize] < MAX_STRIKES as u8 && asks < MAX_ASKS
    }

    // The first peer that may be asked.
    fn first_free(&self) -> Option<u32>
        ensures { result ≡ find (may_ask self.now) (peers_of self.now) }
    {
        let asks = self.count_asks();
        for peer in 0..self.strikes.len() as u32 {
            if self.may_be_asked(peer, asks[peer as usize]) {
                return Some(peer);
            }
        }
        None
    }

    // The first item that is not asked for.
    fn first_unasked(&self) -> Option<Item>
        ensures { option_map item_of result ≡ option_map (λ w. w.item) (find is_unasked self.now.missing) }
    {
        match first_unasked(&self.tried) {
            Some(item) => Some(item),
            None => self.fresh.first(),
        }
    }

    /// The next ask that is due in this turn: the first peer with fewer than three strikes and fewer than four asks, and the
    /// first missing item that is not in flight. None where there is no such peer or item.
    #[tactic(auto, unfolding(sync_spec::specs::Core::next_ask))]
    pub fn asks(&self) -> Option<(u32, Item)>
        ensures { option_map due_of result ≡ next_ask self.now }
    {
        let peer = self.first_free()?;
        let item = self.first_unasked()?;
        Some((peer, item))
    }

    /// The ask that is due went out.
    #[tactic(auto, unfolding(sync_spec::specs::Core::core_after_send))]
    pub fn sent(&mut self, peer: u32, item: Item)
        requires { next_ask self.old ≡ Some (peer, item_of item) }
        ensures { self.new ≡ core_after_send self.old peer (item_of item) }
    {
        let turn = self.turn;
        match first_unasked(&self.tried) {
            Some(_) => ask_for(&mut self.tried, peer, item, turn),
            None => {
                self.fresh.remove(item);
                let ask = Some(Flight { peer, turn });
                push(&mut self.tried, Wanted { item, ask });
            }
        }
    }

    /// An ask could not be sent to the peer, which has a strike more.
    #[tactic(auto, unfolding(sync_spec::specs::Core::core_after_failure))]
    pub fn unsent(&mut self, peer: u32)
        ensures { self.new ≡ core_after_failure self.old peer }
    {
        strike(&mut self.strikes, peer);
    }

    // Whether the item is missing.
    fn is_missing(&self, item: Item) -> bool
        ensures { result ≡ has_item self.now.missing (item_of item) }
    {
        self.fresh.has(item) || is_missing(&self.tried, item)
    }

    // The item is had. Each item stands once, so those that were asked for are only looked through for one of them.
    fn take(&mut self, item: Item)
        ensures { self.new ≡ core_without_item self.old (item_of item) }
    {
        if self.fresh.remove(item) {
            return;
        }
        remove(&mut self.tried, item);
    }

    // The peer's ask for the item is given up, and the peer has a strike more.
    fn refuse(&mut self, peer: u32, item: Item)
        ensures { self.new ≡ core_after_fault self.old peer (item_of item) }
    {
        give_up(&mut self.tried, peer, item);
        strike(&mut self.strikes, peer);
    }

    /// A message of a peer: no answer, or an answer for an item, with its right bytes or not.
    #[tactic(auto, unfolding(sync_spec::specs::Core::core_after_message, sync_spec::specs::Core::verdict, sync_spec::specs::Core::core_after_failure))]
    pub fn deliver(&mut self, peer: u32, item: Option<Item>, right: bool) -> Heard
        ensures heard { verdict_of result ≡ verdict self.old (option_map item_of item) right }
        ensures core { self.new ≡ core_after_message self.old peer (option_map item_of item) right }
    {
        let Some(item) = item else {
            self.unsent(peer);
            return Heard::Wrong;
        };
        if !self.is_missing(item) {
            return Heard::Late;
        }
        if right {
            self.take(item);
            return Heard::Took;
        }
        self.refuse(peer, item);
        Heard::Wrong
    }

    /// How many items are missing.
    pub fn missing(&self) -> u32
        ensures { result ≡ length self.now.missing }
    {
        self.tried.len() as u32 + self.fresh.left
    }
}
