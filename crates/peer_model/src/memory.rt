//! Peers in memory.

ghost use Rattle.std.specs.Prelude.{◌≡◌, [], true, IsErrOf};
ghost use Rattle.io_edge.specs.Faults.{IsCounted};
ghost use Rattle.peer_model.specs.Calls.{Sends, Looks, TakesFirst};
ghost use Rattle.peer_model.specs.Orders.{FollowsOrders};

use crate::calls::{Look, Orders, SentAsk, note_look, note_send};
use crate::peers::{PeerError, Peers, Taken};
use byte_codec::Blob;
use std::alloc::Global;
use std::marker::Model;

/// Peers in memory, with all their messages from the start: a send adds none. The calls whose numbers are in a list fail, from 0 over
/// sends and calls of `next` together and without those that wanted memory, and no others. A call that fails leaves the messages.
#[derive(Drop)]
pub struct MemPeers {
    count: u32,
    /// The last one is the first in line.
    waiting: Vec<(u32, Blob)>,
    sends: Vec<SentAsk>,
    looks: Vec<Look>,
    orders: Orders,
}

impl Model for MemPeers {
    ghost use Rattle.std.specs.Prelude.{map, reverse};
    ghost use Rattle.peer_model.specs.Orders.{MemView};
    ghost use Rattle.peer_model.specs.Views.{asked_of, given_of};

    ghost Value = { MemView };

    ghost view = { λ p. record {
      peers = p.count;
      told = record {
        asked = map asked_of p.sends.items;
        given = map given_of p.looks.items;
        waiting = reverse p.waiting.items;
      };
      fails = p.orders.fails.items;
      calls = p.orders.calls;
      faults = p.orders.faults;
    } };
}

impl MemPeers {
    /// So many peers, with these messages in line, the first one first.
    pub fn new(alloc: Global, count: u32, waiting: Vec<(u32, Blob)>, fails: Vec<u64>) -> MemPeers
        ensures peers { result.peers ≡ count }
        ensures waiting { result.told.waiting ≡ waiting.items }
        ensures fresh { (result.told.asked ≡ []) × (result.told.given ≡ []) × (result.calls ≡ 0) × (result.faults ≡ 0) }
        ensures fails { result.fails ≡ fails.items }
    {
        let mut waiting = waiting;
        waiting.reverse();
        MemPeers {
            count,
            waiting,
            sends: Vec::new(alloc),
            looks: Vec::new(alloc),
            orders: Orders {
                fails,
                calls: 0,
                faults: 0,
            },
        }
    }
}

impl Peers for MemPeers {
    ghost records = { true };

    ghost shows = { true };

    ghost view = { λ p. p.told };

    ghost peers = { λ p. p.peers };

    ghost faults = { λ p. p.faults };

    fn count(&self) -> u32
        ensures { result ≡ self.now.peers }
    {
        self.count
    }

    fn send(&mut self, alloc: Global, peer: u32, ask: &[u8]) -> Result<(), PeerError>
        ensures records { Sends result peer ask.now self.old.told self.new.told }
        ensures waiting { self.new.told.waiting ≡ self.old.told.waiting }
        ensures unchanged { IsErrOf result PeerError.Memory → self.new ≡ self.old }
        ensures count { self.new.peers ≡ self.old.peers }
        ensures cause { IsCounted self.old.faults self.new.faults (IsErrOf result PeerError.Fault) }
        ensures orders { FollowsOrders result self.old self.new }
    {
        self.sends.reserve(1)?;
        let ask = Blob::from_slice(alloc, ask)?;
        let fails = self.orders.is_failing();
        let went_out = !fails;
        note_send(
            &mut self.sends,
            SentAsk {
                peer,
                ask,
                went_out,
            },
        );
        if fails {
            return Err(PeerError::Fault);
        }
        Ok(())
    }

    fn next(&mut self, _alloc: Global, into: &mut [u8]) -> Result<Option<Taken>, PeerError>
        ensures records { Looks result into.new self.old.told self.new.told }
        ensures waiting { TakesFirst result into.new self.old.told.waiting self.new.told.waiting }
        ensures unchanged { IsErrOf result PeerError.Memory → self.new ≡ self.old }
        ensures count { self.new.peers ≡ self.old.peers }
        ensures cause { IsCounted self.old.faults self.new.faults (IsErrOf result PeerError.Fault) }
        ensures orders { FollowsOrders result self.old self.new }
    {
        self.looks.reserve(1)?;
        if self.orders.is_failing() {
            note_look(&mut self.looks, Look::Failed);
            return Err(PeerError::Fault);
        }
        let Some((peer, message)) = self.waiting.pop() else {
            note_look(&mut self.looks, Look::Nothing);
            return Ok(None);
        };
        let taken = Taken::place(peer, &message, into);
        note_look(&mut self.looks, Look::Came(peer, message));
        Ok(Some(taken))
    }
}
