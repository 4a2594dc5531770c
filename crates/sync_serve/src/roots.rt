//! Peers that are the disks of other stores.

ghost use Rattle.std.specs.Prelude.{◌≡◌, ◌<◌, ◌^◌, [], length, slice_get, Some, true, false, is_some, IsTrue, IfOk, OnErr, IsErrOf};
ghost use Rattle.io_edge.specs.Faults.{IsCounted};
ghost use Rattle.sync_spec.specs.Messages.{read_ask};
ghost use Rattle.peer_model.specs.Calls.{TakesFirst};
ghost use Rattle.sync_serve.specs.Roots.{AsksDisk, Queues, QueuesServed, faults_of};
ghost use Rattle.sync_serve.specs.Served.{Serves};

use crate::root::{Root, RootError};
use byte_codec::{Blob, NoMemory};
use disk_model::Disk;
use peer_model::{PeerError, Peers, Taken};
use std::alloc::Global;
use std::collections::VecDeque;
use std::marker::Model;

/// Peers that are the disks of other stores. An ask is answered as it is sent, and the answers wait in line, the first one first.
///
/// A peer's store is opened, for reading alone, as the first ask is sent to it, and again at the next send where that failed. Nothing
/// of a disk changes. The count of faults is that of the disks together and of the sends whose opening found a bad mark or page file.
#[derive(Drop)]
pub struct RootPeers<D: Disk> {
    roots: Vec<Root<D>>,
    waiting: VecDeque<(u32, Blob)>,
    // How often a store wasn't opened for a bad mark or a bad page file.
    bad: u64,
}

// Contracts see the disks, the messages that wait, and how often a store was bad.
impl<D: Disk> Model for RootPeers<D> {
    ghost use Rattle.std.specs.Prelude.{map, length, ◌<◌, ◌^◌};
    ghost use Rattle.sync_serve.specs.Roots.{RootsView};

    ghost Value = { RootsView D };

    ghost view = { λ p. record { disks = map (λ root. root.disk) p.roots.items; waiting = p.waiting.items; bad = p.bad } };

    ghost invariant = { λ p. length p.roots.items < 2 ^ 32 };
}

impl<D: Disk + Drop> RootPeers<D> {
    /// A peer for each of these disks, of which there are fewer than 2^32. No message waits. NoMemory where memory runs out.
    pub fn over(alloc: Global, disks: Vec<D>) -> Result<RootPeers<D>, NoMemory>
        requires { length disks.items < 2 ^ 32 }
        ensures { IfOk result (λ peers. peers ≡ record { disks = disks.items; waiting = []; bad = 0 }) }
    {
        let mut roots = Vec::with_capacity(alloc, disks.len())?;
        for disk in disks {
            roots.push(Root::new(disk))?;
        }
        Ok(RootPeers {
            roots,
            waiting: VecDeque::new(alloc),
            bad: 0,
        })
    }
}

impl<D: Disk> RootPeers<D> {
    // The answer of a peer to an ask.
    fn answer(&mut self, alloc: Global, peer: u32, ask: &[u8]) -> Result<Blob, PeerError>
        requires peer { peer < length self.old.disks }
        requires ask { IsTrue (is_some (read_ask ask.now)) }
        ensures serves { IsTrue D.tells → (disk : D) → slice_get self.old.disks peer ≡ Some disk → Serves (D.view disk).state.files ask.now result }
        ensures asks { AsksDisk D.Disk peer result self.old self.new }
        ensures waiting { self.new.waiting ≡ self.old.waiting }
    {
        match self.roots[peer as usize].answer(alloc, ask) {
            Ok(answer) => Ok(answer),
            Err(RootError::Bad) => {
                self.bad = self.bad.saturating_add(1);
                Err(PeerError::Fault)
            }
            Err(RootError::Fault) => Err(PeerError::Fault),
            Err(RootError::Memory) => Err(PeerError::Memory),
        }
    }
}

impl<D: Disk> Peers for RootPeers<D> {
    ghost records = { false };

    ghost shows = { true };

    ghost view = { λ p. record { asked = []; given = []; waiting = p.waiting } };

    ghost peers = { λ p. length p.disks };

    ghost faults = { λ p. faults_of D.Disk p };

    fn count(&self) -> u32
        ensures { result ≡ length self.now.disks }
    {
        self.roots.len() as u32
    }

    fn send(&mut self, alloc: Global, peer: u32, ask: &[u8]) -> Result<(), PeerError>
        requires peer { peer < length self.old.disks }
        requires ask { IsTrue (is_some (read_ask ask.now)) }
        ensures serves { IsTrue D.tells → (disk : D) → slice_get self.old.disks peer ≡ Some disk
            → QueuesServed (D.view disk).state.files peer ask.now result self.old.waiting self.new.waiting }
        ensures queues { Queues peer result self.old.waiting self.new.waiting }
        ensures asks { AsksDisk D.Disk peer result self.old self.new }
        ensures unchanged { IsErrOf result PeerError.Memory → self.new.waiting ≡ self.old.waiting }
        ensures count { length self.new.disks ≡ length self.old.disks }
        ensures cause { IsCounted (faults_of D.Disk self.old) (faults_of D.Disk self.new) (IsErrOf result PeerError.Fault) }
    {
        let answer = self.answer(alloc, peer, ask)?;
        self.waiting.push_back((peer, answer))?;
        Ok(())
    }

    fn next(&mut self, _alloc: Global, into: &mut [u8]) -> Result<Option<Taken>, PeerError>
        ensures waiting { TakesFirst result into.new self.old.waiting self.new.waiting }
        ensures never { OnErr result ⊥ }
        ensures disks { self.new.disks ≡ self.old.disks }
        ensures bad { self.new.bad ≡ self.old.bad }
        ensures cause { IsCounted (faults_of D.Disk self.old) (faults_of D.Disk self.new) (IsErrOf result PeerError.Fault) }
    {
        match self.waiting.pop_front() {
            Some((peer, message)) => Ok(Some(Taken::place(peer, &message, into))),
            None => Ok(None),
        }
    }
}
