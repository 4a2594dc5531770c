//! Peers.

ghost use Rattle.std.specs.Prelude.{◌≡◌, ◌<◌, ℕ, Bool, IsTrue, IsErrOf, is_some};
ghost use Rattle.io_edge.specs.Faults.{IsCounted};
ghost use Rattle.sync_spec.specs.Messages.{read_ask};
ghost use Rattle.peer_model.specs.declared.peers.PeerError.TheVariants.{Fault, Memory};
ghost use Rattle.peer_model.specs.Calls.{PeersView, Sends, Looks, TakesFirst, IsPlaced};

use byte_codec::{Blob, NoMemory};
use std::alloc::{AllocError, AllocFailed, Global};
use thiserror::Error;

/// Why a call of peers failed.
#[derive(Clone, Copy, Debug, PartialEq, Eq, Error)]
pub enum PeerError {
    /// The peers failed, and have counted that.
    #[error("the peers failed")]
    Fault,
    /// There was no memory for the call, and the peers are unchanged.
    #[error("there was no memory for a call of the peers")]
    Memory,
}

impl From<AllocError> for PeerError {
    ghost from_gives = { λ _ e. e ≡ Memory };

    fn from(_: AllocError) -> Self {
        PeerError::Memory
    }
}

impl<T: Drop> From<AllocFailed<T>> for PeerError {
    ghost from_gives = { λ _ e. e ≡ Memory };

    fn from(_: AllocFailed<T>) -> Self {
        PeerError::Memory
    }
}

impl From<NoMemory> for PeerError {
    ghost from_gives = { λ _ e. e ≡ Memory };

    fn from(_: NoMemory) -> Self {
        PeerError::Memory
    }
}

/// A message that was taken.
#[derive(Clone, Copy, Debug, PartialEq, Eq)]
pub struct Taken {
    /// The peer that sent it.
    pub peer: u32,
    /// Bytes of the whole message, of which a buffer may have fewer.
    pub len: usize,
}

impl Taken {
    /// A message of a peer is told, and as many of its bytes as fit are placed at the front of `into`.
    pub fn place(peer: u32, message: &Blob, into: &mut [u8]) -> Taken
        ensures { IsPlaced peer message.now result into.new }
    {
        let bytes = message.bytes();
        let count = bytes.len().min(into.len());
        into[..count].copy_from_slice(&bytes[..count]);
        Taken {
            peer,
            len: bytes.len(),
        }
    }
}

/// Peers, numbered from 0, that are asked for parts of a state, and whose messages wait in one line.
///
/// A call answers `Fault` only where the count of faults rose in it, or stands at the greatest `u64`, and `Memory` with all unchanged.
pub trait Peers {
    /// Whether peers of this type tell what they were asked and what was looked for.
    ghost records: { Bool };

    /// Whether they tell which messages wait.
    ghost shows: { Bool };

    /// What they tell.
    ghost view: { Self → PeersView };

    /// How many peers there are.
    ghost peers: { Self → ℕ };

    /// How often a call has failed.
    ghost faults: { Self → ℕ };

    /// How many peers there are. It never changes.
    fn count(&self) -> u32
        ensures { result ≡ peers self.now };

    /// Sends an ask to a peer.
    fn send(&mut self, alloc: Global, peer: u32, ask: &[u8]) -> Result<(), PeerError>
        requires peer { peer < peers self.old }
        requires ask { IsTrue (is_some (read_ask ask.now)) }
        ensures records { IsTrue records → Sends result peer ask.now (view self.old) (view self.new) }
        ensures unchanged { IsErrOf result Memory → view self.new ≡ view self.old }
        ensures count { peers self.new ≡ peers self.old }
        ensures cause { IsCounted (faults self.old) (faults self.new) (IsErrOf result Fault) };

    /// Takes the first message that waits: answers its peer and its whole length, and places as many of its bytes as fit at the
    /// front of `into`. None exactly where no message waits.
    fn next(&mut self, alloc: Global, into: &mut [u8]) -> Result<Option<Taken>, PeerError>
        ensures records { IsTrue records → Looks result into.new (view self.old) (view self.new) }
        ensures waiting { IsTrue shows → TakesFirst result into.new (view self.old).waiting (view self.new).waiting }
        ensures unchanged { IsErrOf result Memory → view self.new ≡ view self.old }
        ensures count { peers self.new ≡ peers self.old }
        ensures cause { IsCounted (faults self.old) (faults self.new) (IsErrOf result Fault) };
}
