//! What peers in memory note of their calls.

ghost use Rattle.std.specs.Prelude.{◌≡◌, ◌↔◌, ◌<◌, ◌∷◌, ◌++◌, [], Bool, IsTrue, true, false, vec_len, vec_capacity};
ghost use Rattle.io_edge.specs.Faults.{IsCounted};
ghost use Rattle.io_edge.specs.Memory.{IsListed, next_count};
ghost use Rattle.peer_model.specs.Orders.{count_if};

use byte_codec::Blob;

/// A send that was tried.
#[derive(Drop)]
pub(crate) struct SentAsk {
    pub(crate) peer: u32,
    pub(crate) ask: Blob,
    pub(crate) went_out: bool,
}

/// What was looked for and found.
#[derive(Drop)]
pub(crate) enum Look {
    Came(u32, Blob),
    Nothing,
    Failed,
}

/// The numbers of the calls that are to fail, from 0, with the number of the next call and the count of those that failed.
#[derive(Drop)]
pub(crate) struct Orders {
    pub(crate) fails: Vec<u64>,
    pub(crate) calls: u64,
    pub(crate) faults: u64,
}

impl Orders {
    /// Counts a call, and answers whether it is to fail.
    pub(crate) fn is_failing(&mut self) -> bool
        ensures listed { IsTrue result ↔ IsListed self.old.fails.items self.old.calls }
        ensures calls { self.new.calls ≡ next_count self.old.calls }
        ensures faults { self.new.faults ≡ count_if result self.old.faults }
        ensures fails { self.new.fails.items ≡ self.old.fails.items }
        ensures cause { IsCounted self.old.faults self.new.faults (IsTrue result) }
    {
        let fails = self.calls < u64::MAX && self.fails.contains(&self.calls);
        self.calls = self.calls.saturating_add(1);
        if fails {
            self.faults = self.faults.saturating_add(1);
        }
        fails
    }
}

/// Puts a send into a list that has room for it.
pub(crate) fn note_send(sends: &mut Vec<SentAsk>, send: SentAsk)
    requires { vec_len sends.old < vec_capacity sends.old }
    ensures { sends.new.items ≡ sends.old.items ++ send ∷ [] }
{
    let _ = sends.push(send);
}

/// Puts what was found into a list that has room for it.
pub(crate) fn note_look(looks: &mut Vec<Look>, look: Look)
    requires { vec_len looks.old < vec_capacity looks.old }
    ensures { looks.new.items ≡ looks.old.items ++ look ∷ [] }
{
    let _ = looks.push(look);
}
