//! Cores of syncs, which the check computes.

ghost use Rattle.std.specs.Prelude.{◌≡◌, [], ◌∷◌, Some, None, length, true, false};
ghost use Rattle.sync_spec.specs.Messages.{chunk};
ghost use Rattle.sync_spec.specs.Core.{core_at_start, with_items, chunks_without, core_after_turn, next_ask, verdict, took, wrong, late};
ghost use Rattle.sync_spec.specs.Core.{core_after_message, core_after_failure};
ghost use Rattle.sync_spec.specs.CoreExample.{asks_due, core_after_turns, six_asked};

/// One peer and six chunks: four asks go out. What is given back is asked for before what was never asked for.
#[tactic(auto, unfolding(crate::specs::Computing::cores_compute))]
pub fn one_peer_is_asked()
    ensures asks { asks_due 5 (core_after_turn (with_items (core_at_start 1) (chunks_without 6 []))) ≡ (0, chunk 0) ∷ (0, chunk 1) ∷ (0, chunk 2) ∷ (0, chunk 3) ∷ [] }
    ensures took { verdict (six_asked 1) (Some (chunk 5)) true ≡ took }
    ensures left { length (core_after_message (six_asked 1) 0 (Some (chunk 5)) true).missing ≡ 5 }
    ensures again { verdict (core_after_message (six_asked 1) 0 (Some (chunk 5)) true) (Some (chunk 5)) true ≡ late }
    ensures wrong { verdict (six_asked 1) (Some (chunk 0)) false ≡ wrong }
    ensures given_back { asks_due 2 (core_after_message (six_asked 1) 0 (Some (chunk 0)) false) ≡ (0, chunk 0) ∷ [] }
    ensures had_at_once { asks_due 3 (with_items (core_at_start 1) (chunks_without 4 (0 ∷ 2 ∷ []))) ≡ (0, chunk 1) ∷ (0, chunk 3) ∷ [] }
{}

/// An ask is given up 64 turns after it went out, and its peer has a strike more, of three; what it asked for is still taken. Where
/// all peers have three strikes, none has one.
#[tactic(auto, unfolding(crate::specs::Computing::cores_compute))]
pub fn asks_are_given_up()
    ensures kept { next_ask (core_after_turns 63 (six_asked 1)) ≡ None }
    ensures strikes { (core_after_turns 64 (six_asked 2)).strikes ≡ 3 ∷ 2 ∷ [] }
    ensures next { asks_due 9 (core_after_turns 64 (six_asked 2)) ≡ (1, chunk 0) ∷ (1, chunk 1) ∷ (1, chunk 2) ∷ (1, chunk 3) ∷ [] }
    ensures taken { verdict (core_after_turns 64 (six_asked 2)) (Some (chunk 0)) true ≡ took }
    ensures pardoned { (core_after_turns 64 (six_asked 1)).strikes ≡ 0 ∷ [] }
    ensures asked_again { next_ask (core_after_turns 64 (six_asked 1)) ≡ Some (0, chunk 0) }
{}

/// What a peer sends that isn't asked is judged as any other, and there is no strike to add.
#[tactic(auto, unfolding(crate::specs::Computing::cores_compute))]
pub fn strangers_are_heard()
    ensures right { verdict (six_asked 1) (Some (chunk 4)) true ≡ took }
    ensures wrong { core_after_message (six_asked 1) 7 (Some (chunk 0)) false ≡ six_asked 1 }
    ensures no_answer { core_after_message (six_asked 1) 7 None false ≡ six_asked 1 }
    ensures failed { (core_after_failure (six_asked 2) 1).strikes ≡ 0 ∷ 1 ∷ [] }
{}
