//! Syncs from peers, which the check computes.

ghost use Rattle.std.specs.Prelude.{◌≡◌, [], ◌∷◌, ◌++◌, Some, None, map, replicate};
ghost use Rattle.state_spec.specs.Example.{one_byte, zero_page};
ghost use Rattle.state_spec.specs.State.{state_from, system_of, memory_bytes};
ghost use Rattle.state_spec.specs.Root.{root_of};
ghost use Rattle.sync_spec.specs.Messages.{meta, piece, chunk};
ghost use Rattle.sync_spec.specs.Sync.{none_came, wrong, late, took, install_left, bad_manifest, bad_system, ready, sync_to, FitsSync};
ghost use Rattle.sync_spec.specs.Local.{local_hits};
ghost use Rattle.sync_spec.specs.Example.{both_rows};
ghost use Rattle.sync_spec.specs.SyncExample.{zeros_had, empty_state, told_by_steps, sync_after_steps, two_peers, seven_turns, two_turns, bad_turns, bad_root, target, without_events, silence, sent_ask, failed_ask};

/// A state is taken from two peers, of which one sends a wrong piece.
#[tactic(auto, unfolding(crate::specs::Computing::syncs_compute))]
pub fn a_state_is_taken()
    ensures { told_by_steps [] (Some (two_peers 1)) (seven_turns 1 ++ without_events 3) ≡ wrong 0 ∷ took 1 ∷ wrong 1 ∷ took 2 ∷ late ∷ took 1 ∷ install_left 3 ∷ install_left 2 ∷ install_left 1 ∷ ready (state_from 1 1 (system_of one_byte) (memory_bytes one_byte)) ∷ [] }
{}

/// In version 2 a page of zeros has no chunk, and is installed.
#[tactic(auto, unfolding(crate::specs::Computing::syncs_compute))]
pub fn zeros_are_installed()
    ensures { told_by_steps [] (Some zeros_had) (without_events 3) ≡ install_left 2 ∷ install_left 1 ∷ ready (state_from 2 1 (system_of zero_page) (memory_bytes zero_page)) ∷ [] }
{}

/// A chunk that a published height has is had at once, but in version 2 not where a memory's row has the hash of zeros.
#[tactic(auto, unfolding(crate::specs::Computing::syncs_compute))]
pub fn local_chunks_of_zeros()
    ensures first { map (λ h. h.chunk) (local_hits ((1, both_rows 2) ∷ []) (both_rows 1)) ≡ 0 ∷ 1 ∷ [] }
    ensures second { map (λ h. h.chunk) (local_hits ((1, both_rows 1) ∷ []) (both_rows 2)) ≡ 1 ∷ [] }
{}

/// The root hash of the example is that of its state.
#[tactic(auto, unfolding(crate::specs::Computing::syncs_compute))]
pub fn the_items_are_the_state_s()
    ensures { root_of one_byte ≡ target }
{}

/// All chunks are published already.
#[tactic(auto, unfolding(crate::specs::Computing::syncs_compute))]
pub fn chunks_are_published_already()
    ensures { told_by_steps ((1, one_byte) ∷ []) (Some (two_peers 2)) (two_turns 2) ≡ took 1 ∷ install_left 3 ∷ [] }
{}

/// Where two published states have one height, the bytes of a hit are taken from the first, and an honest sync fails: the laws
/// ask for heights that ascend.
#[tactic(auto, unfolding(crate::specs::Computing::syncs_compute))]
pub fn heights_that_do_not_ascend()
    ensures { told_by_steps ((1, empty_state) ∷ (1, one_byte) ∷ []) (Some (two_peers 2)) (two_turns 2 ++ without_events 1) ≡ took 1 ∷ install_left 3 ∷ bad_system 0 ∷ [] }
{}

/// The asks of a turn: the first peer that may be asked is asked for the first item that is missing and not in flight.
#[tactic(auto, unfolding(crate::specs::Computing::syncs_compute))]
pub fn events_that_fit()
    ensures first { FitsSync (two_peers 1) (silence (sent_ask 1 target 0 meta ∷ [])) }
    ensures failed { FitsSync (two_peers 1) (record { asked = failed_ask 1 target 0 meta ∷ []; given = [] }) }
    ensures no_send { FitsSync (two_peers 1) (silence []) → ⊥ }
    ensures other_peer { FitsSync (two_peers 1) (silence (sent_ask 1 target 1 meta ∷ [])) → ⊥ }
    ensures no_look { FitsSync (two_peers 1) (record { asked = sent_ask 1 target 0 meta ∷ []; given = [] }) → ⊥ }
{}

/// No peers, and a manifest that is none.
#[tactic(auto, unfolding(crate::specs::Computing::syncs_compute))]
pub fn syncs_that_end()
    ensures alone { told_by_steps [] (Some (sync_to 9 target 0)) (silence [] ∷ []) ≡ none_came ∷ [] }
    ensures bad_manifest { told_by_steps [] (Some (sync_to 1 bad_root 2)) bad_turns ≡ took 1 ∷ bad_manifest 0 ∷ [] }
    ensures ended { sync_after_steps [] (Some (sync_to 1 bad_root 2)) bad_turns ≡ None }
{}
