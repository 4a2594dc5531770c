//! Worked examples: draws and lines, computed.

ghost use Rattle.std.specs.Prelude.{◌≡◌, ◌∷◌, [], take, drop, length, slice_index_or, codes};
ghost use Rattle.generator.specs.Draws.{next_x, quotient, drawn};
ghost use Rattle.generator.specs.Script.{generated, lines_behind};

/// The first draw from seed 1.
pub fn first_draws()
    ensures x { next_x 1 ≡ 7806831264735756412 }
    ensures quotient { quotient (next_x 1) ≡ 908834774 }
    ensures canister { drawn 4 (next_x 1) ≡ 2 }
{}

/// How many lines one block from seed 1 gives, and some of them.
pub fn first_lines()
    ensures count { length (generated 1 1) ≡ 39 }
    ensures canisters { take 4 (generated 1 1) ≡ (codes "canister 00" ∷ codes "canister 01" ∷ codes "canister 02" ∷ codes "canister 03" ∷ []) }
    ensures first_write { slice_index_or (generated 1 1) 4 [] ≡ codes "write 02 heap 3425113 cc" }
    ensures last_write { slice_index_or (generated 1 1) 35 [] ≡ codes "write 02 heap 499009 e2" }
    ensures behind { drop 36 (generated 1 1) ≡ (codes "round" ∷ codes "root live" ∷ codes "heights" ∷ []) }
{}

/// What stands behind the writes of blocks that are fourth ones and of one that is not.
pub fn lines_of_fourth_blocks()
    ensures third { lines_behind 3 ≡ (codes "round" ∷ []) }
    ensures fourth { length (lines_behind 4) ≡ 24 }
    ensures forget { slice_index_or (lines_behind 4) 10 [] ≡ codes "forget 1" }
    ensures merge { slice_index_or (lines_behind 4) 14 [] ≡ codes "merge 01 heap" }
    ensures sixteenth { drop 23 (lines_behind 16) ≡ (codes "purge 4" ∷ codes "sweep" ∷ []) }
{}
