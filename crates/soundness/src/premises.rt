//! Which premises the laws need.

ghost use Rattle.std.specs.Prelude.{◌≡◌, ℕ, [], ◌∷◌, ◌++◌, IsTrue};
ghost use Rattle.format_spec.specs.Bytes.{Bytes, IsBytes};
ghost use Rattle.format_spec.specs.Hashes.{Clash};
ghost use Rattle.tree_spec.specs.Tree.{labeled, leaf, pruned, reconstruct, hashed_strings, is_well_formed};
ghost use Rattle.tree_spec.specs.Lookup.{lookup, absent, found};
ghost use Rattle.soundness.specs.Samples.{only_a, only_b};

/// Two well-formed trees of one hash, each with a part as a hash, may disagree with no clash: the whole tree behind
/// them isn't well-formed. So the second tree must be whole.
pub fn cut_trees_may_disagree()
    ensures well_formed { IsTrue (is_well_formed only_b) × IsTrue (is_well_formed only_a) }
    ensures one_hash { reconstruct only_b ≡ reconstruct only_a }
    ensures without { lookup ((97 ∷ []) ∷ []) only_b ≡ absent }
    ensures there { lookup ((97 ∷ []) ∷ []) only_a ≡ found [] }
    ensures no_clash { Clash (hashed_strings only_b) (hashed_strings only_a) → ⊥ }
{}

/// With hashes of any length, a label takes a byte of the hash below it: two trees of one hash, with one string hashed
/// for both, have different labels. So hashes must have 32 bytes.
pub fn short_hashes_move_labels()
    ensures one_hash { (l : Bytes) (b : ℕ) (h : Bytes)
        → reconstruct (labeled (l ++ b ∷ []) (pruned h)) ≡ reconstruct (labeled l (pruned (b ∷ h))) }
    ensures one_string { (l : Bytes) (b : ℕ) (h : Bytes)
        → hashed_strings (labeled (l ++ b ∷ []) (pruned h)) ≡ hashed_strings (labeled l (pruned (b ∷ h))) }
{}

/// A list with a number above 255 may have the hash of a byte string, which says nothing of SHA-256. So a clash is one
/// of byte strings, and a valid state has bytes everywhere.
pub fn numbers_above_bytes_share_a_hash()
    ensures one_hash { reconstruct (leaf (0 ∷ 1 ∷ 0 ∷ [])) ≡ reconstruct (leaf (0 ∷ 0 ∷ 256 ∷ [])) }
    ensures no_bytes { IsBytes (0 ∷ 0 ∷ 256 ∷ []) → ⊥ }
{}
