//! Laws of the definitions.

ghost use Rattle.std.specs.Prelude.{◌≡◌, ◌≢◌, ◌≤◌, ◌⊎◌, ℕ, true, false, List, [], ◌∷◌, Contains, IsTrue, Ok, map};
ghost use Rattle.std.specs.List.{flat_map};
ghost use Rattle.format_spec.specs.Bytes.{Bytes, IsBytes, AreByteStrings};
ghost use Rattle.format_spec.specs.Hashes.{Clash, root_string, piece_string, chunk_string, piece_hash, chunk_hash};
ghost use Rattle.state_spec.specs.State.{State, IsState, SameState, system_of, SystemPart, IsSystem};
ghost use Rattle.state_spec.specs.Files.{files};
ghost use Rattle.state_spec.specs.Manifest.{manifest_of, row_chunks};
ghost use Rattle.state_spec.specs.ManifestText.{IsManifest, manifest_text, read_manifest};
ghost use Rattle.state_spec.specs.Root;
ghost use Rattle.state_spec.specs.Root.{root_of, MetaManifest, root_of_meta, IsMeta, meta_of};
ghost use Rattle.tree_spec.specs.Tree.{Tree, depth, reconstruct, hashed_strings, is_well_formed};
ghost use Rattle.tree_spec.specs.Whole.{IsWhole, HasHashes, IsByteTree};
ghost use Rattle.tree_spec.specs.Lookup.{lookup, unknown};
ghost use Rattle.tree_spec.specs.Labelled.{root_children, state_tree};
ghost use Rattle.tree_spec.specs.Cbor.{read_tree, IsSpellable};
ghost use Rattle.tree_spec.specs.Witness.{witness, is_hidden};

/// The tree of a valid state has no part as a hash, is well-formed and has strings of bytes only.
pub fn state_trees_are_whole()
    ensures whole { (s : State) → IsState s → IsWhole (state_tree (system_of s)) }
    ensures well_formed { (s : State) → IsState s → IsTrue (is_well_formed (state_tree (system_of s))) }
    ensures bytes { (s : State) → IsState s → IsByteTree (state_tree (system_of s)) }
{}

/// What a tree with parts as hashes tells of a path, a whole and well-formed tree of the same hash tells of it too, or
/// two strings clash.
pub fn lookups_agree()
    ensures { (t u : Tree) (path : List Bytes) → HasHashes t → IsByteTree t
        → IsWhole u → IsTrue (is_well_formed u) → IsByteTree u → reconstruct t ≡ reconstruct u
        → (lookup path t ≡ unknown) ⊎ ((lookup path t ≡ lookup path u) ⊎ Clash (hashed_strings t) (hashed_strings u)) }
{}

/// A checked witness: what the tree that bytes spell tells of a path, the tree of any valid state with that hash tells
/// of it too, or two strings clash.
pub fn checked_witness()
    ensures { (text : Bytes) (t : Tree) (s : State) (path : List Bytes) → IsBytes text → read_tree text ≡ Ok t
        → IsState s → reconstruct t ≡ reconstruct (state_tree (system_of s))
        → (lookup path t ≡ unknown)
        ⊎ ((lookup path t ≡ lookup path (state_tree (system_of s)))
        ⊎ Clash (hashed_strings t) (hashed_strings (state_tree (system_of s)))) }
{}

/// A witness has the hash of the whole tree.
pub fn witnesses_have_the_hash()
    ensures { (s : SystemPart) (paths : List (List Bytes)) → reconstruct (witness s paths) ≡ reconstruct (state_tree s) }
{}

/// The tree of a state and each witness of it can be spelled: they are well-formed and not too deep. At most 152 trees lie
/// within each other.
pub fn witnesses_can_be_spelled()
    ensures tree { (version : ℕ) (s : SystemPart) → IsSystem version s → IsSpellable (state_tree s) }
    ensures witness { (version : ℕ) (s : SystemPart) (paths : List (List Bytes)) → IsSystem version s
        → IsSpellable (witness s paths) }
    ensures tree_depth { (version : ℕ) (s : SystemPart) → IsSystem version s → depth (state_tree s) ≤ 152 }
    ensures witness_depth { (version : ℕ) (s : SystemPart) (paths : List (List Bytes)) → IsSystem version s
        → depth (witness s paths) ≤ 152 }
{}

/// A path that a witness was asked for gives in it what it gives in the tree; but where it ends at a node and no other
/// path that was asked for goes on below it, it is unknown.
pub fn witnesses_show_their_paths()
    ensures shown { (version : ℕ) (s : SystemPart) (paths : List (List Bytes)) (p : List Bytes) → IsSystem version s
        → Contains paths p → p ≢ [] → is_hidden paths p (root_children s) ≡ false
        → lookup p (witness s paths) ≡ lookup p (state_tree s) }
    ensures hidden { (version : ℕ) (s : SystemPart) (paths : List (List Bytes)) (p : List Bytes) → IsSystem version s
        → Contains paths p → p ≢ [] → is_hidden paths p (root_children s) ≡ true → lookup p (witness s paths) ≡ unknown }
{}

/// Valid states with one root are equal in all but births and rounds, their versions included, or two strings clash.
pub fn same_root_same_state()
    ensures { (s t : State) → IsState s → IsState t → root_of s ≡ root_of t
        → SameState s t ⊎ Clash (Root.hashed_strings s) (Root.hashed_strings t) }
{}

/// The manifest of a valid state is a manifest, and is read again from its text.
pub fn state_manifests_are_manifests()
    ensures good { (s : State) → IsState s → IsManifest (manifest_of s) }
    ensures read_again { (s : State) → IsState s → read_manifest (manifest_text (manifest_of s)) ≡ Ok (manifest_of s) }
{}

/// The meta-manifest of a valid state can be encoded: it has 1 to 128 pieces.
pub fn state_metas_are_metas()
    ensures { (s : State) → IsState s → IsMeta (meta_of (manifest_of s)) }
{}

/// Pieces that are right for a meta-manifest with the root of a valid state spell that state's manifest, and chunks that
/// are right for this manifest are those chunks of the state's files that have rows, or two strings clash.
pub fn right_items_are_the_state_s()
    ensures manifest { (s : State) (m : MetaManifest) (ps : List Bytes) → IsState s → AreByteStrings ps
        → root_of_meta m ≡ root_of s → map piece_hash ps ≡ m.pieces
        → (read_manifest (flat_map (λ p. p) ps) ≡ Ok (manifest_of s))
        ⊎ Clash (Root.hashed_strings s) (root_string m.version m.pieces ∷ map piece_string ps) }
    ensures chunks { (s : State) (cs : List Bytes) → IsState s → AreByteStrings cs
        → map chunk_hash cs ≡ map (λ r. r.sum.hash) (manifest_of s).chunks
        → (cs ≡ flat_map row_chunks (files s)) ⊎ Clash (Root.hashed_strings s) (map chunk_string cs) }
{}
