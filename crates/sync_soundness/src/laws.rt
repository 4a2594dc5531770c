//! Laws of the definitions.

ghost use Rattle.std.specs.Prelude.{◌≡◌, ◌⊎◌, ◌<◌, ◌≤◌, ℕ, List, length, map, slice_index_or, Ok, Err};
ghost use Rattle.std.specs.List.{flat_map};
ghost use Rattle.format_spec.specs.Bytes.{Bytes};
ghost use Rattle.format_spec.specs.declared.limits.TheConstants.{MAX_PEERS};
ghost use Rattle.format_spec.specs.Hashes.{Clash};
ghost use Rattle.state_spec.specs.State.{State, IsState, SystemPart};
ghost use Rattle.state_spec.specs.Manifest.{Manifest, manifest_of, manifest_from, sums_of, row_chunks};
ghost use Rattle.state_spec.specs.Files.{File, files};
ghost use Rattle.state_spec.specs.ManifestText.{read_manifest};
ghost use Rattle.state_spec.specs.Root.{MetaManifest, IsMeta, root_of, root_of_meta, hashed_strings};
ghost use Rattle.sync_spec.specs.Messages.{Item, chunk, Ask};
ghost use Rattle.sync_spec.specs.Serving.{rows};
ghost use Rattle.sync_spec.specs.SyncLaws.{KnowsManifest, IsHeld, IsSync, KeepsKnowing, FailsByClash};
ghost use Rattle.sync_spec.specs.Events.{Events};
ghost use Rattle.sync_spec.specs.Rows.{system_number};
ghost use Rattle.sync_spec.specs.Install.{file_bytes, chunks_had, system_for, installed_state};
ghost use Rattle.sync_spec.specs.Sync.{Sync, Stage, Heights, sync_to, pieces_had, joined_manifest, system_had, item_string};
ghost use Rattle.sync_soundness.specs.Held.{HoldsManifest, HoldsChunks};
ghost use Rattle.sync_soundness.specs.Honest.{ServesRight, BringsServed};
ghost use Rattle.sync_soundness.specs.Runs.{Step, MissingUntilRight, DoneIsTarget, DoneIsTheState, RunFailsByClash};

/// Where a valid state has the target's root, the meta-manifest has its version, or two strings clash.
pub fn meta_manifests_have_the_version()
    ensures { (s : State) (m : MetaManifest) (had : List (Item × Bytes)) → IsState s → IsMeta m → root_of_meta m ≡ root_of s → HoldsManifest m had
        → (m.version ≡ s.version) ⊎ Clash (hashed_strings s) (map item_string had) }
{}

/// Where a valid state has the target's root, the right pieces spell its manifest, or two strings clash.
pub fn right_pieces_spell_the_manifest()
    ensures spelled { (s : State) (m : MetaManifest) (had : List (Item × Bytes)) → IsState s → root_of_meta m ≡ root_of s → HoldsManifest m had
        → (read_manifest (flat_map (λ p. p) (pieces_had m had)) ≡ Ok (manifest_of s)) ⊎ Clash (hashed_strings s) (map item_string had) }
    ensures joined { (s : State) (m : MetaManifest) (had : List (Item × Bytes)) → IsState s → IsMeta m → root_of_meta m ≡ root_of s → HoldsManifest m had
        → (joined_manifest m had ≡ Ok (manifest_of s)) ⊎ Clash (hashed_strings s) (map item_string had) }
{}

/// Where a valid state has the target's root, right pieces are no manifest, or none of the meta-manifest's version, only where
/// two strings clash.
pub fn bad_manifests_clash()
    ensures spelled { (s : State) (m : MetaManifest) (had : List (Item × Bytes)) (place : ℕ) → IsState s → root_of_meta m ≡ root_of s → HoldsManifest m had
        → read_manifest (flat_map (λ p. p) (pieces_had m had)) ≡ Err place → Clash (hashed_strings s) (map item_string had) }
    ensures joined { (s : State) (m : MetaManifest) (had : List (Item × Bytes)) (place : ℕ) → IsState s → IsMeta m → root_of_meta m ≡ root_of s → HoldsManifest m had
        → joined_manifest m had ≡ Err place → Clash (hashed_strings s) (map item_string had) }
{}

/// The chunks of all files that have rows, taken by the rows of a manifest of these files, give back the bytes of each file.
pub fn chunks_give_back_the_files()
    ensures { (version : ℕ) (fs : List File) (k : ℕ) (d : File) → k < length fs
        → file_bytes (manifest_from version (map sums_of fs)) (flat_map row_chunks fs) k ≡ (slice_index_or fs k d).bytes }
{}

/// Chunks that are right by the rows of a valid state's manifest are those of its files that have rows, or two strings clash.
pub fn right_chunks_are_the_state_s()
    ensures { (s : State) (had : List (Item × Bytes)) → IsState s → HoldsChunks (manifest_of s) had
        → (chunks_had (manifest_of s) had ≡ flat_map row_chunks (files s)) ⊎ Clash (hashed_strings s) (map item_string had) }
{}

/// Right chunks give a bad system text only where two strings clash.
pub fn bad_systems_clash()
    ensures { (s : State) (had : List (Item × Bytes)) (place : ℕ) → IsState s → HoldsChunks (manifest_of s) had
        → system_for (manifest_of s) (file_bytes (manifest_of s) (chunks_had (manifest_of s) had) (system_number (manifest_of s))) ≡ Err place
        → Clash (hashed_strings s) (map item_string had) }
{}

/// A sync whose system text is bad: two strings clash.
pub fn a_bad_system_text_clashes()
    ensures { (state : State) (s : Sync) (m : Manifest) (place : ℕ) → IsState state → root_of state ≡ s.root → KnowsManifest s m
        → ((i : ℕ) → i < length m.chunks → IsHeld s (rows m) (chunk i)) → system_for m (system_had s m) ≡ Err place → Clash (hashed_strings state) (map item_string s.had) }
{}

/// A sync fails only where no valid state has the target's root, or two strings clash: one that was hashed for that state
/// and one that was hashed in this sync, the item of the line that ends it included.
pub fn syncs_fail_by_clash()
    ensures { (heights : Heights) (s : Sync) (e : Events) → FailsByClash heights s e }
{}

/// Where a manifest is known, each of its chunks is held, and the system text agrees with it, the state that is installed is
/// valid, has that manifest, and has the root that was asked for.
pub fn installed_states_have_the_root()
    ensures { (s : Sync) (m : Manifest) (parts : SystemPart) → KnowsManifest s m → ((i : ℕ) → i < length m.chunks → IsHeld s (rows m) (chunk i))
        → system_for m (system_had s m) ≡ Ok parts → IsState (installed_state s.height m parts (chunks_had m s.had))
        × (manifest_of (installed_state s.height m parts (chunks_had m s.had)) ≡ m) × (root_of (installed_state s.height m parts (chunks_had m s.had)) ≡ s.root) }
{}

/// A sync knows what it is to know as it begins.
pub fn syncs_begin()
    ensures { (height : ℕ) (root : Bytes) (peers : ℕ) → peers ≤ MAX_PEERS → IsSync (sync_to height root peers) }
{}

/// What a sync knows lasts under each step, over published heights that ascend and whose states are valid.
pub fn what_a_sync_knows_lasts()
    ensures { (heights : Heights) (s : Sync) (e : Events) → KeepsKnowing heights s e }
{}

/// Whatever peers do and whatever is published, a state that a sync tells to be ready is valid and has the root that the sync
/// was begun with.
pub fn what_is_ready_has_the_root()
    ensures { (height : ℕ) (root : Bytes) (peers : ℕ) (steps : List Step) (s : Sync) (heights : Heights) (e : Events) → DoneIsTarget height root peers steps s heights e }
{}

/// Such a state is any other valid state with that root in all but births and rounds, or two strings clash.
pub fn what_is_ready_is_the_state()
    ensures { (height : ℕ) (root : Bytes) (peers : ℕ) (steps : List Step) (s : Sync) (heights : Heights) (e : Events) → DoneIsTheState height root peers steps s heights e }
{}

/// A sync that was begun fails only where no valid state has its root, or two strings clash.
pub fn begun_syncs_fail_by_clash()
    ensures { (height : ℕ) (root : Bytes) (peers : ℕ) (steps : List Step) (s : Sync) (heights : Heights) (e : Events) → RunFailsByClash height root peers steps s heights e }
{}

/// Over any steps while a list of items is the current one, an item of it is missing exactly where no right answer that names
/// the target and the item was taken, whoever sent it and whatever strikes and asks there are.
pub fn items_are_missing_while_listed()
    ensures { (stage : Stage) (steps : List Step) (s t : Sync) → MissingUntilRight stage s t steps }
{}

/// A store that has the state answers what is right: an ask for an item of a published valid state is answered by the item's bytes, by
/// the state's root, by its meta-manifest or by its manifest, whichever the item is judged by. So a sync takes them from it.
pub fn served_items_are_right()
    ensures right { (heights : Heights) (ask : Ask) (p : ℕ × State) → ServesRight heights ask p }
    ensures brings { (heights : Heights) (ask : Ask) (p : ℕ × State) (s : Sync) → BringsServed heights ask p s }
{}
