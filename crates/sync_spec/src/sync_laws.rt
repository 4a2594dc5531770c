//! Laws of a sync.

ghost use Rattle.std.specs.Prelude.{◌≡◌, ℕ, suc, not, filter, Some};
ghost use Rattle.sync_spec.specs.Events.{Events};
ghost use Rattle.sync_spec.specs.Serving.{Known};
ghost use Rattle.sync_spec.specs.CoreLaws.{items_missing};
ghost use Rattle.sync_spec.specs.Sync.{Sync, Heights, known_at, steps_left, sync_step};
ghost use Rattle.sync_spec.specs.SyncLaws.{brings_right, StepsDown, IsReady, ReadyIsTarget};

/// While a list of items is the current one, each turn leaves those missing that no right answer of it brings, whoever sends
/// it and whatever strikes and asks there are.
pub fn items_are_missing_until_right()
    ensures { (heights : Heights) (s t : Sync) (e : Events) (known : Known) → known_at s.root s.stage ≡ Some known
        → (sync_step heights s e).after ≡ Some t → t.stage ≡ s.stage
        → items_missing t.core ≡ filter (λ i. not (brings_right s e i)) (items_missing s.core) }
{}

/// Each step of installing leaves one step less or finds a bad system text, and the last one has the state ready.
pub fn installing_ends()
    ensures step { (heights : Heights) (s : Sync) (e : Events) (k : ℕ) → steps_left s.stage ≡ suc (suc k) → StepsDown (suc k) (sync_step heights s e) }
    ensures last { (heights : Heights) (s : Sync) (e : Events) → steps_left s.stage ≡ 1 → IsReady (sync_step heights s e) }
{}

/// A state that is ready is valid and has the target's root.
pub fn ready_states_have_the_root()
    ensures { (heights : Heights) (s : Sync) (e : Events) → ReadyIsTarget heights s e }
{}
