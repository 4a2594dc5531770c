//! Publishing a state.

ghost use Rattle.std.specs.Prelude.{◌≤◌, ◌<◌, ◌^◌, length, IsTrue};
ghost use Rattle.std.specs.List.{AllByRecursion};
ghost use Rattle.format_spec.specs.declared.limits.TheConstants.{MAX_HEIGHT, MAX_PUBLISHED};
ghost use Rattle.disk_model.specs.Causes.{Fails};
ghost use Rattle.height_store.specs.Kept.{MatchesFiles};
ghost use Rattle.state_manager.specs.Publishes.{Publishes};

use disk_model::{Disk, DiskError};
use hash_domain::Hash32;
use height_store::HeightStore;
use live_state::HeightState;
use std::alloc::Global;
use whole_state::checkpoint;

/// Publishes a state at its height, and answers its root hash.
pub fn publish<D: Disk>(
    alloc: Global,
    state: &HeightState,
    store: &mut HeightStore,
    disk: &mut D,
) -> Result<Hash32, DiskError>
    requires at_most { state.now.height ≤ MAX_HEIGHT }
    requires above { AllByRecursion (λ h. h.mark.height < state.now.height) store.old.heights }
    requires few { length store.old.heights < MAX_PUBLISHED }
    requires numbers { store.old.numbers_given ≤ 2 ^ 60 }
    requires over { IsTrue D.tells → MatchesFiles store.old (D.view disk.old).state.files }
    ensures publishes { Publishes D.tells state.now store.old store.new (D.view disk.old) (D.view disk.new) result }
    ensures cause { Fails D.Disk disk.old disk.new result }
{
    checkpoint(
        alloc,
        store,
        disk,
        state.height(),
        state.system(),
        state.memories(),
    )
}
