//! A run from its beginning to its end.

ghost use Rattle.std.specs.Prelude.{◌≡◌, []};
ghost use Rattle.sync_spec.specs.Events.{no_events};
ghost use Rattle.sync_spec.specs.Sync.{Sync, ready, sync_step};
ghost use Rattle.sync_spec.specs.SyncExample.{target};
ghost use Rattle.sync_soundness.specs.Runs.{IsRun};
ghost use Rattle.sync_soundness.specs.RunExample.{example_steps, example_done};

/// The sync of the worked example is a run, and is told to be ready.
pub fn a_run_is_done()
    ensures { (s : Sync) × IsRun 1 target 2 example_steps s × ((sync_step [] s no_events).told ≡ ready example_done) }
{}
