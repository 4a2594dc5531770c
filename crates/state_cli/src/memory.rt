ghost use Rattle.std.specs.Prelude.{◌≡◌, ◌⊎◌, ◌++◌, None};
ghost use Rattle.disk_model.specs.Mem.{mem_view, fresh_view, faults_of};
ghost use Rattle.machine_spec.specs.Script.{output_of};
ghost use Rattle.script_text.specs.Script.{lines, AreWithinLimits};

use crate::program::run;
use disk_model::MemDisk;
use io_edge::{MemSink, MemSource};
use script_text::Status;
use std::alloc::Global;

/// Runs a script in memory, over a disk that is new. Where the script is within the limits and no call failed, the sink gains
/// exactly the replies of the plain machine that begins with nothing, or there was no memory.
pub fn run_in_memory(
    alloc: Global,
    source: &mut MemSource,
    sink: &mut MemSink,
    disk: &mut MemDisk,
) -> Status
    ensures { mem_view disk.old ≡ fresh_view (λ _. None) → AreWithinLimits (lines source.old.left)
        → source.new.faults ≡ 0 → sink.new.faults ≡ 0 → faults_of disk.new ≡ 0
        → ((result ≡ Status.Done) × (sink.new.written ≡ sink.old.written ++ output_of source.old.left)) ⊎ (result ≡ Status.Memory) }
{
    run(alloc, &[], source, sink, disk)
}
