//! The program's run.

ghost use Rattle.std.specs.Prelude.{◌≡◌, ◌≢◌, ◌↔◌, ◌≤◌, ◌⊎◌, ◌++◌, ℕ, List, codes, decimal, map, string_bytes, Option, None, Some, Ok, Err, OnOk, OnErr, IsTrue};
ghost use Rattle.std.specs.Io.KnownBytes.{IsAtEnd, Appends};
ghost use Rattle.io_edge.specs.Faults.{HasCause, IsProperPrefix, Rose};
ghost use Rattle.io_edge.specs.Moves.{Moves};
ghost use Rattle.disk_model.specs.State.{IsImageNow};
ghost use Rattle.disk_model.specs.View.{LeavesOnly};
ghost use Rattle.machine_spec.specs.Machine.{Machine};
ghost use Rattle.script_text.specs.Endings.{status_of as status_by, closing_text, with_number};
ghost use Rattle.script_text.specs.Options.{options_of as options_in};
ghost use Rattle.script_text.specs.Script.{lines, AreWithinLimits};
ghost use Rattle.state_cli.specs.Ends.{Ends, StandsAs, OpensBy, Closes, all_shown};

use crate::session::serve;
use disk_model::Disk;
use io_edge::{Failed, Sink, Source, write_all};
use itoa::Buffer;
use script_text::{RunStop, Status, closing_parts, options_of, status_of};
use std::alloc::Global;

// Writes a last line that ends with a number.
fn write_numbered<K: Sink>(sink: &mut K, text: &[u8], number: u64) -> Result<(), Failed>
    ensures all { OnOk result (Appends (K.written sink.old) (K.written sink.new) (text.now ++ decimal number ++ codes "\n")) }
    ensures prefix { OnErr result ((part : List ℕ) × IsProperPrefix part (text.now ++ decimal number ++ codes "\n") × Appends (K.written sink.old) (K.written sink.new) part) }
    ensures cause { HasCause (K.faults sink.old) (K.faults sink.new) result }
{
    write_all(sink, text)?;
    write_all(sink, Buffer::new().format(number).as_bytes())?;
    write_all(sink, b"\n")
}

// Writes the last line of a stop.
fn write_last<K: Sink>(sink: &mut K, stop: RunStop) -> Result<(), Failed>
    ensures all { OnOk result (Appends (K.written sink.old) (K.written sink.new) (closing_text stop)) }
    ensures prefix { OnErr result ((part : List ℕ) × IsProperPrefix part (closing_text stop) × Appends (K.written sink.old) (K.written sink.new) part) }
    ensures cause { HasCause (K.faults sink.old) (K.faults sink.new) result }
{
    let (text, number) = closing_parts(stop);
    match number {
        None => write_all(sink, text),
        Some(number) => write_numbered(sink, text, number),
    }
}

// The status of a stop. Its last line is written; where that fails, the status stays.
fn close<K: Sink>(sink: &mut K, stop: RunStop) -> Status
    ensures status { result ≡ status_by (Err stop) }
    ensures closes { (last : List ℕ) × Appends (K.written sink.old) (K.written sink.new) last × Closes (K.faults sink.old) (K.faults sink.new) (closing_text stop) last }
    ensures count { K.faults sink.old ≤ K.faults sink.new }
{
    let _ = write_last(sink, stop);
    status_of(Err(stop))
}

/// Runs the program: opens its disk, takes a script from a source, line by line, and gives the sink the reply to each
/// line before it takes the next. `words` are those behind the program's name; they give its options.
///
/// - `Done`: the source is at its end, and every line is answered.
/// - `Usage`: a word is no option. Nothing is taken, the disk isn't called, and the usage line is given.
/// - `BadRoot`: the disk doesn't open. The last line names the first bad mark by height, or else the first bad page file by
///   number that a mark names. Nothing is taken, and the disk's images are those on entry.
/// - `LongLine`: a line has more than 262,144 bytes. `ManyLines`: there is a byte behind 1,000,000 lines.
/// - `ReadFault`, `WriteFault`, `DiskFault`: the source, the sink or the disk failed, and its count of faults rose.
/// - `Memory`: there was no memory.
///
/// At a stop the lines before are answered, and a last line names it, but after `WriteFault`.
pub fn run<S: Source, K: Sink, D: Disk>(
    alloc: Global,
    words: &[String],
    source: &mut S,
    sink: &mut K,
    disk: &mut D,
) -> Status
    // The script is what was taken from the source, and all answers are shown. Whatever the disk is, each line of it is answered
    // whole, by one reply that fits it, up to where the status says that it ends. Where the disk tells its files and every image of
    // it stands for the same published heights on entry, the replies are those of the plain machine that begins at these heights,
    // and every image since stands for the heights after some front of the lines answered or begun.
    ensures session { Moves (S.left source.old) (S.left source.new) (K.written sink.old) (K.written sink.new)
        (Ends result D.tells (StandsAs (D.view disk.old).state) all_shown (Closes (K.faults sink.old) (K.faults sink.new)) (IsAtEnd (S.left source.new)) (D.view disk.old) (D.view disk.new)) }

    // Where nothing fails, such a run of a script within the limits comes to its end, or there was no memory.
    ensures complete { options_in (map (λ word. string_bytes word) words.now) ≢ None → IsTrue D.tells
        → (first : Machine) → StandsAs (D.view disk.old).state first
        → (script : List ℕ) → S.left source.old ≡ Some script → AreWithinLimits (lines script)
        → ¬ Rose (S.faults source.old) (S.faults source.new) → ¬ Rose (K.faults sink.old) (K.faults sink.new) → ¬ Rose (D.faults disk.old) (D.faults disk.new)
        → (result ≡ Status.Done) ⊎ (result ≡ Status.Memory) }

    // Whatever the disk has: it opens, or nothing was taken. Where it doesn't open, a crash at any moment leaves what it could
    // have left on entry.
    ensures opens { IsTrue D.tells → OpensBy result (D.view disk.old).state.files (source.new ≡ source.old) }
    ensures bad_root_keeps { result ≡ Status.BadRoot → (source.new ≡ source.old)
        × (IsTrue D.tells → LeavesOnly (D.view disk.old) (D.view disk.new) (IsImageNow (D.view disk.old).state)) }

    // When each status comes.
    ensures usage { (result ≡ Status.Usage) ↔ (options_in (map (λ word. string_bytes word) words.now) ≡ None) }
    ensures usage_takes_nothing { result ≡ Status.Usage → (source.new ≡ source.old) × (disk.new ≡ disk.old) }
    ensures read_fault { result ≡ Status.ReadFault → Rose (S.faults source.old) (S.faults source.new) }
    ensures write_fault { result ≡ Status.WriteFault → Rose (K.faults sink.old) (K.faults sink.new) }
    ensures disk_fault { result ≡ Status.DiskFault → Rose (D.faults disk.old) (D.faults disk.new) }
{
    let Some(options) = options_of(words) else {
        return close(sink, RunStop::Usage);
    };
    match serve(alloc, options, source, sink, disk) {
        Ok(()) => Status::Done,
        Err(stop) => close(sink, stop),
    }
}
