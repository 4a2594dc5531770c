//! A script, answered line by line.

ghost use Rattle.std.specs.Prelude.{◌≡◌, ◌≢◌, ◌≤◌, ◌<◌, ◌*◌, ℕ, List, Ok, Err, IsTrue, OnOk};
ghost use Rattle.std.specs.Io.KnownBytes.{IsAtEnd, Appends};
ghost use Rattle.format_spec.specs.declared.limits.TheConstants.{MAX_LINES};
ghost use Rattle.io_edge.specs.Faults.{IsCounted};
ghost use Rattle.io_edge.specs.Moves.{Moves};
ghost use Rattle.disk_model.specs.State.{IsImageNow};
ghost use Rattle.disk_model.specs.View.{LeavesOnly};
ghost use Rattle.script_text.specs.Endings.{status_of};
ghost use Rattle.state_manager.specs.Kept.{Keeps};
ghost use Rattle.state_cli.specs.Ends.{EndsFrom, StandsAs, OpensBy, IsUnbegun, IsOpen, all_shown};
ghost use Rattle.height_store.specs.declared.limits.TheConstants.{MAX_GIVEN};
ghost use Rattle.height_store.specs.Store.{GivesFew};
ghost use Rattle.state_cli.specs.Room.{IsUsable};
ghost use Rattle.state_cli.specs.Turns.{WritesLine, TakesTurn, KeepsImages};
ghost use Rattle.state_cli.specs.Stops.{stop_of, stop_of_opening as stop_by_opening, stop_of_line, line_error_of};
ghost use Rattle.state_cli.specs.declared.reading.ReadError.{ReadError};
ghost use Rattle.state_cli.specs.declared.session.LineError.TheVariants as lines;

use crate::answering::answer_into;
use crate::reading::{LineEnd, ReadError, next_byte, read_line};
use byte_codec::NoMemory;
use disk_model::Disk;
use format_spec::MAX_LINES;
use io_edge::{Sink, Source, write_all};
use script_text::{Options, RunStop};
use state_manager::{Manager, OpenError, Stop};
use std::alloc::{AllocFailed, Global};

impl From<ReadError> for RunStop {
    ghost from_gives = { λ error stop. stop ≡ stop_of error };

    fn from(error: ReadError) -> RunStop {
        match error {
            ReadError::Fault => RunStop::ReadFault,
            ReadError::Memory => RunStop::Memory,
        }
    }
}

// The stop of a disk that isn't opened.
fn stop_of_opening(error: OpenError) -> RunStop
    ensures { result ≡ stop_by_opening error }
{
    match error {
        OpenError::BadMark(height) => RunStop::BadMark(height),
        OpenError::BadPage(number) => RunStop::BadPage(number),
        OpenError::Fault => RunStop::DiskFault,
        OpenError::Memory => RunStop::Memory,
    }
}

/// Why a line is not answered.
#[derive(Clone, Copy, Debug, PartialEq, Eq)]
pub enum LineError {
    WriteFault,
    DiskFault,
    Memory,
}

impl From<NoMemory> for LineError {
    ghost from_gives = { λ _ error. error ≡ lines.Memory };

    fn from(_error: NoMemory) -> LineError {
        LineError::Memory
    }
}

impl From<AllocFailed<u8>> for LineError {
    ghost from_gives = { λ _ error. error ≡ lines.Memory };

    fn from(_error: AllocFailed<u8>) -> LineError {
        LineError::Memory
    }
}

impl From<Stop> for LineError {
    ghost from_gives = { λ halt error. error ≡ line_error_of halt };

    fn from(halt: Stop) -> LineError {
        match halt {
            Stop::Disk => LineError::DiskFault,
            Stop::Memory | Stop::Closed => LineError::Memory,
        }
    }
}

impl From<LineError> for RunStop {
    ghost from_gives = { λ error stop. stop ≡ stop_of_line error };

    fn from(error: LineError) -> RunStop {
        match error {
            LineError::WriteFault => RunStop::WriteFault,
            LineError::DiskFault => RunStop::DiskFault,
            LineError::Memory => RunStop::Memory,
        }
    }
}

/// Whether the script goes on.
#[derive(Clone, Copy, Debug, PartialEq, Eq)]
pub enum Continuation {
    More,
    Finished,
}

/// What a run keeps between two lines: the manager, and the room for a line and for what is written for it.
#[derive(Drop)]
pub struct Session {
    manager: Manager,
    line: Vec<u8>,
    out: Vec<u8>,
}

// Does what the line asks for and writes the answer.
fn answer_line<K: Sink, D: Disk>(
    alloc: Global,
    session: &mut Session,
    sink: &mut K,
    disk: &mut D,
) -> Result<(), LineError>
    requires numbers { session.old.manager.store.numbers_given ≤ MAX_GIVEN * MAX_LINES }
    requires usable { IsUsable D.tells session.old.manager (D.view disk.old) }
    ensures answers { (gained : List ℕ) × Appends (K.written sink.old) (K.written sink.new) gained
        × WritesLine result D.tells (Keeps session.old.manager (D.view disk.old).state) (Keeps session.new.manager (D.view disk.new).state) session.old.line.items gained }
    ensures images { KeepsImages D.tells (Keeps session.old.manager (D.view disk.old).state) (D.view disk.old) (D.view disk.new) session.old.line.items }
    ensures usable { OnOk result (IsUsable D.tells session.new.manager (D.view disk.new)) }
    ensures few { GivesFew session.old.manager.store session.new.manager.store }
    ensures write { IsCounted (K.faults sink.old) (K.faults sink.new) (result ≡ Err LineError.WriteFault) }
    ensures disk { IsCounted (D.faults disk.old) (D.faults disk.new) (result ≡ Err LineError.DiskFault) }
{
    answer_into(
        alloc,
        &mut session.manager,
        &session.line,
        disk,
        &mut session.out,
    )?;
    match write_all(sink, &session.out) {
        Ok(()) => Ok(()),
        Err(_) => Err(LineError::WriteFault),
    }
}

// Reads a line and answers it, behind so many lines.
fn serve_line<S: Source, K: Sink, D: Disk>(
    alloc: Global,
    before: u32,
    session: &mut Session,
    source: &mut S,
    sink: &mut K,
    disk: &mut D,
) -> Result<Continuation, RunStop>
    requires more { before < MAX_LINES }
    requires numbers { session.old.manager.store.numbers_given ≤ MAX_GIVEN * MAX_LINES }
    requires usable { IsUsable D.tells session.old.manager (D.view disk.old) }
    ensures turn { Moves (S.left source.old) (S.left source.new) (K.written sink.old) (K.written sink.new)
        (TakesTurn result before D.tells (Keeps session.old.manager (D.view disk.old).state) (Keeps session.new.manager (D.view disk.new).state)
        (IsAtEnd (S.left source.new)) (D.view disk.old) (D.view disk.new)) }
    ensures usable { OnOk result (IsUsable D.tells session.new.manager (D.view disk.new)) }
    ensures few { GivesFew session.old.manager.store session.new.manager.store }
    ensures read { IsCounted (S.faults source.old) (S.faults source.new) (result ≡ Err RunStop.ReadFault) }
    ensures write { IsCounted (K.faults sink.old) (K.faults sink.new) (result ≡ Err RunStop.WriteFault) }
    ensures disk { IsCounted (D.faults disk.old) (D.faults disk.new) (result ≡ Err RunStop.DiskFault) }
    ensures begun { IsUnbegun result → ⊥ }
{
    match read_line(source, &mut session.line)? {
        LineEnd::NoLine => Ok(Continuation::Finished),
        LineEnd::TooLong => Err(RunStop::LongLine(before + 1)),
        LineEnd::Feed => {
            answer_line(alloc, session, sink, disk)?;
            Ok(Continuation::More)
        }
        LineEnd::Input => {
            answer_line(alloc, session, sink, disk)?;
            Ok(Continuation::Finished)
        }
    }
}

// Answers the lines of a script.
fn serve_lines<S: Source, K: Sink, D: Disk>(
    alloc: Global,
    session: &mut Session,
    source: &mut S,
    sink: &mut K,
    disk: &mut D,
) -> Result<(), RunStop>
    requires numbers { session.old.manager.store.numbers_given ≡ 0 }
    requires usable { IsUsable D.tells session.old.manager (D.view disk.old) }
    ensures session { Moves (S.left source.old) (S.left source.new) (K.written sink.old) (K.written sink.new)
        (EndsFrom 0 result D.tells (Keeps session.old.manager (D.view disk.old).state) all_shown IsOpen (IsAtEnd (S.left source.new)) (D.view disk.old) (D.view disk.new)) }
    ensures read { IsCounted (S.faults source.old) (S.faults source.new) (result ≡ Err RunStop.ReadFault) }
    ensures write { IsCounted (K.faults sink.old) (K.faults sink.new) (result ≡ Err RunStop.WriteFault) }
    ensures disk { IsCounted (D.faults disk.old) (D.faults disk.new) (result ≡ Err RunStop.DiskFault) }
    ensures begun { IsUnbegun result → ⊥ }
{
    for before in 0..MAX_LINES as u32 {
        match serve_line(alloc, before, session, source, sink, disk)? {
            Continuation::More => {}
            Continuation::Finished => return Ok(()),
        }
    }
    match next_byte(source) {
        Ok(None) => Ok(()),
        Ok(Some(_)) => Err(RunStop::ManyLines),
        Err(_) => Err(RunStop::ReadFault),
    }
}

/// Opens the disk, and answers a script to its end.
pub fn serve<S: Source, K: Sink, D: Disk>(
    alloc: Global,
    options: Options,
    source: &mut S,
    sink: &mut K,
    disk: &mut D,
) -> Result<(), RunStop>
    ensures session { Moves (S.left source.old) (S.left source.new) (K.written sink.old) (K.written sink.new)
        (EndsFrom 0 result D.tells (StandsAs (D.view disk.old).state) all_shown IsOpen (IsAtEnd (S.left source.new)) (D.view disk.old) (D.view disk.new)) }
    ensures read { IsCounted (S.faults source.old) (S.faults source.new) (result ≡ Err RunStop.ReadFault) }
    ensures write { IsCounted (K.faults sink.old) (K.faults sink.new) (result ≡ Err RunStop.WriteFault) }
    ensures disk { IsCounted (D.faults disk.old) (D.faults disk.new) (result ≡ Err RunStop.DiskFault) }
    ensures no_usage { result ≢ Err RunStop.Usage }
    ensures bad_root { IsUnbegun result → (source.new ≡ source.old) × (IsTrue D.tells → LeavesOnly (D.view disk.old) (D.view disk.new) (IsImageNow (D.view disk.old).state)) }
    ensures opens { IsTrue D.tells → OpensBy (status_of result) (D.view disk.old).state.files (source.new ≡ source.old) }
{
    let manager = match Manager::open(alloc, disk, options.cache) {
        Ok(manager) => manager,
        Err(error) => return Err(stop_of_opening(error)),
    };
    let mut session = Session {
        manager,
        line: Vec::new(alloc),
        out: Vec::new(alloc),
    };
    serve_lines(alloc, &mut session, source, sink, disk)
}
