//! What a line is answered.

ghost use Rattle.std.specs.Prelude.{◌≡◌, ◌≢◌, ◌≤◌, ◌++◌, ◌^◌, [], Err, IsTrue, OnOk, codes};
ghost use Rattle.disk_model.specs.View.{LeavesOnly};
ghost use Rattle.height_store.specs.Kept.{StandsForEither};
ghost use Rattle.io_edge.specs.Faults.{IsCounted};
ghost use Rattle.machine_spec.specs.Machine.{Machine};
ghost use Rattle.machine_spec.specs.Step.{step};
ghost use Rattle.script_text.specs.Commands.{FitsForm};
ghost use Rattle.script_text.specs.Texts.{reply_text};
ghost use Rattle.script_text.specs.declared.reply.Reply.{Reply};
ghost use Rattle.state_manager.specs.Kept.{Keeps};
ghost use Rattle.state_cli.specs.Turns.{AnswersLine, KeepsImages};
ghost use Rattle.height_store.specs.Store.{GivesFew};
ghost use Rattle.state_cli.specs.Room.{IsUsable};

use crate::session::LineError;
use disk_model::Disk;
use script_text::{Command, Parsed, parse_line, write_bad_line, write_reply};
use state_manager::Manager;
use std::alloc::Global;

// Does a command, and puts its reply and a line feed into `out`.
fn answer_command<D: Disk>(
    alloc: Global,
    manager: &mut Manager,
    command: &Command,
    disk: &mut D,
    out: &mut Vec<u8>,
) -> Result<(), LineError>
    requires empty { out.old.items ≡ [] }
    requires fits { FitsForm command.now }
    requires numbers { manager.old.store.numbers_given ≤ 2 ^ 60 }
    requires usable { IsUsable D.tells manager.old (D.view disk.old) }
    ensures answer { OnOk result ((reply : Reply) × (out.new.items ≡ reply_text reply ++ codes "\n")
        × (IsTrue D.tells → (m : Machine) → Keeps manager.old (D.view disk.old).state m
        → (reply ≡ (step m command.now).reply) × Keeps manager.new (D.view disk.new).state (step m command.now).after)) }
    ensures images { IsTrue D.tells → (m : Machine) → Keeps manager.old (D.view disk.old).state m
        → LeavesOnly (D.view disk.old) (D.view disk.new) (StandsForEither m.published (step m command.now).after.published) }
    ensures usable { OnOk result (IsUsable D.tells manager.new (D.view disk.new)) }
    ensures few { GivesFew manager.old.store manager.new.store }
    ensures disk { IsCounted (D.faults disk.old) (D.faults disk.new) (result ≡ Err LineError.DiskFault) }
    ensures no_write { result ≢ Err LineError.WriteFault }
{
    let reply = match manager.apply(alloc, command, disk) {
        Ok(reply) => reply,
        Err(halt) => return Err(LineError::from(halt)),
    };
    write_reply(&reply, out)?;
    out.push(b'\n')?;
    Ok(())
}

/// Does what a line asks for, and puts what is written for it into `out`: a reply and a line feed, or nothing for a
/// line that has no reply.
pub fn answer_into<D: Disk>(
    alloc: Global,
    manager: &mut Manager,
    line: &[u8],
    disk: &mut D,
    out: &mut Vec<u8>,
) -> Result<(), LineError>
    requires numbers { manager.old.store.numbers_given ≤ 2 ^ 60 }
    requires usable { IsUsable D.tells manager.old (D.view disk.old) }
    ensures answer { OnOk result (AnswersLine D.tells (Keeps manager.old (D.view disk.old).state) (Keeps manager.new (D.view disk.new).state) line.now out.new.items) }
    ensures images { KeepsImages D.tells (Keeps manager.old (D.view disk.old).state) (D.view disk.old) (D.view disk.new) line.now }
    ensures usable { OnOk result (IsUsable D.tells manager.new (D.view disk.new)) }
    ensures few { GivesFew manager.old.store manager.new.store }
    ensures disk { IsCounted (D.faults disk.old) (D.faults disk.new) (result ≡ Err LineError.DiskFault) }
    ensures no_write { result ≢ Err LineError.WriteFault }
{
    out.clear();
    match parse_line(alloc, line)? {
        Parsed::Silent => Ok(()),
        Parsed::BadLine => {
            write_bad_line(out)?;
            out.push(b'\n')?;
            Ok(())
        }
        Parsed::Line(command) => answer_command(alloc, manager, &command, disk, out),
    }
}
