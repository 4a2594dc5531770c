//! What a crash may leave of a disk in memory, from its record.
ghost use Rattle.std.specs.Prelude.{◌≡◌, false, OnOk, IfOk, option_map};
ghost use Rattle.disk_model.specs.Record.{files_in, call_of};
ghost use Rattle.disk_model.specs.Images.{chosen_after, reading_after, chosen_of, is_marked, is_marked_after, spoiled_file, spoiled_where};

use crate::Name;
use crate::event::{Act, Event};
use crate::files::{Files, append_file, copy_file, copy_files, set_file};
use std::alloc::{AllocError, Global};

// How the files read after an event.
fn redo_reading(alloc: Global, reading: &mut Files, event: &Event) -> Result<(), AllocError>
    ensures { OnOk result ((q : Name) → files_in reading.new.entries q ≡ reading_after event.now (files_in reading.old.entries) q) }
{
    if !event.done {
        return Ok(());
    }
    match &event.act {
        Act::Look | Act::Settle | Act::Seal(_) => Ok(()),
        Act::Create(name) => set_file(reading, *name, Some(Vec::new(alloc))),
        Act::Append(name, bytes) => append_file(alloc, reading, *name, bytes),
        Act::Rename(from, to) => {
            let bytes = copy_file(alloc, reading, *from)?;
            set_file(reading, *from, None)?;
            set_file(reading, *to, bytes)
        }
        Act::Remove(name) => set_file(reading, *name, None),
    }
}

// What is on the disk after an event.
fn redo_chosen(
    alloc: Global,
    reading: &Files,
    chosen: &mut Files,
    event: &Event,
    happened: bool,
) -> Result<(), AllocError>
    ensures { OnOk result ((q : Name) → files_in chosen.new.entries q ≡ chosen_after happened (call_of event.now.act) event.now.done
        (files_in reading.now.entries) (files_in chosen.old.entries) q) }
{
    match &event.act {
        Act::Settle => {
            if event.done {
                *chosen = copy_files(reading)?;
            }
            Ok(())
        }
        Act::Look | Act::Create(_) | Act::Append(_, _) => Ok(()),
        Act::Seal(name) => {
            if event.done {
                set_file(chosen, *name, copy_file(alloc, reading, *name)?)?;
            }
            Ok(())
        }
        Act::Rename(from, to) => {
            if event.done || happened {
                set_file(chosen, *from, None)?;
                set_file(chosen, *to, copy_file(alloc, reading, *from)?)?;
            }
            Ok(())
        }
        Act::Remove(name) => {
            if event.done || happened {
                set_file(chosen, *name, None)?;
            }
            Ok(())
        }
    }
}

fn is_marked_by(name: Name, was: bool, event: &Event) -> bool
    ensures { result ≡ is_marked name was (call_of event.now.act) event.now.done }
{
    match &event.act {
        Act::Look | Act::Settle => was,
        Act::Create(n) | Act::Append(n, _) => was || *n == name,
        Act::Seal(n) => if *n == name { !event.done } else { was },
        Act::Remove(n) => was && !(event.done && *n == name),
        Act::Rename(from, to) => was && !(event.done && (*from == name || *to == name)),
    }
}

// Whether a name is loose after these events, as long as a file is there.
fn is_loose(events: &[Event], name: Name) -> bool
    ensures { result ≡ is_marked_after name false events.now }
{
    let mut is = false;
    for event in events {
        is = is_marked_by(name, is, event);
    }
    is
}

/// What is on the disk after these events, but for loose files.
pub fn chosen_files(
    alloc: Global,
    first: &Files,
    events: &[Event],
    happened: bool,
) -> Result<Files, AllocError>
    ensures { IfOk result (λ chosen. (q : Name) → files_in chosen.entries q ≡ chosen_of happened (files_in first.now.entries) (files_in first.now.entries) events.now q) }
{
    let mut reading = copy_files(first)?;
    let mut chosen = copy_files(first)?;
    for event in events {
        redo_chosen(alloc, &reading, &mut chosen, event, happened)?;
        redo_reading(alloc, &mut reading, event)?;
    }
    Ok(chosen)
}

// What becomes of a loose file.
fn spoil(alloc: Global, bytes: &[u8], how: u8) -> Result<Option<Vec<u8>>, AllocError>
    ensures { IfOk result (λ left. option_map (λ v. v.items) left ≡ spoiled_file how bytes.now) }
{
    match how {
        0 => Ok(None),
        1 => Ok(Some(Vec::from_slice(alloc, bytes)?)),
        2 => Ok(Some(Vec::from_slice(alloc, &bytes[..bytes.len() / 2])?)),
        _ => Ok(Some(vec![in alloc; 0xff; bytes.len()]?)),
    }
}

/// Spoils the files that are loose.
pub fn spoil_loose(
    alloc: Global,
    reading: &Files,
    events: &[Event],
    how: u8,
    files: &mut Files,
) -> Result<(), AllocError>
    ensures { OnOk result ((q : Name) → files_in files.new.entries q ≡ spoiled_where how (λ n. is_marked_after n false events.now) (files_in reading.now.entries) (files_in files.old.entries) q) }
{
    let _count = reading.len();
    for (name, bytes) in reading {
        if is_loose(events, *name) {
            set_file(files, *name, spoil(alloc, bytes, how)?)?;
        }
    }
    Ok(())
}
