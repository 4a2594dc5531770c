//! A disk in memory. It keeps a record of its calls, so that each moment since it was made can be told.
#![tactic(auto, unfolding(crate::specs::Mem::mem_view))]

ghost use Rattle.std.specs.Prelude.{◌≡◌, ◌++◌, ◌+◌, ◌≤◌, take, drop, ◌∷◌, [], ◌<◌, Err, true, false, length, None, vec_len, vec_capacity, IfOk, OnOk, IsTrue, IsErrOf, IsSomeAnd, option_map};
ghost use Rattle.disk_model.specs.State.{IsImageNow, IsThere, IsAbsent, IsFirm, IsLoose};
ghost use Rattle.disk_model.specs.Files.{IsListing};
ghost use Rattle.disk_model.specs.Record.{files_in, disk_of_files, state_after, call_of, appended_of};
ghost use Rattle.format_spec.specs.Bytes.{IsBytes};
ghost use Rattle.disk_model.specs.OfBytes.{AreOfBytes, WroteBytes, bytes_given};
ghost use Rattle.disk_model.specs.View.{Failed, Does, LooksOrNot, HasCause, moment};
ghost use Rattle.disk_model.specs.Call.{settle, create, append, seal, rename, remove, count_after};

use crate::event::{Act, Event};
use crate::files::{
    Files, copy_files, extend_file, find_file, move_file, numbers_of, put_file, take_file,
};
use crate::image::{chosen_files, spoil_loose};
use crate::{Disk, DiskError, Kind, Name};
use byte_codec::NoMemory;
use std::alloc::{AllocError, Global};
use std::collections::BTreeMap;

/// A disk in memory, which fails the calls that it is told to.
#[derive(Drop)]
pub struct MemDisk {
    /// The files as they read.
    files: Files,
    /// Those that it was made with.
    first: Files,
    /// Each call so far, but for those that wanted memory.
    events: Vec<Event>,
    fails: Vec<u64>,
    stop: Option<u64>,
    faults: u64,
    appended: u64,
    bytes_read: u64,
    ghost reads: { files_in files.entries ≡ (state_after (disk_of_files (files_in first.entries)) events.items).files },
    ghost total: { appended ≡ count_after 0 (appended_of 0 events.items) },
    ghost first_bytes: { AreOfBytes (files_in first.entries) },
    ghost wrote_bytes: { WroteBytes events.items },
}

impl MemDisk {
    ghost use Rattle.disk_model.specs.Mem.{mem_view, faults_of, fails_of, stop_of, fresh_view, is_to_fail, HasOrders, FollowsOrders};
    ghost use Rattle.disk_model.specs.Images.{image_of};

    /// An empty disk, whose calls of these numbers fail, counted from 0, and all from number `stop` on.
    pub fn new(alloc: Global, fails: Vec<u64>, stop: Option<u64>) -> MemDisk
        ensures empty { mem_view result ≡ fresh_view (λ _. None) }
        ensures faults { faults_of result ≡ 0 }
        ensures listed { fails_of result ≡ fails.items }
        ensures stop { stop_of result ≡ stop }
    {
        MemDisk {
            files: BTreeMap::new(alloc),
            first: BTreeMap::new(alloc),
            events: Vec::new(alloc),
            fails,
            stop,
            faults: 0,
            appended: 0,
            bytes_read: 0,
        }
    }

    /// How many calls it has had, but for those that wanted memory. The clock stands at this number.
    pub fn calls(&self) -> u64
        ensures { result ≡ moment (mem_view self.now) }
    {
        self.events.len() as u64
    }

    /// How many bytes were appended, up to the greatest `u64`.
    pub fn appended(&self) -> u64
        ensures { result ≡ count_after 0 (mem_view self.now).appended }
    {
        self.appended
    }

    /// How many bytes were read, up to the greatest `u64`.
    pub fn bytes_read(&self) -> u64
        ensures { result ≡ (mem_view self.now).bytes_read }
    {
        self.bytes_read
    }

    /// A disk as a crash may leave this one now: all its files are firm, nothing is pending, and none of its calls fails.
    /// By bit 0 of the choice pending renames and removals have happened. By bits 1 and 2 loose files are absent (0), whole (1),
    /// cut to half their length, rounded down (2), or all 0xff at their length (3).
    pub fn image(&self, alloc: Global, choice: u8) -> Result<MemDisk, NoMemory>
        ensures image { IfOk result (λ m. mem_view m ≡ fresh_view (image_of choice (mem_view self.now).state)) }
        ensures crash { IfOk result (λ m. IsImageNow (mem_view self.now).state (mem_view m).state.files) }
        ensures faults { IfOk result (λ m. faults_of m ≡ 0) }
        ensures orders { IfOk result (λ m. (fails_of m ≡ []) × (stop_of m ≡ None)) }
    {
        let files = self.image_files(alloc, choice)?;
        let first = copy_files(&files)?;
        Ok(MemDisk {
            files,
            first,
            events: Vec::new(alloc),
            fails: Vec::new(alloc),
            stop: None,
            faults: 0,
            appended: 0,
            bytes_read: 0,
        })
    }

    // The files that an image has.
    fn image_files(&self, alloc: Global, choice: u8) -> Result<Files, AllocError>
        ensures { IfOk result (λ files. files_in files.entries ≡ image_of choice (mem_view self.now).state) }
    {
        let mut files = chosen_files(alloc, &self.first, &self.events, choice % 2 == 1)?;
        spoil_loose(alloc, &self.files, &self.events, choice / 2 % 4, &mut files)?;
        Ok(files)
    }

    /// Whether the next call is to fail.
    fn is_failing(&self) -> bool
        ensures { result ≡ is_to_fail self.now }
    {
        let calls = self.events.len() as u64;
        let is_listed = self.fails.contains(&calls);
        match self.stop {
            Some(stop) => is_listed || stop <= calls,
            None => is_listed,
        }
    }

    // Notes a call that fails, in a record that has room for it.
    fn fail(&mut self, act: Act) -> Result<(), DiskError>
        requires room { vec_len self.old.events < vec_capacity self.old.events }
        requires bytes { IsBytes (bytes_given (call_of act)) }
        ensures fault { result ≡ Err DiskError.Fault }
        ensures failed { Failed (call_of act) (mem_view self.old) (mem_view self.new) }
        ensures cause { HasCause (faults_of self.old) (faults_of self.new) result }
        ensures orders { HasOrders self.old self.new }
        ensures unread { (mem_view self.new).state.files ≡ (mem_view self.old).state.files }
        ensures files { self.new.files ≡ self.old.files }
    {
        note(&mut self.events, act, false);
        self.faults = self.faults.saturating_add(1);
        Err(DiskError::Fault)
    }

    // A call that only looks, and reads so many bytes.
    fn look(&mut self, count: u64) -> Result<(), DiskError>
        ensures reads_only { LooksOrNot count result (mem_view self.old) (mem_view self.new) }
        ensures counted { OnOk result ((mem_view self.new).bytes_read ≡ count_after (mem_view self.old).bytes_read count) }
        ensures cause { HasCause (faults_of self.old) (faults_of self.new) result }
        ensures orders { FollowsOrders result self.old self.new }
        ensures files { self.new.files ≡ self.old.files }
    {
        let fails = self.is_failing();
        self.events.reserve(1)?;
        if fails {
            return self.fail(Act::Look);
        }
        note(&mut self.events, Act::Look, true);
        self.bytes_read = self.bytes_read.saturating_add(count);
        Ok(())
    }
}

// Puts an event into a record that has room for it.
fn note(events: &mut Vec<Event>, act: Act, done: bool)
    requires { vec_len events.old < vec_capacity events.old }
    ensures { events.new.items ≡ events.old.items ++ record { act = act; done = done } ∷ [] }
{
    let _ = events.push(Event { act, done });
}

impl Disk for MemDisk {
    ghost use Rattle.disk_model.specs.Mem.{mem_view, faults_of, mem_is_sound, mem_holds_bytes, FollowsOrders};

    ghost tells = { true };

    ghost view = { mem_view };

    ghost faults = { faults_of };

    ghost reads_as_image = { λ m _. mem_is_sound m };

    ghost holds_bytes = { λ m _. mem_holds_bytes m };

    fn settle(&mut self, _alloc: Global) -> Result<(), DiskError>
        ensures does { Does settle result (mem_view self.old) (mem_view self.new) }
        ensures cause { HasCause (faults_of self.old) (faults_of self.new) result }
        ensures orders { FollowsOrders result self.old self.new }
    {
        let fails = self.is_failing();
        self.events.reserve(1)?;
        if fails {
            return self.fail(Act::Settle);
        }
        note(&mut self.events, Act::Settle, true);
        Ok(())
    }

    fn list(&mut self, alloc: Global, kind: Kind) -> Result<Vec<u64>, DiskError>
        ensures listing { IfOk result (λ numbers. IsListing kind (mem_view self.old).state.files numbers.items) }
        ensures reads_only { LooksOrNot 0 result (mem_view self.old) (mem_view self.new) }
        ensures cause { HasCause (faults_of self.old) (faults_of self.new) result }
        ensures orders { FollowsOrders result self.old self.new }
    {
        let numbers = numbers_of(alloc, &self.files, kind)?;
        self.look(0)?;
        Ok(numbers)
    }

    fn size(&mut self, _alloc: Global, name: Name) -> Result<Option<u64>, DiskError>
        ensures size { IfOk result (λ size. size ≡ option_map length ((mem_view self.old).state.files name)) }
        ensures reads_only { LooksOrNot 0 result (mem_view self.old) (mem_view self.new) }
        ensures cause { HasCause (faults_of self.old) (faults_of self.new) result }
        ensures orders { FollowsOrders result self.old self.new }
    {
        self.look(0)?;
        match find_file(&self.files, name) {
            Some(bytes) => Ok(Some(bytes.len() as u64)),
            None => Ok(None),
        }
    }

    fn read(
        &mut self,
        _alloc: Global,
        name: Name,
        at: u64,
        into: &mut [u8],
    ) -> Result<(), DiskError>
        requires { IsSomeAnd ((mem_view self.old).state.files name) (λ bytes. at + length into.old ≤ length bytes) }
        ensures bytes { OnOk result (IsSomeAnd ((mem_view self.old).state.files name) (λ bytes. into.new ≡ take (length into.old) (drop at bytes))) }
        ensures counted { OnOk result ((mem_view self.new).bytes_read ≡ count_after (mem_view self.old).bytes_read (length into.old)) }
        ensures reads_only { LooksOrNot (length into.old) result (mem_view self.old) (mem_view self.new) }
        ensures cause { HasCause (faults_of self.old) (faults_of self.new) result }
        ensures orders { FollowsOrders result self.old self.new }
    {
        self.look(into.len() as u64)?;
        match find_file(&self.files, name) {
            Some(bytes) => copy_from(bytes, at as usize, into),
            None => unreachable!(),
        }
        Ok(())
    }

    fn create(&mut self, alloc: Global, name: Name) -> Result<(), DiskError>
        requires { IsAbsent (mem_view self.old).state name }
        ensures does { Does (create name) result (mem_view self.old) (mem_view self.new) }
        ensures cause { HasCause (faults_of self.old) (faults_of self.new) result }
        ensures orders { FollowsOrders result self.old self.new }
    {
        let fails = self.is_failing();
        self.events.reserve(1)?;
        if fails {
            return self.fail(Act::Create(name));
        }
        put_file(&mut self.files, name, Vec::new(alloc))?;
        note(&mut self.events, Act::Create(name), true);
        Ok(())
    }

    fn append(&mut self, alloc: Global, name: Name, bytes: &[u8]) -> Result<(), DiskError>
        requires { IsLoose (mem_view self.old).state name }
        ensures does { Does (append name bytes.now) result (mem_view self.old) (mem_view self.new) }
        ensures cause { HasCause (faults_of self.old) (faults_of self.new) result }
        ensures orders { FollowsOrders result self.old self.new }
    {
        let fails = self.is_failing();
        self.events.reserve(1)?;
        let kept = Vec::from_slice(alloc, bytes)?;
        if fails {
            return self.fail(Act::Append(name, kept));
        }
        extend_file(&mut self.files, name, bytes)?;
        note(&mut self.events, Act::Append(name, kept), true);
        self.appended = self.appended.saturating_add(bytes.len() as u64);
        Ok(())
    }

    fn seal(&mut self, _alloc: Global, name: Name) -> Result<(), DiskError>
        requires { IsLoose (mem_view self.old).state name }
        ensures does { Does (seal name) result (mem_view self.old) (mem_view self.new) }
        ensures cause { HasCause (faults_of self.old) (faults_of self.new) result }
        ensures orders { FollowsOrders result self.old self.new }
    {
        let fails = self.is_failing();
        self.events.reserve(1)?;
        if fails {
            return self.fail(Act::Seal(name));
        }
        note(&mut self.events, Act::Seal(name), true);
        Ok(())
    }

    fn rename(&mut self, alloc: Global, from: Name, to: Name) -> Result<(), DiskError>
        requires from { IsFirm (mem_view self.old).state from }
        requires to { IsAbsent (mem_view self.old).state to }
        ensures does { Does (rename from to) result (mem_view self.old) (mem_view self.new) }
        ensures cause { HasCause (faults_of self.old) (faults_of self.new) result }
        ensures orders { FollowsOrders result self.old self.new }
    {
        let fails = self.is_failing();
        self.events.reserve(1)?;
        if fails {
            return self.fail(Act::Rename(from, to));
        }
        move_file(alloc, &mut self.files, from, to)?;
        note(&mut self.events, Act::Rename(from, to), true);
        Ok(())
    }

    fn remove(&mut self, _alloc: Global, name: Name) -> Result<(), DiskError>
        requires { IsThere (mem_view self.old).state name }
        ensures does { Does (remove name) result (mem_view self.old) (mem_view self.new) }
        ensures cause { HasCause (faults_of self.old) (faults_of self.new) result }
        ensures orders { FollowsOrders result self.old self.new }
    {
        let fails = self.is_failing();
        self.events.reserve(1)?;
        if fails {
            return self.fail(Act::Remove(name));
        }
        let _ = take_file(&mut self.files, name);
        note(&mut self.events, Act::Remove(name), true);
        Ok(())
    }
}

// Fills a buffer from an offset on.
fn copy_from(bytes: &[u8], at: usize, into: &mut [u8])
    requires { at + length into.old ≤ length bytes.now }
    ensures { into.new ≡ take (length into.old) (drop at bytes.now) }
{
    into.copy_from_slice(&bytes[at..at + into.len()]);
}
