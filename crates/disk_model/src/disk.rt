//! A disk of named files.
ghost use Rattle.std.specs.Prelude.{◌≡◌, ◌+◌, ◌≤◌, ℕ, Bool, IsTrue, OnOk, IfOk, IsSomeAnd, length, take, drop, option_map};
ghost use Rattle.disk_model.specs.declared.disk.DiskError.TheVariants.{Memory};
ghost use Rattle.disk_model.specs.Files.{IsListing};
ghost use Rattle.disk_model.specs.State.{IsThere, IsAbsent, IsFirm, IsLoose, IsImageNow};
ghost use Rattle.disk_model.specs.Call.{settle, create, append, seal, rename, remove};
ghost use Rattle.disk_model.specs.View.{DiskView, Does, LooksOrNot, HasCause};
ghost use Rattle.disk_model.specs.OfBytes.{HoldsBytes};

use crate::{Kind, Name};
use byte_codec::NoMemory;
use std::alloc::{AllocError, AllocFailed, Global};
use thiserror::Error;

/// Why a call of a disk failed.
#[derive(Clone, Copy, Debug, PartialEq, Eq, Error)]
pub enum DiskError {
    /// The disk failed, and has counted that.
    #[error("the disk failed")]
    Fault,
    /// There was no memory for the call, and the disk is unchanged.
    #[error("there was no memory for a call of the disk")]
    Memory,
}

impl From<NoMemory> for DiskError {
    ghost from_gives = { λ _ e. e ≡ Memory };

    fn from(_: NoMemory) -> Self {
        DiskError::Memory
    }
}

impl From<AllocError> for DiskError {
    ghost from_gives = { λ _ e. e ≡ Memory };

    fn from(_: AllocError) -> Self {
        DiskError::Memory
    }
}

impl<T: Drop> From<AllocFailed<T>> for DiskError {
    ghost from_gives = { λ _ e. e ≡ Memory };

    fn from(_: AllocFailed<T>) -> Self {
        DiskError::Memory
    }
}

/// Files by name. A file is loose from its creation until it is sealed, and then firm. A crash may leave anything of a loose file, and each rename or removal that is
/// in progress or has failed done or not.
///
/// Each call answers `Fault` only where the count of faults rose in it, or stands at the greatest `u64`, and `Memory` only with all unchanged.
/// What a call needs is a condition where the disk tells its files. Where it doesn't, a call that can't be done is a fault.
pub trait Disk {
    /// Whether disks of this type tell their files. Where they don't, only the count of faults is known.
    ghost tells: { Bool };

    /// What the disk tells: its files, what a crash may leave of them, and counts of bytes.
    ghost view: { Self → DiskView };

    /// How often a call has failed.
    ghost faults: { Self → ℕ };

    /// Makes all names on the disk as they read. After that nothing is pending; a loose file stays loose.
    fn settle(&mut self, alloc: Global) -> Result<(), DiskError>
        ensures does { IsTrue tells → Does settle result (view self.old) (view self.new) }
        ensures cause { HasCause (faults self.old) (faults self.new) result };

    /// The numbers of the files of a kind, ascending.
    fn list(&mut self, alloc: Global, kind: Kind) -> Result<Vec<u64>, DiskError>
        ensures listing { IsTrue tells → IfOk result (λ numbers. IsListing kind (view self.old).state.files numbers.items) }
        ensures reads_only { IsTrue tells → LooksOrNot 0 result (view self.old) (view self.new) }
        ensures cause { HasCause (faults self.old) (faults self.new) result };

    /// How many bytes a file has, or `None` where there is no such file.
    fn size(&mut self, alloc: Global, name: Name) -> Result<Option<u64>, DiskError>
        ensures size { IsTrue tells → IfOk result (λ size. size ≡ option_map length ((view self.old).state.files name)) }
        ensures reads_only { IsTrue tells → LooksOrNot 0 result (view self.old) (view self.new) }
        ensures cause { HasCause (faults self.old) (faults self.new) result };

    /// Fills `into` with the bytes of a file from an offset on. The file has that many. After an error `into` has any bytes.
    fn read(&mut self, alloc: Global, name: Name, at: u64, into: &mut [u8]) -> Result<(), DiskError>
        requires { IsTrue tells → IsSomeAnd ((view self.old).state.files name) (λ bytes. at + length into.old ≤ length bytes) }
        ensures bytes { IsTrue tells → OnOk result (IsSomeAnd ((view self.old).state.files name) (λ bytes. into.new ≡ take (length into.old) (drop at bytes))) }
        ensures reads_only { IsTrue tells → LooksOrNot (length into.old) result (view self.old) (view self.new) }
        ensures cause { HasCause (faults self.old) (faults self.new) result };

    /// Begins an empty file, which is loose. No file has this name yet.
    fn create(&mut self, alloc: Global, name: Name) -> Result<(), DiskError>
        requires { IsTrue tells → IsAbsent (view self.old).state name }
        ensures does { IsTrue tells → Does (create name) result (view self.old) (view self.new) }
        ensures cause { HasCause (faults self.old) (faults self.new) result };

    /// Adds bytes at the end of a loose file.
    fn append(&mut self, alloc: Global, name: Name, bytes: &[u8]) -> Result<(), DiskError>
        requires { IsTrue tells → IsLoose (view self.old).state name }
        ensures does { IsTrue tells → Does (append name bytes.now) result (view self.old) (view self.new) }
        ensures cause { HasCause (faults self.old) (faults self.new) result };

    /// Puts a loose file on the disk with its name, and makes it firm.
    fn seal(&mut self, alloc: Global, name: Name) -> Result<(), DiskError>
        requires { IsTrue tells → IsLoose (view self.old).state name }
        ensures does { IsTrue tells → Does (seal name) result (view self.old) (view self.new) }
        ensures cause { HasCause (faults self.old) (faults self.new) result };

    /// Gives a firm file a name that no file has, and puts that on the disk.
    fn rename(&mut self, alloc: Global, from: Name, to: Name) -> Result<(), DiskError>
        requires from { IsTrue tells → IsFirm (view self.old).state from }
        requires to { IsTrue tells → IsAbsent (view self.old).state to }
        ensures does { IsTrue tells → Does (rename from to) result (view self.old) (view self.new) }
        ensures cause { HasCause (faults self.old) (faults self.new) result };

    /// Removes a file that is there, on the disk too.
    fn remove(&mut self, alloc: Global, name: Name) -> Result<(), DiskError>
        requires { IsTrue tells → IsThere (view self.old).state name }
        ensures does { IsTrue tells → Does (remove name) result (view self.old) (view self.new) }
        ensures cause { HasCause (faults self.old) (faults self.new) result };

    /// The disk as it reads is one of its images.
    ghost reads_as_image: { (disk : Self) → IsTrue tells → IsImageNow (view disk).state (view disk).state.files };

    /// Its files are of bytes, as they read and, where a name is firm, in each of its images.
    ghost holds_bytes: { (disk : Self) → IsTrue tells → HoldsBytes (view disk).state };
}
