//! The folder as a disk that counts its faults.
ghost use Rattle.std.specs.Prelude.{◌≡◌, false, [], None};
ghost use Rattle.std.proofs.lemmas.Bool.{false≢true};
ghost use Rattle.disk_model.specs.View.{HasCause};

use crate::folder::Folder;
use crate::lock::Lock;
use disk_model::{Disk, DiskError, Kind, Name};
use std::alloc::{Alloc, Global};
use std::rt::Files;

/// A real folder as a disk. It tells nothing of its files, and counts its faults.
///
/// Each file is `page`, `mark`, `draft` or `stage`, and a name of 16 lower-case hexadecimal digits in that folder. Other names there are passed over.
/// Up to 32 files that are read, and as many that are written, stay open between calls. From the first `settle` on the folder is locked for this disk:
/// `settle` is a fault where another one has it.
#[derive(Drop)]
pub struct FolderDisk<R: Files + Alloc + Drop> {
    folder: Folder<R>,
    faults: u64,
}

impl<R: Files + Alloc + Drop> FolderDisk<R>
where
    R::File: Lock,
{
    /// The disk in the folder at this path. Nothing is looked at or made yet.
    pub fn at(rt: R, path: String) -> FolderDisk<R>
        ensures { ⟦<FolderDisk<R> as Disk>⟧.faults result ≡ 0 }
    {
        FolderDisk {
            folder: Folder::at(rt, path),
            faults: 0,
        }
    }

    // Counts a fault.
    fn counted<T: Drop>(&mut self, answer: Result<T, DiskError>) -> Result<T, DiskError>
        ensures { HasCause self.old.faults self.new.faults result }
    {
        if let Err(DiskError::Fault) = answer {
            self.faults = self.faults.saturating_add(1);
        }
        answer
    }
}

impl<R: Files + Alloc + Drop> Disk for FolderDisk<R>
where
    R::File: Lock,
{
    ghost tells = { false };

    ghost view = { λ _. record { state = record { files = λ _. None; loose = λ _. false; outcomes = [] }; past = []; appended = 0; bytes_read = 0 } };

    ghost faults = { λ disk. disk.faults };

    ghost reads_as_image = { λ _ told. absurd (false≢true told) };

    ghost holds_bytes = { λ _ told. absurd (false≢true told) };

    fn settle(&mut self, alloc: Global) -> Result<(), DiskError> {
        let answer = self.folder.settle(alloc);
        self.counted(answer)
    }

    fn list(&mut self, alloc: Global, kind: Kind) -> Result<Vec<u64>, DiskError> {
        let answer = self.folder.list(alloc, kind);
        self.counted(answer)
    }

    fn size(&mut self, alloc: Global, name: Name) -> Result<Option<u64>, DiskError> {
        let answer = self.folder.size(alloc, name);
        self.counted(answer)
    }

    fn read(
        &mut self,
        alloc: Global,
        name: Name,
        at: u64,
        into: &mut [u8],
    ) -> Result<(), DiskError> {
        let answer = self.folder.read(alloc, name, at, into);
        self.counted(answer)
    }

    fn create(&mut self, alloc: Global, name: Name) -> Result<(), DiskError> {
        let answer = self.folder.create(alloc, name);
        self.counted(answer)
    }

    fn append(&mut self, alloc: Global, name: Name, bytes: &[u8]) -> Result<(), DiskError> {
        let answer = self.folder.append(alloc, name, bytes);
        self.counted(answer)
    }

    fn seal(&mut self, alloc: Global, name: Name) -> Result<(), DiskError> {
        let answer = self.folder.seal(alloc, name);
        self.counted(answer)
    }

    fn rename(&mut self, alloc: Global, from: Name, to: Name) -> Result<(), DiskError> {
        let answer = self.folder.rename(alloc, from, to);
        self.counted(answer)
    }

    fn remove(&mut self, alloc: Global, name: Name) -> Result<(), DiskError> {
        let answer = self.folder.remove(alloc, name);
        self.counted(answer)
    }
}
