//! Calls on a folder of the system.

use crate::lock::{Lock, lock_file};
use crate::names::{
    file_path, folder_at, folder_path, folder_paths, kind_of, lock_path, parse_number,
};
use crate::open::{Open, OpenFiles};
use disk_model::{DiskError, Kind, Name};
use std::alloc::Global;
use std::fs::{self, OpenFile, OpenOptions};
use std::io::{self, Read};
use std::path::Path;
use std::rt::Files;

/// A folder with the files of a disk. Those that are open for reading are others than those open for appending.
#[derive(Drop)]
pub struct Folder<R: Files + Drop> {
    rt: R,
    path: String,
    lock: Option<R::File>,
    reading: OpenFiles<R::File>,
    appending: OpenFiles<R::File>,
}

fn fault<T: Drop>(answer: io::Result<T>) -> Result<T, DiskError> {
    match answer {
        Ok(value) => Ok(value),
        Err(_) => Err(DiskError::Fault),
    }
}

// Makes the names in a folder durable.
fn sync_folder<R: Files>(rt: &R, path: &str) -> io::Result<()> {
    fs::open(rt, path)?.sync_all()
}

// The folder that a path is in.
fn parent_of(path: &str) -> &str {
    match Path::new(path).parent() {
        Some(parent) if !parent.as_str().is_empty() => parent.as_str(),
        _ => ".",
    }
}

// Makes a folder that is missing, and its name durable.
fn make_folder<R: Files>(rt: &R, path: &str) -> io::Result<()> {
    if fs::exists(rt, path)? {
        return Ok(());
    }
    fs::create_dir(rt, path)?;
    sync_folder(rt, parent_of(path))
}

// The folder on the way to a path, or at its end, whose own path ends at this byte. `None` where none does.
fn folder_ending(path: &str, end: usize) -> Option<&str> {
    match path.split_at_checked(end) {
        Some((folder, rest)) if rest.is_empty() || rest.starts_with('/') => Some(folder),
        _ => None,
    }
}

// Makes the folders of a path that are missing, the outermost first.
fn make_folders<R: Files>(rt: &R, path: &str) -> io::Result<()> {
    for end in 1..=path.len() {
        if let Some(folder) = folder_ending(path, end) {
            make_folder(rt, folder)?;
        }
    }
    Ok(())
}

// Makes the names of all folders of a path durable, whoever made them: their maker may have been killed before it synced.
fn sync_names<R: Files>(rt: &R, path: &str) -> io::Result<()> {
    for end in 1..=path.len() {
        if let Some(folder) = folder_ending(path, end) {
            sync_folder(rt, parent_of(folder))?;
        }
    }
    Ok(())
}

fn to_append() -> OpenOptions {
    let mut how = OpenOptions::new();
    how.append(true);
    how
}

// Adds the numbers that names spell, each of which ends in a zero byte. Other names are passed over.
fn push_numbers(numbers: &mut Vec<u64>, names: &[u8]) -> Result<(), DiskError> {
    for name in names.split(|byte| *byte == 0) {
        if let Some(number) = parse_number(name) {
            numbers.push(number)?;
        }
    }
    Ok(())
}

// The numbers that the names in a folder spell, as they come.
fn read_numbers<D: Read>(alloc: Global, folder: &mut D) -> Result<Vec<u64>, DiskError> {
    let mut numbers = Vec::new(alloc);
    let mut names = [0; 4096];
    for _ in 0..u64::MAX {
        match folder.read(&mut names) {
            Ok(0) => return Ok(numbers),
            Ok(length) => push_numbers(&mut numbers, &names[..length])?,
            Err(_) => return Err(DiskError::Fault),
        }
    }
    Err(DiskError::Fault)
}

impl<R: Files + Drop> Folder<R> {
    /// The folder at a path. Nothing is looked at yet.
    pub fn at(rt: R, path: String) -> Folder<R> {
        let alloc = *path.allocator();
        Folder {
            rt,
            path,
            lock: None,
            reading: OpenFiles::new(alloc),
            appending: OpenFiles::new(alloc),
        }
    }

    /// Makes the folders that are missing, takes the lock, and syncs each folder, the one that they are in, and all on the way to that.
    /// Fault where another disk has the lock.
    pub fn settle(&mut self, alloc: Global) -> Result<(), DiskError>
    where
        R::File: Lock,
    {
        let folders = folder_paths(alloc, &self.path)?;
        let lock = lock_path(alloc, &self.path)?;
        fault(make_folders(&self.rt, &self.path))?;
        if self.lock.is_none() {
            self.lock = Some(fault(lock_file(&self.rt, &lock))?);
        }
        for folder in &folders {
            fault(make_folder(&self.rt, folder))?;
            fault(sync_folder(&self.rt, folder))?;
        }
        fault(sync_folder(&self.rt, folder_at(&self.path)))?;
        fault(sync_names(&self.rt, &self.path))
    }

    /// The numbers of the files of a kind, ascending.
    pub fn list(&mut self, alloc: Global, kind: Kind) -> Result<Vec<u64>, DiskError> {
        let folder = folder_path(alloc, &self.path, kind)?;
        let mut names = fault(self.rt.open_dir(&folder))?;
        let mut numbers = read_numbers(alloc, &mut names)?;
        numbers.sort_unstable();
        Ok(numbers)
    }

    /// How many bytes a file has. What has its name and isn't a file, as a folder or a link, has none.
    pub fn size(&mut self, alloc: Global, name: Name) -> Result<Option<u64>, DiskError> {
        let path = file_path(alloc, &self.path, name)?;
        match fs::symlink_metadata(&self.rt, &path) {
            Ok(found) if found.is_file() => Ok(Some(found.len())),
            Ok(_) => Ok(Some(0)),
            Err(error) if error.kind() == io::ErrorKind::NotFound => Ok(None),
            Err(_) => Err(DiskError::Fault),
        }
    }

    /// Fills a buffer with the bytes of a file from an offset on.
    pub fn read(
        &mut self,
        alloc: Global,
        name: Name,
        at: u64,
        into: &mut [u8],
    ) -> Result<(), DiskError> {
        if into.is_empty() {
            return Ok(());
        }
        let mut open = match self.reading.take(name) {
            Some(open) => open,
            None => {
                let path = file_path(alloc, &self.path, name)?;
                Open::new(name, fault(fs::open(&self.rt, &path))?)
            }
        };
        fault(open.read(at, into))?;
        self.reading.keep(open);
        Ok(())
    }

    /// Begins a file. Fault where there is one.
    pub fn create(&mut self, alloc: Global, name: Name) -> Result<(), DiskError> {
        let path = file_path(alloc, &self.path, name)?;
        let mut how = to_append();
        how.create_new(true);
        let file = fault(how.open(&self.rt, &path))?;
        self.appending.keep(Open::new(name, file));
        Ok(())
    }

    /// Adds bytes at the end of a file.
    pub fn append(&mut self, alloc: Global, name: Name, bytes: &[u8]) -> Result<(), DiskError> {
        let mut open = self.take_to_append(alloc, name)?;
        fault(open.append(bytes))?;
        self.appending.keep(open);
        Ok(())
    }

    /// Syncs a file and its folder. Nothing more is appended to it.
    pub fn seal(&mut self, alloc: Global, name: Name) -> Result<(), DiskError> {
        let folder = folder_path(alloc, &self.path, kind_of(name))?;
        let open = self.take_to_append(alloc, name)?;
        fault(open.file.sync_all())?;
        fault(sync_folder(&self.rt, &folder))
    }

    /// Gives a file another name, and syncs the folders of both. Fault where there is a file of the new name.
    pub fn rename(&mut self, alloc: Global, from: Name, to: Name) -> Result<(), DiskError> {
        let old_path = file_path(alloc, &self.path, from)?;
        let new_path = file_path(alloc, &self.path, to)?;
        let old_folder = folder_path(alloc, &self.path, kind_of(from))?;
        let new_folder = folder_path(alloc, &self.path, kind_of(to))?;
        if self.size(alloc, to)?.is_some() {
            return Err(DiskError::Fault);
        }
        self.close(from);
        fault(fs::rename(&self.rt, &old_path, &new_path))?;
        fault(sync_folder(&self.rt, &new_folder))?;
        fault(sync_folder(&self.rt, &old_folder))
    }

    /// Removes a file, and syncs its folder. What has its name and isn't a file goes too, but for a folder with something in it.
    pub fn remove(&mut self, alloc: Global, name: Name) -> Result<(), DiskError> {
        let path = file_path(alloc, &self.path, name)?;
        let folder = folder_path(alloc, &self.path, kind_of(name))?;
        self.close(name);
        if fs::remove_file(&self.rt, &path).is_err() {
            fault(fs::remove_dir(&self.rt, &path))?;
        }
        fault(sync_folder(&self.rt, &folder))
    }

    // Takes a file out of those that are open for appending, or opens it.
    fn take_to_append(&mut self, alloc: Global, name: Name) -> Result<Open<R::File>, DiskError> {
        if let Some(open) = self.appending.take(name) {
            return Ok(open);
        }
        let path = file_path(alloc, &self.path, name)?;
        Ok(Open::new(name, fault(to_append().open(&self.rt, &path))?))
    }

    // Closes a file that is open.
    fn close(&mut self, name: Name) {
        let _ = self.reading.take(name);
        let _ = self.appending.take(name);
    }
}
