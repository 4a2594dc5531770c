//! Files that stay open between calls.

use disk_model::Name;
use std::alloc::Global;
use std::io::{self, Read, Seek, SeekFrom, Write};

/// How many files stay open at most, of those that are read and of those that are written. Reads of the layers of one memory then open no file twice.
const MAX_OPEN: usize = 32;

/// An open file. Its position is known only after a read.
#[derive(Drop)]
pub struct Open<F: Drop> {
    name: Name,
    pub file: F,
    position: Option<u64>,
}

impl<F: Drop> Open<F> {
    pub fn new(name: Name, file: F) -> Open<F> {
        Open {
            name,
            file,
            position: None,
        }
    }
}

impl<F: Read + Write + Seek + Drop> Open<F> {
    /// Fills a buffer with the bytes from an offset on.
    pub fn read(&mut self, at: u64, into: &mut [u8]) -> io::Result<()> {
        if self.position != Some(at) {
            self.file.seek(SeekFrom::Start(at))?;
        }
        self.position = None;
        self.file.read_exact(into)?;
        self.position = at.checked_add(into.len() as u64);
        Ok(())
    }

    /// Adds bytes at the end.
    pub fn append(&mut self, bytes: &[u8]) -> io::Result<()> {
        self.position = None;
        self.file.write_all(bytes)
    }
}

/// Files that are open, the one used last at the end.
#[derive(Drop)]
pub struct OpenFiles<F: Drop> {
    files: Vec<Open<F>>,
}

impl<F: Drop> OpenFiles<F> {
    pub fn new(alloc: Global) -> OpenFiles<F> {
        OpenFiles {
            files: Vec::new(alloc),
        }
    }

    /// Takes a file out, where it is open.
    pub fn take(&mut self, name: Name) -> Option<Open<F>> {
        let at = self.files.iter().position(|open| open.name == name)?;
        Some(self.files.remove(at))
    }

    /// Keeps a file open for the next call. Where there is no memory for that, it is closed.
    pub fn keep(&mut self, open: Open<F>) {
        if self.files.len() >= MAX_OPEN {
            let _ = self.files.remove(0);
        }
        let _ = self.files.push(open);
    }
}
