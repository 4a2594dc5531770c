//! The lock of a folder.

use std::fs::{self, File, OpenOptions};
use std::io;
use std::rt::Files;

/// An open file that can be locked as a whole.
pub trait Lock {
    /// Locks the file until it is closed. An error where another open of the file has it, also one of this process.
    fn try_lock(&self) -> io::Result<()>;
}

impl Lock for File {
    fn try_lock(&self) -> io::Result<()> {
        Ok(File::try_lock(self)?)
    }
}

/// Locks the file at this path as long as what is answered is open, and makes it where it isn't there. One that may only be read is locked too.
pub fn lock_file<R: Files>(rt: &R, path: &str) -> io::Result<R::File>
where
    R::File: Lock,
{
    let mut how = OpenOptions::new();
    how.append(true).create(true);
    let file = match how.open(rt, path) {
        Ok(file) => file,
        Err(_) => fs::open(rt, path)?,
    };
    file.try_lock()?;
    Ok(file)
}
