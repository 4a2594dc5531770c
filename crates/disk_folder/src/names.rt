//! Names of files and folders.

use disk_model::{Kind, Name};
use std::alloc::{AllocError, Global};

fn folder_name(kind: Kind) -> &'static str {
    match kind {
        Kind::Page => "page",
        Kind::Mark => "mark",
        Kind::Draft => "draft",
        Kind::Stage => "stage",
    }
}

/// The kind of a name.
pub fn kind_of(name: Name) -> Kind {
    match name {
        Name::Page(_) => Kind::Page,
        Name::Mark(_) => Kind::Mark,
        Name::Draft(_) => Kind::Draft,
        Name::Stage(_) => Kind::Stage,
    }
}

fn number_of(name: Name) -> u64 {
    match name {
        Name::Page(number) | Name::Mark(number) | Name::Draft(number) | Name::Stage(number) => {
            number
        }
    }
}

/// The folder at a path, which for an empty one is where the program is run.
pub fn folder_at(path: &str) -> &str {
    if path.is_empty() { "." } else { path }
}

// The path of what has this name in the folder.
fn path_in(alloc: Global, path: &str, name: &str) -> Result<String, AllocError> {
    let mut text = String::from_str(alloc, folder_at(path))?;
    text.push('/')?;
    text.push_str(name)?;
    Ok(text)
}

/// The path of the file that is locked.
pub fn lock_path(alloc: Global, path: &str) -> Result<String, AllocError> {
    path_in(alloc, path, "lock")
}

/// The path of the folder of a kind, with a slash at its end.
pub fn folder_path(alloc: Global, path: &str, kind: Kind) -> Result<String, AllocError> {
    let mut text = path_in(alloc, path, folder_name(kind))?;
    text.push('/')?;
    Ok(text)
}

/// The paths of all four folders.
pub fn folder_paths(alloc: Global, path: &str) -> Result<[String; 4], AllocError> {
    Ok([
        folder_path(alloc, path, Kind::Page)?,
        folder_path(alloc, path, Kind::Mark)?,
        folder_path(alloc, path, Kind::Draft)?,
        folder_path(alloc, path, Kind::Stage)?,
    ])
}

/// The path of a file: in the folder of its kind, with its number as 16 lower-case hexadecimal digits.
pub fn file_path(alloc: Global, path: &str, name: Name) -> Result<String, AllocError> {
    let mut text = folder_path(alloc, path, kind_of(name))?;
    let mut digits = [0; 16];
    let _ = hex::encode_to_slice(number_of(name).to_be_bytes(), &mut digits);
    for digit in digits {
        text.push(digit as char)?;
    }
    Ok(text)
}

/// The number that a file name spells. `None` where it isn't 16 lower-case hexadecimal digits.
pub fn parse_number(name: &[u8]) -> Option<u64> {
    if name.len() != 16 || name.iter().any(|byte| byte.is_ascii_uppercase()) {
        return None;
    }
    let mut bytes = [0; 8];
    match hex::decode_to_slice(name, &mut bytes) {
        Ok(()) => Some(u64::from_be_bytes(bytes)),
        Err(_) => None,
    }
}
