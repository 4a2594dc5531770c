//! The paths of entries, read.

ghost use Rattle.std.specs.Prelude.{◌≡◌, ◌==◌, ◌≤◌, IfOk, IfSome, length, map, option_map};
ghost use Rattle.std.specs.List.{list_all, slice_split};
ghost use Rattle.format_spec.specs.declared.limits.TheConstants.{MAX_PATHS};
ghost use Rattle.state_spec.specs.State.{is_label};
ghost use Rattle.byte_codec.specs.Hex.{bytes_of_hex};
ghost use Rattle.script_text.specs.Words.{is_label_byte, plain_label, such_that, label_of, each_of, path_by, path_of, is_path_count, paths_of};

use crate::path_list::Paths;
use byte_codec::{Blob, HexError, NoMemory, hex_bytes};
use format_spec::MAX_PATHS;
use std::alloc::Global;
use sys_state::{Path, is_good_label};

fn are_label_bytes(word: &[u8]) -> bool
    ensures { result ≡ list_all is_label_byte word.now }
{
    word.iter().all(
        |byte| matches!(*byte, b'a'..=b'z' | b'A'..=b'Z' | b'0'..=b'9' | b'_' | b'-' | b'.'),
    )
}

// A label as it is.
fn read_plain_label(alloc: Global, word: &[u8]) -> Result<Option<Blob>, NoMemory>
    ensures { IfOk result (λ label. label ≡ plain_label word.now) }
{
    if !is_good_label(word) {
        return Ok(None);
    }
    if !are_label_bytes(word) {
        return Ok(None);
    }
    Ok(Some(Blob::from_slice(alloc, word)?))
}

// A label in hexadecimal.
fn read_hex_label(alloc: Global, digits: &[u8]) -> Result<Option<Blob>, NoMemory>
    ensures { IfOk result (λ label. label ≡ such_that is_label (bytes_of_hex digits.now)) }
{
    match hex_bytes(alloc, digits) {
        Ok(label) => {
            if is_good_label(label.bytes()) {
                Ok(Some(label))
            } else {
                Ok(None)
            }
        }
        Err(HexError::Bad) => Ok(None),
        Err(HexError::Memory) => Err(NoMemory),
    }
}

// A label in hexadecimal behind `0x`, or as it is.
fn read_label(alloc: Global, word: &[u8]) -> Result<Option<Blob>, NoMemory>
    ensures { IfOk result (λ label. label ≡ label_of word.now) }
{
    if word.starts_with(b"0x") {
        return read_hex_label(alloc, &word[2..]);
    }
    read_plain_label(alloc, word)
}

// Each word as a label. `None` where one of them isn't a label.
fn read_labels(alloc: Global, words: &[&[u8]]) -> Result<Option<Vec<Blob>>, NoMemory>
    ensures { IfOk result (λ labels. option_map (λ found. found.items) labels ≡ each_of label_of (map (λ word. word.now) words.now)) }
{
    let mut labels = Vec::new(alloc);
    for word in words {
        let Some(label) = read_label(alloc, word)? else {
            return Ok(None);
        };
        labels.push(label)?;
    }
    Ok(Some(labels))
}

// What stands between the slashes of a word.
fn parts_of(alloc: Global, word: &[u8]) -> Result<Vec<&[u8]>, NoMemory>
    ensures { IfOk result (λ found. map (λ part. part.now) found.items ≡ slice_split (λ byte. byte == 47) word.now) }
{
    Ok(word.split(|byte| *byte == b'/').collect(alloc)?)
}

// The path whose labels stand behind a first part that is empty.
fn read_parts(alloc: Global, first: &[u8], rest: &[&[u8]]) -> Result<Option<Path>, NoMemory>
    ensures { IfOk result (λ path. path ≡ path_by first.now (map (λ part. part.now) rest.now)) }
{
    if !first.is_empty() {
        return Ok(None);
    }
    let Some(labels) = read_labels(alloc, rest)? else {
        return Ok(None);
    };
    Ok(Path::new(labels))
}

/// A path: 1 to 8 times `/` and a label.
pub fn read_path(alloc: Global, word: &[u8]) -> Result<Option<Path>, NoMemory>
    ensures { IfOk result (λ path. path ≡ path_of word.now) }
{
    let parts = parts_of(alloc, word)?;
    let [first, rest @ ..] = parts.as_slice() else {
        return Ok(None);
    };
    read_parts(alloc, first, rest)
}

// Whether one line may ask for so many paths: 1 to 64.
fn is_good_count(count: usize) -> bool
    ensures { result ≡ is_path_count count }
{
    1 <= count && count <= MAX_PATHS
}

// Each word as a path. `None` where one of them isn't a path.
fn read_each_path(alloc: Global, words: &[&[u8]]) -> Result<Option<Vec<Path>>, NoMemory>
    ensures { IfOk result (λ paths. option_map (λ found. found.items) paths ≡ each_of path_of (map (λ word. word.now) words.now)) }
{
    let mut paths = Vec::with_capacity(alloc, words.len())?;
    for word in words {
        let Some(path) = read_path(alloc, word)? else {
            return Ok(None);
        };
        paths.push(path)?;
    }
    Ok(Some(paths))
}

/// 1 to 64 paths, one a word.
pub fn read_paths(alloc: Global, words: &[&[u8]]) -> Result<Option<Paths>, NoMemory>
    ensures paths { IfOk result (λ found. found ≡ paths_of (map (λ word. word.now) words.now)) }
    ensures within { IfOk result (λ found. IfSome found (λ paths. (1 ≤ length paths) × (length paths ≤ MAX_PATHS))) }
{
    if !is_good_count(words.len()) {
        return Ok(None);
    }
    let Some(paths) = read_each_path(alloc, words)? else {
        return Ok(None);
    };
    Ok(Some(Paths::new(paths)))
}
