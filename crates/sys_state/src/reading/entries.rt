//! The entries of a system text.

ghost use Rattle.std.specs.Prelude.{◌≡◌, ◌&&◌, not, [], length, nat_le, IfOk, IsTrue};
ghost use Rattle.std.specs.Option.{SomeIff};
ghost use Rattle.std.specs.List.{AllByRecursion, list_all};
ghost use Rattle.std.specs.FinMap.{is_sorted};
ghost use Rattle.format_spec.specs.Bytes.{IsBytes, path_cmp, is_after, last_key};
ghost use Rattle.format_spec.specs.Fields.{field, string16, each, any};
ghost use Rattle.state_spec.specs.State.{are_apart, is_prefix};
ghost use Rattle.state_spec.specs.SystemText.{entry_after, path_form, path_fits};
ghost use Rattle.byte_codec.specs.Gives.{Gives};
ghost use Rattle.state_spec.specs.State.{IsByteEntry};

use crate::path::Path;
use byte_codec::{Blob, FieldError, Reader};
use format_spec::MAX_VALUE;
use std::alloc::Global;

// The labels of a path, with their number one field.
fn read_labels(alloc: Global, reader: &mut Reader) -> Result<Vec<Blob>, FieldError>
    ensures { Gives (λ labels. (labels.items, reader.new)) result (field path_form any reader.old) }
{
    let at = reader.at() as u64;
    let Ok(count) = reader.u8() else {
        return Err(FieldError::Bad(at));
    };
    let mut labels = Vec::new(alloc);
    for _ in 0..count {
        let Ok(label) = reader.string8() else {
            return Err(FieldError::Bad(at));
        };
        labels.push(Blob::from_slice(alloc, label)?)?;
    }
    Ok(labels)
}

// Whether the path stands above all so far, and none of them begins it: where one does, the last does.
fn comes_last(entries: &[(Path, Blob)], path: &Path) -> bool
    requires sorted { IsTrue (is_sorted path_cmp entries.now) }
    requires apart { IsTrue (are_apart entries.now) }
    ensures { result ≡ (is_after path_cmp (last_key entries.now) path.now && list_all (λ e. not (is_prefix e.0 path.now)) entries.now) }
{
    match entries.last() {
        None => true,
        Some(last) => last.0 < *path && !last.0.begins(path),
    }
}

// The path of these labels, where it may stand behind the entries.
fn path_of(labels: Vec<Blob>, entries: &[(Path, Blob)]) -> Option<Path>
    requires sorted { IsTrue (is_sorted path_cmp entries.now) }
    requires apart { IsTrue (are_apart entries.now) }
    ensures { SomeIff result (IsTrue (path_fits entries.now labels.items)) labels.items }
{
    let path = Path::new(labels)?;
    if path.is_reserved() || !comes_last(entries, &path) {
        return None;
    }
    Some(path)
}

fn read_path(
    alloc: Global,
    reader: &mut Reader,
    entries: &[(Path, Blob)],
) -> Result<Path, FieldError>
    requires sorted { IsTrue (is_sorted path_cmp entries.now) }
    requires apart { IsTrue (are_apart entries.now) }
    ensures read { Gives (λ path. (path, reader.new)) result (field path_form (path_fits entries.now) reader.old) }
    ensures fits { IfOk result (λ path. IsTrue (path_fits entries.now path)) }
{
    let at = reader.at() as u64;
    let labels = read_labels(alloc, reader)?;
    match path_of(labels, entries) {
        Some(path) => Ok(path),
        None => Err(FieldError::Bad(at)),
    }
}

fn read_value(alloc: Global, reader: &mut Reader) -> Result<Blob, FieldError>
    ensures read { Gives (λ bytes. (bytes, reader.new)) result (field string16 (λ bytes. nat_le (length bytes) MAX_VALUE) reader.old) }
    ensures bytes { IfOk result IsBytes }
{
    let at = reader.at() as u64;
    match reader.string16() {
        Ok(bytes) if bytes.len() <= MAX_VALUE => Ok(Blob::from_slice(alloc, bytes)?),
        _ => Err(FieldError::Bad(at)),
    }
}

#[tactic(auto, unfolding(state_spec::specs::SystemText::entry_after))]
fn read_entry(
    alloc: Global,
    reader: &mut Reader,
    entries: &[(Path, Blob)],
) -> Result<(Path, Blob), FieldError>
    requires sorted { IsTrue (is_sorted path_cmp entries.now) }
    requires apart { IsTrue (are_apart entries.now) }
    ensures read { Gives (λ e. (e, reader.new)) result (entry_after entries.now reader.old) }
    ensures fits { IfOk result (λ e. IsTrue (path_fits entries.now e.0)) }
    ensures bytes { IfOk result IsByteEntry }
{
    let path = read_path(alloc, reader, entries)?;
    let value = read_value(alloc, reader)?;
    Ok((path, value))
}

pub(crate) fn read_entries(
    alloc: Global,
    reader: &mut Reader,
    count: u32,
) -> Result<Vec<(Path, Blob)>, FieldError>
    ensures read { Gives (λ es. (es.items, reader.new)) result (each entry_after count [] reader.old) }
    ensures bytes { IfOk result (λ es. AllByRecursion IsByteEntry es.items) }
{
    let mut entries = Vec::new(alloc);
    for _ in 0..count {
        let entry = read_entry(alloc, reader, &entries)?;
        entries.push(entry)?;
    }
    Ok(entries)
}
