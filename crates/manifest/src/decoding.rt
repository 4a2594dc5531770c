//! Manifests read from their texts, in one pass.

ghost use Rattle.std.specs.Prelude.{◌≡◌, length, map, IfOk};
ghost use Rattle.state_spec.specs.ManifestText.{read_manifest};
ghost use Rattle.manifest.specs.Fits.{FitsText};
ghost use Rattle.manifest.specs.Reading.{InOrder, manifest_in_parts};
ghost use Rattle.byte_codec.specs.Gives as fields;
ghost use Rattle.manifest.specs.Gives.{Gives};

use crate::encoding::MAGIC;
use crate::error::ManifestError;
use crate::fields::{read_file_count, read_version};
use crate::files::read_files;
use crate::hashes::wrong_hash;
use crate::memory_chunks::read_rows;
use crate::rows::Manifest;
use byte_codec::{FieldError, Reader, read_magic};
use std::alloc::Global;

impl Manifest {
    /// The manifest that a text spells, or the place where it spells none.
    pub fn decode(alloc: Global, bytes: &[u8]) -> Result<Manifest, ManifestError>
        ensures value { Gives (λ m. m) result (read_manifest bytes.now) }
        ensures fits { IfOk result FitsText }
    {
        Ok(read_whole(alloc, bytes)?)
    }
}

#[tactic(auto, using(crate::proofs::InParts::in_parts), unfolding(state_spec::specs::ManifestText::read_manifest))]
fn read_whole(alloc: Global, bytes: &[u8]) -> Result<Manifest, FieldError>
    ensures value { fields.Gives (λ m. m) result (read_manifest bytes.now) }
    ensures fits { IfOk result FitsText }
{
    let mut reader = Reader::new(bytes);
    let manifest = read_fields(alloc, &mut reader)?;
    if reader.left() != 0 {
        return Err(FieldError::Bad(reader.at() as u64));
    }
    match wrong_hash(alloc, &manifest.files, &manifest.chunks)? {
        Some(place) => Err(FieldError::Bad(place)),
        None => Ok(manifest),
    }
}

// All fields, without the hashes of the files being judged.
#[tactic(auto, unfolding(crate::specs::Reading::manifest_in_parts))]
fn read_fields(alloc: Global, reader: &mut Reader) -> Result<Manifest, FieldError>
    ensures fields { fields.Gives (λ m. (m, reader.new)) result (manifest_in_parts reader.old) }
    ensures order { IfOk result (λ m. InOrder 0 (length m.files) m.chunks) }
    ensures fits { IfOk result FitsText }
{
    read_magic(reader, MAGIC)?;
    let version = read_version(reader)?;
    let file_count = read_file_count(reader)?;
    let files = read_files(alloc, reader, version, file_count)?;
    let chunks = read_rows(alloc, reader, version, &files)?;
    Ok(Manifest {
        version,
        files,
        chunks,
    })
}
