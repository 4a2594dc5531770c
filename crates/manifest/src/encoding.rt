//! The text of a manifest.

ghost use Rattle.std.specs.Prelude.{◌≡◌, ◌≤◌, ◌<◌, ◌+◌, ◌*◌, ◌++◌, length, IfOk, OnOk};
ghost use Rattle.std.specs.List.{flat_map, AllByRecursion};
ghost use Rattle.state_spec.specs.ManifestText.{manifest_text, file_row_text, chunk_row_text};
ghost use Rattle.manifest.specs.Fits.{FitsText};

use crate::rows::{ChunkRow, FileRow, Manifest};
use byte_codec::{Blob, NoMemory, Writer};
use format_spec::{CHUNK_ROW, FILE_ROW, MANIFEST_HEAD};
use std::alloc::Global;

/// What the text begins with.
pub(crate) const MAGIC: &[u8] = b"ICMF";

impl Manifest {
    /// Its text, of which there is one.
    #[tactic(auto, unfolding(state_spec::specs::ManifestText::manifest_text))]
    pub fn encode(&self, alloc: Global) -> Result<Blob, NoMemory>
        requires { FitsText self.now }
        ensures value { IfOk result (λ text. text ≡ manifest_text self.now) }
        ensures size { IfOk result (λ text. length text ≤ MANIFEST_HEAD + 4 + (FILE_ROW + 255) * length self.now.files + CHUNK_ROW * length self.now.chunks) }
    {
        let size = MANIFEST_HEAD + 4 + CHUNK_ROW * self.chunks.len();
        let mut out = Writer::with_capacity(alloc, size.saturating_add(files_size(&self.files)))?;
        out.bytes(MAGIC)?;
        out.be32(self.version)?;
        out.be32(self.files.len() as u32)?;
        write_files(&mut out, &self.files)?;
        out.be32(self.chunks.len() as u32)?;
        write_chunks(&mut out, &self.chunks)?;
        Ok(out.into_blob())
    }
}

// Bytes in the rows of files: room that is asked for, and nothing depends on it.
fn files_size(files: &[FileRow]) -> usize {
    let mut size = 0usize;
    for row in files {
        size = size
            .saturating_add(FILE_ROW)
            .saturating_add(row.name.bytes().len());
    }
    size
}

fn write_files(out: &mut Writer, files: &[FileRow]) -> Result<(), NoMemory>
    requires { AllByRecursion (λ row. length row.name < 256) files.now }
    ensures text { OnOk result (out.new ≡ out.old ++ flat_map file_row_text files.now) }
    ensures size { OnOk result (length out.new ≤ length out.old + (FILE_ROW + 255) * length files.now) }
{
    for row in files {
        write_file(out, row)?;
    }
    Ok(())
}

fn write_file(out: &mut Writer, row: &FileRow) -> Result<(), NoMemory>
    requires { length row.now.name < 256 }
    ensures text { OnOk result (out.new ≡ out.old ++ file_row_text row.now) }
    ensures size { OnOk result (length out.new ≤ length out.old + (FILE_ROW + 255)) }
{
    let name = row.name.bytes();
    out.u8(name.len() as u8)?;
    out.bytes(name)?;
    out.be64(row.size)?;
    out.bytes(row.hash.bytes())?;
    Ok(())
}

fn write_chunks(out: &mut Writer, chunks: &[ChunkRow]) -> Result<(), NoMemory>
    ensures text { OnOk result (out.new ≡ out.old ++ flat_map chunk_row_text chunks.now) }
    ensures size { OnOk result (length out.new ≤ length out.old + CHUNK_ROW * length chunks.now) }
{
    for row in chunks {
        write_chunk(out, row)?;
    }
    Ok(())
}

fn write_chunk(out: &mut Writer, row: &ChunkRow) -> Result<(), NoMemory>
    ensures text { OnOk result (out.new ≡ out.old ++ chunk_row_text row.now) }
    ensures size { OnOk result (length out.new ≤ length out.old + CHUNK_ROW) }
{
    out.be32(row.file)?;
    out.be32(row.size)?;
    out.be64(row.offset)?;
    out.bytes(row.hash.bytes())?;
    Ok(())
}
