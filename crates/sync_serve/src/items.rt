//! The meta-manifest and the pieces of a published height, made of its mark.

ghost use Rattle.std.specs.Prelude.{◌≡◌, ◌<◌, IfOk, slice_get};
ghost use Rattle.std.specs.Option.{option_copied};
ghost use Rattle.format_spec.specs.Bytes.{parts};
ghost use Rattle.state_spec.specs.Manifest.{manifest_of};
ghost use Rattle.state_spec.specs.Root.{meta_text, meta_of as meta_in};
ghost use Rattle.store_spec.specs.Image.{Published};
ghost use Rattle.height_store.specs.Known.{KnowsHeight};
ghost use Rattle.manifest.specs.Fits.{FitsText};
ghost use Rattle.sync_spec.specs.Messages.{piece};
ghost use Rattle.sync_spec.specs.Serving.{here_if, content_of as content_in};
ghost use Rattle.sync_plan.specs.Views.{content_of as content_seen};

use byte_codec::{Blob, NoMemory};
use format_spec::PIECE_SIZE;
use height_store::PublishedHeight;
use manifest::Manifest;
use mark_file::memory_sums;
use std::alloc::Global;
use sync_plan::Content;

/// The text of the meta-manifest.
pub(crate) fn meta_of(alloc: Global, found: &PublishedHeight) -> Result<Blob, NoMemory>
    ensures { (p : Published) → KnowsHeight found.now p → IfOk result (λ text. text ≡ meta_text (meta_in (manifest_of p.state))) }
{
    let manifest = manifest_at(alloc, found)?;
    let meta = manifest.meta(alloc)?;
    meta.encode(alloc)
}

/// A piece of the manifest's text, or that there is none of this number.
pub(crate) fn piece_of(
    alloc: Global,
    found: &PublishedHeight,
    index: u32,
) -> Result<Content, NoMemory>
    ensures { (p : Published) → KnowsHeight found.now p → IfOk result (λ content. content_seen content ≡ content_in p.state (piece index)) }
{
    let text = manifest_at(alloc, found)?.encode(alloc)?;
    content_with(alloc, part_at(text.bytes(), PIECE_SIZE as u32, index))
}

// The manifest, by the version, the sizes and the sums that the mark has.
fn manifest_at(alloc: Global, found: &PublishedHeight) -> Result<Manifest, NoMemory>
    ensures value { (p : Published) → KnowsHeight found.now p → IfOk result (λ m. m ≡ manifest_of p.state) }
    ensures fits { IfOk result FitsText }
{
    let mark = found.mark();
    let sums = memory_sums(alloc, &mark.mems)?;
    Manifest::from_sums(alloc, mark.system.bytes(), found.sys(), &sums, mark.version)
}

/// A copy of these bytes, or that there are none.
pub(crate) fn content_with(alloc: Global, bytes: Option<&[u8]>) -> Result<Content, NoMemory>
    ensures { IfOk result (λ content. content_seen content ≡ here_if (option_copied bytes.entry)) }
{
    match bytes {
        Some(bytes) => Ok(Content::Here(Blob::from_slice(alloc, bytes)?)),
        None => Ok(Content::Gone),
    }
}

/// The part of this number of bytes that are cut into parts of this size, of which the last may be shorter.
pub(crate) fn part_at(bytes: &[u8], size: u32, index: u32) -> Option<&[u8]>
    requires { 0 < size }
    ensures { option_copied result ≡ slice_get (parts size bytes.now) index }
{
    let begin = index as usize * size as usize;
    if begin >= bytes.len() {
        return None;
    }
    let end = (begin + size as usize).min(bytes.len());
    Some(&bytes[begin..end])
}
