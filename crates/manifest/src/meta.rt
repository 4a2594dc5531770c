//! The meta-manifest: the version and the hashes of the pieces of a manifest's text.

ghost use Rattle.std.specs.Prelude.{◌≡◌, ◌<◌, ◌≤◌, ◌^◌, [], length, IfOk, IfSome};
ghost use Rattle.std.specs.Option.{is_some};
ghost use Rattle.format_spec.specs.declared.limits.TheConstants.{MAX_PIECES};
ghost use Rattle.format_spec.specs.Fields.{each, field, block, any, whole};
ghost use Rattle.state_spec.specs.Root.{root_of_meta, meta_text, meta_of, meta_fields, read_meta};
ghost use Rattle.manifest.specs.Fits.{FitsText};
ghost use Rattle.byte_codec.specs.Gives.{Gives};

use crate::fields::read_meta_head;
use crate::parts::piece_hashes;
use crate::rows::Manifest;
use byte_codec::{Blob, FieldError, NoMemory, Reader, Writer};
use format_spec::{HASH_SIZE, META_HEAD};
use hash_domain::{Hash32, read_hash, root_hash};
use std::alloc::Global;
use std::marker::Model;

/// The version of a manifest and the hashes of the pieces of its text.
#[derive(Debug, Drop)]
pub struct MetaManifest {
    /// The version of the format: 1 or 2.
    pub version: u32,
    /// The hash of each piece of 4,096 bytes, of which the last may be shorter.
    pub pieces: Vec<Hash32>,
}

// Contracts see the version and the list of hashes.
impl Model for MetaManifest {
    ghost use Rattle.state_spec.specs.Root.{MetaManifest as Meta};

    ghost Value = { Meta };

    ghost view = { λ meta. record { version = meta.version; pieces = meta.pieces.items } };
}

impl Manifest {
    /// Its meta-manifest.
    #[tactic(auto, unfolding(state_spec::specs::Root::meta_of))]
    pub fn meta(&self, alloc: Global) -> Result<MetaManifest, NoMemory>
        requires { FitsText self.now }
        ensures value { IfOk result (λ meta. meta ≡ meta_of self.now) }
        ensures few { IfOk result (λ meta. length meta.pieces < 2 ^ 32) }
    {
        let text = self.encode(alloc)?;
        Ok(MetaManifest {
            version: self.version,
            pieces: piece_hashes(alloc, text.bytes())?,
        })
    }
}

impl MetaManifest {
    /// The meta-manifest that a text spells. None where it spells none.
    #[tactic(auto, unfolding(state_spec::specs::Root::read_meta))]
    pub fn decode(alloc: Global, bytes: &[u8]) -> Result<Option<MetaManifest>, NoMemory>
        ensures value { IfOk result (λ meta. meta ≡ read_meta bytes.now) }
        ensures few { IfOk result (λ meta. IfSome meta (λ m. length m.pieces < 2 ^ 32)) }
    {
        match read_whole(alloc, bytes) {
            Ok(meta) => Ok(Some(meta)),
            Err(FieldError::Bad(_)) => Ok(None),
            Err(FieldError::Memory) => Err(NoMemory),
        }
    }

    /// Whether a text spells a meta-manifest. It takes no memory.
    pub fn spells(text: &[u8]) -> bool
        ensures { result ≡ is_some (read_meta text.now) }
    {
        let mut reader = Reader::new(text);
        match read_meta_head(&mut reader) {
            Ok((_, count)) => reader.left() == HASH_SIZE * count as usize,
            Err(_) => false,
        }
    }

    /// The root hash of the state.
    pub fn root(&self) -> Hash32
        requires { length self.now.pieces < 2 ^ 32 }
        ensures { result ≡ root_of_meta self.now }
    {
        root_hash(self.version, &self.pieces)
    }

    /// Its text.
    pub fn encode(&self, alloc: Global) -> Result<Blob, NoMemory>
        requires { length self.now.pieces < 2 ^ 32 }
        ensures { IfOk result (λ text. text ≡ meta_text self.now) }
    {
        let mut out = Writer::with_capacity(alloc, META_HEAD + HASH_SIZE * self.pieces.len())?;
        out.be32(self.version)?;
        out.be32(self.pieces.len() as u32)?;
        for hash in &self.pieces {
            out.bytes(hash.bytes())?;
        }
        Ok(out.into_blob())
    }
}

fn read_whole(alloc: Global, bytes: &[u8]) -> Result<MetaManifest, FieldError>
    ensures value { Gives (λ m. m) result (whole meta_fields bytes.now) }
    ensures few { IfOk result (λ m. length m.pieces ≤ MAX_PIECES) }
{
    let mut reader = Reader::new(bytes);
    let meta = read_fields(alloc, &mut reader)?;
    if reader.left() != 0 {
        return Err(FieldError::Bad(reader.at() as u64));
    }
    Ok(meta)
}

#[tactic(auto, unfolding(state_spec::specs::Root::meta_fields, crate::specs::Reading::meta_head))]
fn read_fields(alloc: Global, reader: &mut Reader) -> Result<MetaManifest, FieldError>
    ensures fields { Gives (λ m. (m, reader.new)) result (meta_fields reader.old) }
    ensures few { IfOk result (λ m. length m.pieces ≤ MAX_PIECES) }
{
    let (version, count) = read_meta_head(reader)?;
    let pieces = read_pieces(alloc, reader, count)?;
    Ok(MetaManifest { version, pieces })
}

fn read_pieces(alloc: Global, reader: &mut Reader, count: u32) -> Result<Vec<Hash32>, FieldError>
    ensures pieces { Gives (λ hashes. (hashes.items, reader.new)) result (each (λ before. field (block HASH_SIZE) any) count [] reader.old) }
    ensures count { IfOk result (λ hashes. length hashes.items ≡ count) }
{
    let mut hashes = Vec::new(alloc);
    for _ in 0..count {
        hashes.push(read_hash(reader)?)?;
    }
    Ok(hashes)
}
