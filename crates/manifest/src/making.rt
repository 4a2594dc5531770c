//! Manifests made of a state's parts.

ghost use Rattle.std.specs.Prelude.{◌≡◌, map, IfOk, IsTrue};
ghost use Rattle.format_spec.specs.Versions.{is_version};
ghost use Rattle.state_spec.specs.State.{State, system_of, memory_bytes};
ghost use Rattle.state_spec.specs.SystemText.{system_text};
ghost use Rattle.state_spec.specs.Manifest.{manifest_from, file_sums, manifest_of, chunk_hashes as sums_of_chunks};
ghost use Rattle.sys_state.specs.System.{part_of, kept_of};
ghost use Rattle.manifest.specs.Fits.{FitsText, FitSums, FitMemories};

use crate::names::SYSTEM;
use crate::rows::Manifest;
use byte_codec::{Blob, NoMemory};
use hash_domain::{Hash32, chunk_sums};
use std::alloc::Global;
use sys_state::SysState;

impl Manifest {
    /// The manifest of this version of a state with this system text, of which the chunks of each memory in file order
    /// have these sums: None is a chunk that has no row.
    pub fn from_sums(
        alloc: Global,
        system: &[u8],
        sys: &SysState,
        sums: &[Vec<Option<Hash32>>],
        version: u32,
    ) -> Result<Manifest, NoMemory>
        requires text { system.now ≡ system_text (part_of sys.now) }
        requires fit { FitSums (part_of sys.now) (map (λ hashes. hashes.items) sums.now) }
        requires version { IsTrue (is_version version) }
        ensures value { IfOk result (λ m. m ≡ manifest_from version (file_sums (part_of sys.now) (map (λ hashes. hashes.items) sums.now))) }
        ensures fits { IfOk result FitsText }
    {
        let mut manifest = Manifest {
            version,
            files: Vec::new(alloc),
            chunks: Vec::new(alloc),
        };
        manifest.add_memories(alloc, sys, sums)?;
        let hashes = chunk_sums(alloc, 1, system)?;
        let name = Blob::from_slice(alloc, SYSTEM)?;
        manifest.add_file(alloc, name, system.len() as u64, &hashes)?;
        Ok(manifest)
    }
}

/// The manifest of this version of a state with this system text and with these bytes of its memories in file order.
/// Each chunk is hashed but in version 2 those of memories that are zeros, which are looked at once.
pub fn from_scratch(
    alloc: Global,
    system: &[u8],
    sys: &SysState,
    memories: &[Vec<u8>],
    version: u32,
) -> Result<Manifest, NoMemory>
    requires text { system.now ≡ system_text (part_of sys.now) }
    requires fit { FitMemories (part_of sys.now) (map (λ memory. memory.items) memories.now) }
    requires version { IsTrue (is_version version) }
    ensures sums { IfOk result (λ m. m ≡ manifest_from version (file_sums (part_of sys.now) (map (λ memory. sums_of_chunks version memory.items) memories.now))) }
    ensures state { IfOk result (λ m. (s : State) → s.version ≡ version → system_of s ≡ part_of sys.now → memory_bytes s ≡ map (λ memory. memory.items) memories.now → m ≡ manifest_of s) }
    ensures kept { IfOk result (λ m. (s : State) → s.version ≡ version → kept_of s ≡ sys.now → memory_bytes s ≡ map (λ memory. memory.items) memories.now → m ≡ manifest_of s) }
    ensures fits { IfOk result FitsText }
{
    let mut sums = Vec::with_capacity(alloc, memories.len())?;
    for memory in memories {
        sums.push(chunk_sums(alloc, version, memory)?)?;
    }
    Manifest::from_sums(alloc, system, sys, &sums, version)
}
