//! The mark of a state.

ghost use Rattle.std.specs.Prelude.{◌≡◌, ◌≤◌, ◌-◌, length, map, drop, IfOk, IsTrue};
ghost use Rattle.std.specs.List.{AllZip};
ghost use Rattle.format_spec.specs.Bytes.{part_count};
ghost use Rattle.format_spec.specs.declared.limits.TheConstants.{CHUNK_SIZE as chunk_size, MAX_HEIGHT};
ghost use Rattle.format_spec.specs.Versions.{is_version};
ghost use Rattle.state_spec.specs.State.{IsSystem};
ghost use Rattle.state_spec.specs.SystemText.{system_text};
ghost use Rattle.state_spec.specs.Files.{memories_in};
ghost use Rattle.store_spec.specs.Mark.{FitsMemory, IsMark};
ghost use Rattle.sys_state.specs.System.{part_of};
ghost use Rattle.mark_file.specs.Spells.{root_from};

use crate::ending::memory_sums;
use crate::mark::{Mark, MarkMem};
use byte_codec::{Blob, NoMemory};
use format_spec::CHUNK_SIZE;
use hash_domain::Hash32;
use manifest::Manifest;
use std::alloc::Global;
use sys_state::SysState;

impl Mark {
    /// The mark of a height, from 1 to 2^62, for a state of this version, 1 or 2, with this system text whose memories have these
    /// layers and sums of chunks. NoMemory where memory runs out.
    pub fn made(
        alloc: Global,
        height: u64,
        sys: &SysState,
        system: Blob,
        mems: Vec<MarkMem>,
        version: u32,
    ) -> Result<Mark, NoMemory>
        requires version { IsTrue (is_version version) }
        requires good { IsSystem version (part_of sys.now) }
        requires text { system ≡ system_text (part_of sys.now) }
        requires from_one { 1 ≤ height }
        requires at_most { height ≤ MAX_HEIGHT }
        requires fit { AllZip (FitsMemory version) mems.items (memories_in (part_of sys.now)) }

        ensures mark { IfOk result (λ m. IsMark m (part_of sys.now)) }
        ensures height { IfOk result (λ m. m.height ≡ height) }
        ensures version { IfOk result (λ m. m.version ≡ version) }
        ensures memories { IfOk result (λ m. m.memories ≡ mems.items) }
        ensures root { IfOk result (λ m. m.root ≡ root_from version (part_of sys.now) mems.items) }
    {
        let sums = memory_sums(alloc, &mems)?;
        let manifest = Manifest::from_sums(alloc, system.bytes(), sys, &sums, version)?;
        let system_sums = last_hashes(alloc, &manifest, system.bytes().len())?;
        let root = manifest.meta(alloc)?.root();
        Ok(Mark {
            height,
            version,
            system,
            mems,
            system_sums,
            root,
        })
    }
}

// The hashes of the chunks of the last file, which has so many bytes.
fn last_hashes(alloc: Global, manifest: &Manifest, size: usize) -> Result<Vec<Hash32>, NoMemory>
    requires { part_count chunk_size size ≤ length manifest.now.chunks }
    ensures { IfOk result (λ hashes. hashes.items ≡ map (λ row. row.sum.hash) (drop (length manifest.now.chunks - part_count chunk_size size) manifest.now.chunks)) }
{
    let count = size.div_ceil(CHUNK_SIZE);
    let mut hashes = Vec::with_capacity(alloc, count)?;
    for row in &manifest.chunks[manifest.chunks.len() - count..] {
        hashes.push(row.hash)?;
    }
    Ok(hashes)
}
