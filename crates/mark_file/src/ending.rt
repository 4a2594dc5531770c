//! What stands behind the memories, which the system text and the memories' hashes give: the hashes of the chunks of the
//! system text, and the root hash.

ghost use Rattle.std.specs.Prelude.{◌≡◌, ◌++◌, map, IfOk, IsTrue};
ghost use Rattle.format_spec.specs.Versions.{is_version};
ghost use Rattle.state_spec.specs.SystemText.{system_text};
ghost use Rattle.store_spec.specs.Mark.{hashes_text};
ghost use Rattle.sys_state.specs.System.{part_of};
ghost use Rattle.manifest.specs.Fits.{FitSums};
ghost use Rattle.mark_file.specs.Spells.{root_from};

use crate::encoding::put_hashes;
use crate::mark::MarkMem;
use byte_codec::NoMemory;
use hash_domain::Hash32;
use manifest::Manifest;
use std::alloc::Global;
use sys_state::SysState;

/// The root hash of the manifest of this version and these parts, where the chunks of the memories have the sums in these lists.
pub(crate) fn root_hash(
    alloc: Global,
    system: &[u8],
    sys: &SysState,
    mems: &[MarkMem],
    version: u32,
) -> Result<Hash32, NoMemory>
    requires version { IsTrue (is_version version) }
    requires text { system.now ≡ system_text (part_of sys.now) }
    requires fit { FitSums (part_of sys.now) (map (λ mem. mem.sums) mems.now) }
    ensures { IfOk result (λ root. root ≡ root_from version (part_of sys.now) mems.now) }
{
    let sums = memory_sums(alloc, mems)?;
    let manifest = Manifest::from_sums(alloc, system, sys, &sums, version)?;
    let meta = manifest.meta(alloc)?;
    Ok(meta.root())
}

/// The sums of the chunks of each memory.
pub fn memory_sums(alloc: Global, mems: &[MarkMem]) -> Result<Vec<Vec<Option<Hash32>>>, NoMemory>
    ensures { IfOk result (λ lists. map (λ list. list.items) lists.items ≡ map (λ mem. mem.sums) mems.now) }
{
    let mut lists = Vec::with_capacity(alloc, mems.len())?;
    for mem in mems {
        lists.push(Vec::from_slice(alloc, &mem.sums)?)?;
    }
    Ok(lists)
}

/// The bytes of both.
pub(crate) fn ending(alloc: Global, sums: &[Hash32], root: &Hash32) -> Result<Vec<u8>, NoMemory>
    ensures { IfOk result (λ text. text.items ≡ hashes_text sums.now ++ root.now) }
{
    let mut text = Vec::new(alloc);
    put_hashes(&mut text, sums)?;
    text.extend_from_slice(root.bytes())?;
    Ok(text)
}
