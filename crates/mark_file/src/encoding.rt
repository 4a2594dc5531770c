//! The bytes of a mark.

ghost use Rattle.std.specs.Prelude.{◌≡◌, ◌<◌, ◌^◌, ◌++◌, length, IfOk, OnOk};
ghost use Rattle.std.specs.List.{flat_map, AllByRecursion};
ghost use Rattle.format_spec.specs.Bytes.{be64};
ghost use Rattle.store_spec.specs.Mark.{mark_text, mark_body, mark_memory_text, sum_text, sums_text, hashes_text};
ghost use Rattle.mark_file.specs.Fits.{FitsText};

use crate::mark::{Mark, MarkMem};
use byte_codec::{Blob, NoMemory};
use format_spec::HASH_SIZE;
use hash_domain::{Hash32, plain_hash};
use std::alloc::Global;

/// What the bytes begin with.
pub(crate) const MAGIC: &[u8] = b"ICMK";

/// Bytes beside system text, layers and hashes of chunks: the name, the version, the height, the length of the system
/// text, the root and the hash of all before.
const FRAME: usize = 20 + 2 * HASH_SIZE;

impl Mark {
    /// Its bytes, of which there is one spelling. It needs a system text, and lists of layers, whose lengths fit four
    /// bytes.
    #[tactic(auto, unfolding(store_spec::specs::Mark::mark_text))]
    pub fn encode(&self, alloc: Global) -> Result<Blob, NoMemory>
        requires { FitsText self.now }
        ensures { IfOk result (λ text. text ≡ mark_text self.now) }
    {
        let mut text = Vec::with_capacity(alloc, self.size())?;
        self.put_body(&mut text)?;
        let hash = plain_hash(&text);
        text.extend_from_slice(hash.bytes())?;
        Ok(Blob::from_vec(text))
    }

    // Adds all but the hash over it.
    fn put_body(&self, text: &mut Vec<u8>) -> Result<(), NoMemory>
        requires { FitsText self.now }
        ensures { OnOk result (text.new.items ≡ text.old.items ++ mark_body self.now) }
    {
        text.extend_from_slice(MAGIC)?;
        text.extend_from_slice(&self.version.to_be_bytes())?;
        text.extend_from_slice(&self.height.to_be_bytes())?;
        let system = self.system.bytes();
        text.extend_from_slice(&(system.len() as u32).to_be_bytes())?;
        text.extend_from_slice(system)?;
        put_mems(text, &self.mems, self.version)?;
        put_hashes(text, &self.system_sums)?;
        text.extend_from_slice(self.root.bytes())?;
        Ok(())
    }

    // No fewer bytes than there are: room that is asked for, and nothing depends on it.
    fn size(&self) -> usize {
        let mut size = FRAME
            .saturating_add(self.system.bytes().len())
            .saturating_add(self.system_sums.len().saturating_mul(HASH_SIZE));
        for mem in &self.mems {
            size = size
                .saturating_add(4)
                .saturating_add(mem.layers.len().saturating_mul(8))
                .saturating_add(mem.sums.len().saturating_mul(1 + HASH_SIZE));
        }
        size
    }
}

fn put_mems(text: &mut Vec<u8>, mems: &[MarkMem], version: u32) -> Result<(), NoMemory>
    requires { AllByRecursion (λ mem. length mem.layers < 2 ^ 32) mems.now }
    ensures { OnOk result (text.new.items ≡ text.old.items ++ flat_map (mark_memory_text version) mems.now) }
{
    for mem in mems {
        put_mem(text, mem, version)?;
    }
    Ok(())
}

fn put_mem(text: &mut Vec<u8>, mem: &MarkMem, version: u32) -> Result<(), NoMemory>
    requires { length mem.now.layers < 2 ^ 32 }
    ensures { OnOk result (text.new.items ≡ text.old.items ++ mark_memory_text version mem.now) }
{
    text.extend_from_slice(&(mem.layers.len() as u32).to_be_bytes())?;
    put_numbers(text, &mem.layers)?;
    put_sums(text, &mem.sums, version)
}

fn put_sums(text: &mut Vec<u8>, sums: &[Option<Hash32>], version: u32) -> Result<(), NoMemory>
    ensures { OnOk result (text.new.items ≡ text.old.items ++ sums_text version sums.now) }
{
    for sum in sums {
        put_sum(text, sum, version)?;
    }
    Ok(())
}

fn put_sum(text: &mut Vec<u8>, sum: &Option<Hash32>, version: u32) -> Result<(), NoMemory>
    ensures { OnOk result (text.new.items ≡ text.old.items ++ sum_text version sum.now) }
{
    match sum {
        None => text.push(0)?,
        Some(hash) if version == 1 => text.extend_from_slice(hash.bytes())?,
        Some(hash) => {
            text.push(1)?;
            text.extend_from_slice(hash.bytes())?;
        }
    }
    Ok(())
}

fn put_numbers(text: &mut Vec<u8>, numbers: &[u64]) -> Result<(), NoMemory>
    ensures { OnOk result (text.new.items ≡ text.old.items ++ flat_map be64 numbers.now) }
{
    for number in numbers {
        text.extend_from_slice(&number.to_be_bytes())?;
    }
    Ok(())
}

/// Adds these hashes.
pub(crate) fn put_hashes(text: &mut Vec<u8>, hashes: &[Hash32]) -> Result<(), NoMemory>
    ensures { OnOk result (text.new.items ≡ text.old.items ++ hashes_text hashes.now) }
{
    for hash in hashes {
        text.extend_from_slice(hash.bytes())?;
    }
    Ok(())
}
