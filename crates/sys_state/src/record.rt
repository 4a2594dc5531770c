ghost use Rattle.std.specs.Prelude.{◌≡◌, IfOk};

use crate::mem::Mem;
use byte_codec::{Blob, NoMemory};
use std::alloc::Global;

/// A canister of a state, apart from the bytes of its memories.
#[derive(Debug, Drop)]
pub struct CanisterRecord {
    /// The installed module, if there is one.
    pub module: Option<Blob>,
    /// The certified data.
    pub certified: Blob,
    /// The pages of the heap.
    pub heap: u32,
    /// The pages of the stable memory.
    pub stable: u32,
    /// The live height at which the canister was made.
    pub birth: u64,
}

fn copy_module(alloc: Global, module: &Option<Blob>) -> Result<Option<Blob>, NoMemory>
    ensures { IfOk result (λ m. m ≡ «module».now) }
{
    match module {
        None => Ok(None),
        Some(bytes) => Ok(Some(bytes.copy(alloc)?)),
    }
}

impl CanisterRecord {
    ghost use Rattle.sys_state.specs.Calls.{pages_of, with_pages, newborn};

    // A canister without module, certified data and pages.
    pub(crate) fn newborn(alloc: Global, birth: u64) -> Result<CanisterRecord, NoMemory>
        ensures { IfOk result (λ c. c ≡ newborn birth) }
    {
        Ok(CanisterRecord {
            module: None,
            certified: Blob::from_slice(alloc, &[])?,
            heap: 0,
            stable: 0,
            birth,
        })
    }

    /// The same record.
    pub fn copy(&self, alloc: Global) -> Result<CanisterRecord, NoMemory>
        ensures { IfOk result (λ c. c ≡ self.now) }
    {
        Ok(CanisterRecord {
            module: copy_module(alloc, &self.module)?,
            certified: self.certified.copy(alloc)?,
            heap: self.heap,
            stable: self.stable,
            birth: self.birth,
        })
    }

    /// The pages of a memory.
    pub fn pages(&self, mem: Mem) -> u32
        ensures { result ≡ pages_of mem self.now }
    {
        match mem {
            Mem::Heap => self.heap,
            Mem::Stable => self.stable,
        }
    }

    pub(crate) fn set_pages(&mut self, mem: Mem, pages: u32)
        ensures { self.new ≡ with_pages mem pages self.old }
    {
        match mem {
            Mem::Heap => self.heap = pages,
            Mem::Stable => self.stable = pages,
        }
    }
}
