//! Changes of a state's canisters.

ghost use Rattle.std.specs.Prelude.{◌≡◌, ◌≤◌, length, OnOk, OnErr, IfSome, IsTrue};
ghost use Rattle.sys_state.specs.Calls.{Answers, answer, create_refusal, extend_refusal, find_refusal};
ghost use Rattle.sys_state.specs.Calls.{Creates, Changes, Removes, newborn, with_more_pages, with_module, with_certified};
ghost use Rattle.format_spec.specs.Bytes.{IsBytes};
ghost use Rattle.format_spec.specs.Versions.{is_version};

use super::SysState;
use crate::canister_id::CanisterId;
use crate::error::SysError;
use crate::mem::Mem;
use crate::record::CanisterRecord;
use byte_codec::Blob;
use format_spec::{MAX_CANISTERS, MAX_CERTIFIED, MAX_MODULE, memory_limit, state_limit};
use std::alloc::Global;

// It is where it is read that a module is known to be of bytes.
fn bytes_of(module: &Option<Blob>) -> &[u8]
    ensures { IfSome «module».now IsBytes }
{
    match module {
        None => &[],
        Some(module) => module.bytes(),
    }
}

impl SysState {
    /// Adds a canister without module, certified data and pages, which is born at this height.
    ///
    /// Exists where the canister is there, else ManyCanisters where 1,024 canisters are there, else Memory
    /// where memory runs out. After an error the state is as it was.
    pub fn create(&mut self, alloc: Global, id: CanisterId, birth: u64) -> Result<(), SysError>
        ensures answer { Answers (create_refusal self.old id) result }
        ensures created { OnOk result (Creates self.old self.new id (newborn birth)) }
        ensures unchanged { OnErr result (self.new ≡ self.old) }
    {
        // It is where it is read that an id is known to be 1 to 29 bytes.
        let _bytes = id.bytes();
        let Err(i) = self.place(&id) else {
            return Err(SysError::Exists);
        };
        if self.canisters.len() >= MAX_CANISTERS {
            return Err(SysError::ManyCanisters);
        }
        let record = CanisterRecord::newborn(alloc, birth)?;
        self.canisters.insert(i as usize, (id, record))?;
        Ok(())
    }

    /// Adds so many pages to a memory, in a state of this version.
    ///
    /// NoCanister where the canister is not there, else MemoryFull where the memory would have more pages than the
    /// version allows (65,536 or 131,072), else StateFull where all memories together would have more (262,144 or
    /// 524,288). After an error the state is as it was.
    pub fn extend(
        &mut self,
        id: &CanisterId,
        mem: Mem,
        pages: u64,
        version: u32,
    ) -> Result<(), SysError>
        requires version { IsTrue (is_version version) }
        ensures answer { result ≡ answer (extend_refusal version self.old id.now mem pages) }
        ensures extended { OnOk result (Changes self.old self.new id.now (with_more_pages mem pages)) }
        ensures unchanged { OnErr result (self.new ≡ self.old) }
    {
        let Ok(i) = self.place(id) else {
            return Err(SysError::NoCanister);
        };
        let record = &mut self.canisters[i as usize].1;
        let old = record.pages(mem);
        if u64::from(old).saturating_add(pages) > memory_limit(version) as u64 {
            return Err(SysError::MemoryFull);
        }
        if u64::from(self.pages) + pages > state_limit(version) as u64 {
            return Err(SysError::StateFull);
        }
        record.set_pages(mem, old + pages as u32);
        self.pages += pages as u32;
        Ok(())
    }

    /// Removes a canister with its memories. NoCanister where it is not there; the state is then as it was.
    pub fn remove(&mut self, id: &CanisterId) -> Result<(), SysError>
        ensures answer { result ≡ answer (find_refusal self.old id.now) }
        ensures removed { OnOk result (Removes self.old self.new id.now) }
        ensures unchanged { OnErr result (self.new ≡ self.old) }
    {
        let Ok(i) = self.place(id) else {
            return Err(SysError::NoCanister);
        };
        let (_, record) = self.canisters.remove(i as usize);
        self.pages -= record.heap + record.stable;
        Ok(())
    }

    /// Installs a module of at most 16,384 bytes, or removes the one that is there.
    ///
    /// NoCanister where the canister is not there; the state is then as it was.
    pub fn set_module(&mut self, id: &CanisterId, module: Option<Blob>) -> Result<(), SysError>
        requires { IfSome «module» (λ m. length m ≤ MAX_MODULE) }
        ensures answer { result ≡ answer (find_refusal self.old id.now) }
        ensures changed { OnOk result (Changes self.old self.new id.now (with_module «module»)) }
        ensures unchanged { OnErr result (self.new ≡ self.old) }
    {
        let _bytes = bytes_of(&module);
        let Ok(i) = self.place(id) else {
            return Err(SysError::NoCanister);
        };
        self.canisters[i as usize].1.module = module;
        Ok(())
    }

    /// Sets the certified data, at most 32 bytes.
    ///
    /// NoCanister where the canister is not there; the state is then as it was.
    pub fn set_certified(&mut self, id: &CanisterId, bytes: Blob) -> Result<(), SysError>
        requires { length bytes ≤ MAX_CERTIFIED }
        ensures answer { result ≡ answer (find_refusal self.old id.now) }
        ensures changed { OnOk result (Changes self.old self.new id.now (with_certified bytes)) }
        ensures unchanged { OnErr result (self.new ≡ self.old) }
    {
        // It is where they are read that they are known to be bytes.
        let _bytes = bytes.bytes();
        let Ok(i) = self.place(id) else {
            return Err(SysError::NoCanister);
        };
        self.canisters[i as usize].1.certified = bytes;
        Ok(())
    }
}
