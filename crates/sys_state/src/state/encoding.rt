//! The system text of a state, written.

ghost use Rattle.std.specs.Prelude.{◌≡◌, ◌<◌, ◌^◌, ◌++◌, length, codes, IfOk, OnOk, IfSome};
ghost use Rattle.std.specs.List.{flat_map, AllByRecursion};
ghost use Rattle.format_spec.specs.Bytes.{short_string, be32, be64};
ghost use Rattle.state_spec.specs.State.{FitsCanister, FitsEntry, IsSystem};
ghost use Rattle.state_spec.specs.SystemText.{canister_text, entry_text, path_text, wasm_text, system_text};
ghost use Rattle.sys_state.specs.System.{part_of, part_of_record};

use super::SysState;
use super::sizes::{canisters_size, entries_size};
use crate::canister_id::CanisterId;
use crate::path::Path;
use crate::record::CanisterRecord;
use byte_codec::{Blob, NoMemory, Writer};
use format_spec::MIN_SYSTEM;
use std::alloc::Global;

fn write_short(text: &mut Writer, bytes: &[u8]) -> Result<(), NoMemory>
    requires { length bytes.now < 256 }
    ensures { OnOk result (text.new ≡ text.old ++ short_string bytes.now) }
{
    text.u8(bytes.len() as u8)?;
    text.bytes(bytes)
}

fn write_module(text: &mut Writer, module: &Option<Blob>) -> Result<(), NoMemory>
    requires { IfSome «module».now (λ m. length m < 2 ^ 32) }
    ensures { OnOk result (text.new ≡ text.old ++ wasm_text «module».now) }
{
    match module {
        None => text.u8(0),
        Some(module) => {
            text.u8(1)?;
            text.be32(module.bytes().len() as u32)?;
            text.bytes(module.bytes())
        }
    }
}

fn write_canister(
    text: &mut Writer,
    id: &CanisterId,
    record: &CanisterRecord,
) -> Result<(), NoMemory>
    requires { FitsCanister 2 (id.now, part_of_record «record».now) }
    ensures { OnOk result (text.new ≡ text.old ++ canister_text (id.now, part_of_record «record».now)) }
{
    write_short(text, id.bytes())?;
    write_module(text, &record.module)?;
    write_short(text, record.certified.bytes())?;
    text.be32(record.heap)?;
    text.be32(record.stable)
}

fn write_path(text: &mut Writer, path: &Path) -> Result<(), NoMemory>
    ensures { OnOk result (text.new ≡ text.old ++ path_text path.now) }
{
    text.u8(path.labels().len() as u8)?;
    for label in path.labels() {
        write_short(text, label.bytes())?;
    }
    Ok(())
}

fn write_entry(text: &mut Writer, path: &Path, value: &Blob) -> Result<(), NoMemory>
    requires { FitsEntry (path.now, value.now) }
    ensures { OnOk result (text.new ≡ text.old ++ entry_text (path.now, value.now)) }
{
    write_path(text, path)?;
    text.be16(value.bytes().len() as u16)?;
    text.bytes(value.bytes())
}

fn write_head(text: &mut Writer, time: u64) -> Result<(), NoMemory>
    ensures { OnOk result (text.new ≡ text.old ++ codes "ICSY" ++ be32 1 ++ be64 time) }
{
    text.bytes(b"ICSY")?;
    text.be32(1)?;
    text.be64(time)
}

fn write_canisters(
    text: &mut Writer,
    canisters: &[(CanisterId, CanisterRecord)],
) -> Result<(), NoMemory>
    requires { AllByRecursion (λ c. FitsCanister 2 (c.0, part_of_record c.1)) canisters.now }
    ensures { OnOk result (text.new ≡ text.old ++ flat_map (λ c. canister_text (c.0, part_of_record c.1)) canisters.now) }
{
    for (id, record) in canisters {
        write_canister(text, id, record)?;
    }
    Ok(())
}

fn write_entries(text: &mut Writer, entries: &[(Path, Blob)]) -> Result<(), NoMemory>
    requires { AllByRecursion FitsEntry entries.now }
    ensures { OnOk result (text.new ≡ text.old ++ flat_map entry_text entries.now) }
{
    for (path, value) in entries {
        write_entry(text, path, value)?;
    }
    Ok(())
}

impl SysState {
    /// The system text: all of the state but the births.
    pub fn encode(&self, alloc: Global) -> Result<Blob, NoMemory>
        ensures text { IfOk result (λ text. text ≡ system_text (part_of self.now)) }
        ensures system { IsSystem 2 (part_of self.now) }
    {
        let (canisters, entries) = (self.canisters(), self.entries());
        let size = canisters_size(&self.canisters).saturating_add(entries_size(&self.entries));
        let mut text = Writer::with_capacity(alloc, size.saturating_add(MIN_SYSTEM))?;
        write_head(&mut text, self.time)?;
        text.be32(canisters)?;
        write_canisters(&mut text, &self.canisters)?;
        text.be32(entries)?;
        write_entries(&mut text, &self.entries)?;
        Ok(text.into_blob())
    }
}
