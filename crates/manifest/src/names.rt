//! The names of logical files.

ghost use Rattle.std.specs.Prelude.{◌≡◌, ◌<◌, ◌≤◌, length, IfOk, Some};
ghost use Rattle.state_spec.specs.Files.{file_name};
ghost use Rattle.state_spec.specs.ManifestText.{id_in};

use byte_codec::{Blob, NoMemory, Writer, hex_text};
use format_spec::MAX_ID;
use std::alloc::Global;
use sys_state::CanisterId;

/// The file of all of a state that isn't memory bytes.
pub(crate) const SYSTEM: &[u8] = b"system";

/// Bytes in the names of both memories of a canister, apart from the digits of its id.
pub(crate) const BOTH_NAMES: usize = 30;

/// Bytes in the longest name, `canister/`, the digits of an id and `/stable`.
const MAX_NAME: usize = 16 + 2 * MAX_ID;

/// The file of a canister's memory: `heap` or `stable`.
pub(crate) fn memory_name(alloc: Global, id: &CanisterId, memory: &[u8]) -> Result<Blob, NoMemory>
    requires { length memory.now ≤ 6 }
    ensures value { IfOk result (λ name. name ≡ file_name id.now memory.now) }
    ensures short { IfOk result (λ name. length name < 256) }
    ensures id { IfOk result (λ name. id_in name ≡ Some id.now) }
{
    name_of(alloc, id.bytes(), memory)
}

fn name_of(alloc: Global, id: &[u8], memory: &[u8]) -> Result<Blob, NoMemory>
    ensures { IfOk result (λ name. name ≡ file_name id.now memory.now) }
{
    let digits = hex_text(alloc, id)?;
    let mut name = Writer::with_capacity(alloc, MAX_NAME)?;
    name.bytes(b"canister/")?;
    name.bytes(digits.bytes())?;
    name.bytes(b"/")?;
    name.bytes(memory)?;
    Ok(name.into_blob())
}
