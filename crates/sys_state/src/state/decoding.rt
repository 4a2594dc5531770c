//! The system text of a state, read.

ghost use Rattle.std.specs.Prelude.{◌≡◌, IfOk, IsTrue};
ghost use Rattle.std.specs.List.{AllByRecursion};
ghost use Rattle.format_spec.specs.Versions.{is_version};
ghost use Rattle.state_spec.specs.State.{IsSystem};
ghost use Rattle.state_spec.specs.SystemText.{read_system};
ghost use Rattle.byte_codec.specs.Gives as fields;
ghost use Rattle.sys_state.specs.Reading.{Gives};
ghost use Rattle.sys_state.specs.System.{part_of};

use super::SysState;
use crate::error::SysError;
use crate::reading::{read_canisters, read_entries, read_head};
use byte_codec::{FieldError, Reader, read_count};
use format_spec::{MAX_CANISTERS, MAX_ENTRIES};
use std::alloc::Global;

impl SysState {
    /// The state that a system text spells within the limits of this version, with each canister born at this
    /// height. Memory is taken for what was read, and not for what a count says.
    ///
    /// BadSystem where the bytes are no system text, with the offset of the first byte of the first field that is
    /// cut or breaks its rule; where each field is good and bytes follow, it is where they begin. Memory where
    /// memory runs out.
    pub fn decode(
        alloc: Global,
        bytes: &[u8],
        birth: u64,
        version: u32,
    ) -> Result<SysState, SysError>
        requires version { IsTrue (is_version version) }
        ensures read { Gives part_of result (read_system version bytes.now) }
        ensures within { IfOk result (λ s. IsSystem version (part_of s)) }
        ensures births { IfOk result (λ s. AllByRecursion (λ c. c.1.birth ≡ birth) s.canisters) }
    {
        Ok(read_state(alloc, bytes, birth, version)?)
    }
}

// All fields of the text, and nothing behind them.
#[tactic(auto, unfolding(state_spec::specs::SystemText::read_system, state_spec::specs::SystemText::system_fields, crate::specs::Reading::head))]
fn read_state(alloc: Global, bytes: &[u8], birth: u64, version: u32) -> Result<SysState, FieldError>
    ensures read { fields.Gives part_of result (read_system version bytes.now) }
    ensures within { IfOk result (λ s. IsSystem version (part_of s)) }
    ensures births { IfOk result (λ s. AllByRecursion (λ c. c.1.birth ≡ birth) s.canisters) }
{
    let mut reader = Reader::new(bytes);
    let time = read_head(&mut reader)?;
    let count = read_count(&mut reader, MAX_CANISTERS)?;
    let (canisters, pages) = read_canisters(alloc, &mut reader, count, birth, version)?;
    let count = read_count(&mut reader, MAX_ENTRIES)?;
    let entries = read_entries(alloc, &mut reader, count)?;
    if reader.left() != 0 {
        return Err(FieldError::Bad(reader.at() as u64));
    }
    Ok(SysState {
        time,
        pages,
        canisters,
        entries,
    })
}
