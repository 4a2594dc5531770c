//! The fields of a mark, each with its rule.

ghost use Rattle.std.specs.Prelude.{◌≡◌, nat_le, IfOk, IsTrue};
ghost use Rattle.std.specs.List.{AllByRecursion};
ghost use Rattle.std.specs.Int.{w32, w64};
ghost use Rattle.format_spec.specs.Fields.{field, number, string32, any};
ghost use Rattle.state_spec.specs.SystemText.{read_system};
ghost use Rattle.sys_state.specs.System.{part_of};
ghost use Rattle.format_spec.specs.Versions.{is_version};
ghost use Rattle.mark_file.specs.Reading.{head_fields, most_layers, is_new, flag_of, sum_of};
ghost use Rattle.byte_codec.specs.Gives.{Gives};
ghost use Rattle.mark_file.specs.Spells.{Hashed};

use crate::encoding::MAGIC;
use crate::error::Stop;
use byte_codec::{FieldError, Reader, is_same, read_be64, read_count, read_magic};
use format_spec::{HASH_SIZE, MAX_LAYERS};
use hash_domain::{Hash32, plain_hash, read_hash};
use std::alloc::Global;
use sys_state::{SysError, SysState};

/// The bytes before the last 32, where these are the hash of those.
pub(crate) fn hashed_body(text: &[u8]) -> Result<&[u8], Stop>
    ensures { Hashed (λ body. body.now) text.now result }
{
    if text.len() < HASH_SIZE {
        return Err(Stop::Broken);
    }
    let at = text.len() - HASH_SIZE;
    let body = &text[..at];
    if is_same(plain_hash(body).bytes(), &text[at..]) {
        Ok(body)
    } else {
        Err(Stop::Broken)
    }
}

/// The version, behind the name, and the system text, behind this height and its length.
#[tactic(auto, unfolding(crate::specs::Reading::head_fields))]
pub(crate) fn read_head<'a>(
    reader: &mut Reader<'a>,
    height: u64,
) -> Result<(u32, &'a [u8]), FieldError>
    ensures head { Gives (λ head. ((head.0, head.1.now), reader.new)) result (head_fields height reader.old) }
    ensures version { IfOk result (λ head. IsTrue (is_version head.0)) }
{
    read_magic(reader, MAGIC)?;
    let version = read_version(reader)?;
    read_be64(reader, height)?;
    let system = read_text(reader)?;
    Ok((version, system))
}

fn read_version(reader: &mut Reader) -> Result<u32, FieldError>
    ensures value { Gives (λ n. (n, reader.new)) result (field (number w32) is_version reader.old) }
    ensures version { IfOk result (λ n. IsTrue (is_version n)) }
{
    let at = reader.at();
    match reader.be32() {
        Ok(version) if version == 1 || version == 2 => Ok(version),
        _ => Err(FieldError::Bad(at as u64)),
    }
}

fn read_text<'a>(reader: &mut Reader<'a>) -> Result<&'a [u8], FieldError>
    ensures { Gives (λ text. (text.now, reader.new)) result (field string32 any reader.old) }
{
    let at = reader.at();
    match reader.string32() {
        Ok(text) => Ok(text),
        Err(_) => Err(FieldError::Bad(at as u64)),
    }
}

/// The parts of a state of this version that a system text spells, each canister being born at this height.
pub(crate) fn read_parts(
    alloc: Global,
    system: &[u8],
    height: u64,
    version: u32,
) -> Result<SysState, FieldError>
    requires { IsTrue (is_version version) }
    ensures gives { Gives part_of result (read_system version system.now) }
    ensures births { IfOk result (λ sys. AllByRecursion (λ c. c.1.birth ≡ height) sys.canisters) }
{
    match SysState::decode(alloc, system, height, version) {
        Ok(sys) => Ok(sys),
        Err(SysError::BadSystem(place)) => Err(FieldError::Bad(place)),
        Err(_) => Err(FieldError::Memory),
    }
}

/// The number of layers of a memory of so many pages.
pub(crate) fn read_layer_count(reader: &mut Reader, pages: u32) -> Result<u32, FieldError>
    ensures { Gives (λ n. (n, reader.new)) result (field (number w32) (λ n. nat_le n (most_layers pages)) reader.old) }
{
    let most = if pages == 0 { 0 } else { MAX_LAYERS };
    read_count(reader, most)
}

/// The number of a page file that isn't among those before.
pub(crate) fn read_layer(reader: &mut Reader, before: &[u64]) -> Result<u64, FieldError>
    ensures { Gives (λ n. (n, reader.new)) result (field (number w64) (is_new before.now) reader.old) }
{
    let at = reader.at();
    match reader.be64() {
        Ok(number) if is_new_number(number, before) => Ok(number),
        _ => Err(FieldError::Bad(at as u64)),
    }
}

fn is_new_number(number: u64, before: &[u64]) -> bool
    ensures { result ≡ is_new before.now number }
{
    !before.contains(&number)
}

/// The sum of a chunk in a mark of this version: None for a chunk that has no hash.
#[tactic(auto, unfolding(crate::specs::Reading::sum_of))]
pub(crate) fn read_sum(reader: &mut Reader, version: u32) -> Result<Option<Hash32>, FieldError>
    ensures { Gives (λ sum. (sum, reader.new)) result (sum_of version reader.old) }
{
    let flag = read_flag(reader, version)?;
    if flag == 0 {
        return Ok(None);
    }
    let hash = read_hash(reader)?;
    Ok(Some(hash))
}

// 1 where a hash follows.
fn read_flag(reader: &mut Reader, version: u32) -> Result<u8, FieldError>
    ensures { Gives (λ flag. (flag, reader.new)) result (flag_of version reader.old) }
{
    if version == 1 {
        return Ok(1);
    }
    let at = reader.at();
    match reader.u8() {
        Ok(flag) if flag <= 1 => Ok(flag),
        _ => Err(FieldError::Bad(at as u64)),
    }
}
