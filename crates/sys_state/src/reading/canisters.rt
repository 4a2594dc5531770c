//! The canisters of a system text.

ghost use Rattle.std.specs.Prelude.{◌≡◌, ◌+◌, ◌≤◌, ◌&&◌, [], length, nat_le, IfOk, IfSome};
ghost use Rattle.std.specs.List.{AllByRecursion};
ghost use Rattle.std.specs.Int.{w32};
ghost use Rattle.format_spec.specs.Bytes.{IsBytes, bytes_cmp, is_after, last_key};
ghost use Rattle.format_spec.specs.Fields.{field, number, string8, each};
ghost use Rattle.format_spec.specs.declared.limits.TheConstants.{MAX_STATE_PAGES};
ghost use Rattle.format_spec.specs.Versions.{memory_limit as limit_of_memory, state_limit as limit_of_state};
ghost use Rattle.state_spec.specs.State.{is_id, all_pages};
ghost use Rattle.state_spec.specs.SystemText.{canister_after, wasm_form, wasm_fits};
ghost use Rattle.byte_codec.specs.Gives.{Gives};
ghost use Rattle.sys_state.specs.System.{IsCanister, parts, part_of_record};

use crate::canister_id::CanisterId;
use crate::record::CanisterRecord;
use byte_codec::{Blob, FieldError, Reader};
use format_spec::{MAX_CERTIFIED, MAX_MODULE, memory_limit, state_limit};
use std::alloc::Global;

fn comes_last(canisters: &[(CanisterId, CanisterRecord)], id: &CanisterId) -> bool
    ensures { result ≡ is_after bytes_cmp (last_key (parts canisters.now)) id.now }
{
    match canisters.last() {
        None => true,
        Some(last) => last.0 < *id,
    }
}

fn read_id(
    reader: &mut Reader,
    canisters: &[(CanisterId, CanisterRecord)],
) -> Result<CanisterId, FieldError>
    ensures read { Gives (λ id. (id, reader.new)) result (field string8 (λ id. is_id id && is_after bytes_cmp (last_key (parts canisters.now)) id) reader.old) }
    ensures bytes { IfOk result IsBytes }
{
    let at = reader.at() as u64;
    let Ok(bytes) = reader.string8() else {
        return Err(FieldError::Bad(at));
    };
    match CanisterId::new(bytes) {
        Some(id) if comes_last(canisters, &id) => Ok(id),
        _ => Err(FieldError::Bad(at)),
    }
}

fn read_module(alloc: Global, reader: &mut Reader) -> Result<Option<Blob>, FieldError>
    ensures read { Gives (λ m. (m, reader.new)) result (field wasm_form wasm_fits reader.old) }
    ensures bytes { IfOk result (λ m. IfSome m IsBytes) }
{
    let at = reader.at() as u64;
    match reader.u8() {
        Ok(0) => Ok(None),
        Ok(1) => match reader.string32() {
            Ok(bytes) if bytes.len() <= MAX_MODULE => Ok(Some(Blob::from_slice(alloc, bytes)?)),
            _ => Err(FieldError::Bad(at)),
        },
        _ => Err(FieldError::Bad(at)),
    }
}

fn read_certified(alloc: Global, reader: &mut Reader) -> Result<Blob, FieldError>
    ensures read { Gives (λ bytes. (bytes, reader.new)) result (field string8 (λ bytes. nat_le (length bytes) MAX_CERTIFIED) reader.old) }
    ensures bytes { IfOk result IsBytes }
{
    let at = reader.at() as u64;
    match reader.string8() {
        Ok(bytes) if bytes.len() <= MAX_CERTIFIED => Ok(Blob::from_slice(alloc, bytes)?),
        _ => Err(FieldError::Bad(at)),
    }
}

// A page count, behind so many pages of the canisters before and so many of the same one.
fn read_pages(reader: &mut Reader, before: u32, more: u32, version: u32) -> Result<u32, FieldError>
    requires { before + more ≤ limit_of_state version }
    ensures small { IfOk result (λ n. before + more + n ≤ limit_of_state version) }
    ensures few { IfOk result (λ n. before + more + n ≤ MAX_STATE_PAGES) }
    ensures read { Gives (λ n. (n, reader.new)) result (field (number w32) (λ n. nat_le n (limit_of_memory version) && nat_le (before + more + n) (limit_of_state version)) reader.old) }
{
    let at = reader.at() as u64;
    let (most, most_in_all) = (memory_limit(version), state_limit(version));
    match reader.be32() {
        Ok(pages) if pages as usize <= most && (before + more + pages) as usize <= most_in_all => {
            Ok(pages)
        }
        _ => Err(FieldError::Bad(at)),
    }
}

#[tactic(auto, unfolding(state_spec::specs::SystemText::canister_after))]
fn read_canister(
    alloc: Global,
    reader: &mut Reader,
    canisters: &[(CanisterId, CanisterRecord)],
    pages: u32,
    birth: u64,
    version: u32,
) -> Result<(CanisterId, CanisterRecord), FieldError>
    requires pages { pages ≡ all_pages (parts canisters.now) }
    requires small { pages ≤ limit_of_state version }
    ensures read { Gives (λ c. ((c.0, part_of_record c.1), reader.new)) result (canister_after version (parts canisters.now) reader.old) }
    ensures bytes { IfOk result IsCanister }
    ensures birth { IfOk result (λ c. c.1.birth ≡ birth) }
    ensures small { IfOk result (λ c. pages + c.1.heap + c.1.stable ≤ limit_of_state version) }
    ensures few { IfOk result (λ c. pages + c.1.heap + c.1.stable ≤ MAX_STATE_PAGES) }
{
    let id = read_id(reader, canisters)?;
    let module = read_module(alloc, reader)?;
    let certified = read_certified(alloc, reader)?;
    let heap = read_pages(reader, pages, 0, version)?;
    let stable = read_pages(reader, pages, heap, version)?;
    let record = CanisterRecord {
        module,
        certified,
        heap,
        stable,
        birth,
    };
    Ok((id, record))
}

pub(crate) fn read_canisters(
    alloc: Global,
    reader: &mut Reader,
    count: u32,
    birth: u64,
    version: u32,
) -> Result<(Vec<(CanisterId, CanisterRecord)>, u32), FieldError>
    ensures read { Gives (λ c. (parts c.0.items, reader.new)) result (each (canister_after version) count [] reader.old) }
    ensures pages { IfOk result (λ c. c.1 ≡ all_pages (parts c.0.items)) }
    ensures bytes { IfOk result (λ c. AllByRecursion IsCanister c.0.items) }
    ensures birth { IfOk result (λ c. AllByRecursion (λ d. d.1.birth ≡ birth) c.0.items) }
{
    let mut canisters = Vec::new(alloc);
    let mut pages = 0;
    for _ in 0..count {
        let canister = read_canister(alloc, reader, &canisters, pages, birth, version)?;
        pages += canister.1.heap + canister.1.stable;
        canisters.push(canister)?;
    }
    Ok((canisters, pages))
}
