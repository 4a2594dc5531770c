//! Canisters that come and go, with their memories.

ghost use Rattle.std.specs.Prelude.{◌≡◌, ◌*◌, ◌∷◌, ◌++◌, [], map, take, drop, length, vec_len};
ghost use Rattle.format_spec.specs.Bytes.{bytes_cmp};
ghost use Rattle.sys_state.specs.Calls.{Creates, Removes, create_refusal, find_refusal, newborn};
ghost use Rattle.state_spec.specs.Places.{place_of};
ghost use Rattle.live_state.specs.Changes.{Alters};

use crate::memories::{insert_pair, remove_pair};
use crate::refusals::reply_to;
use byte_codec::NoMemory;
use script_text::{Refusal, Reply};
use std::alloc::Global;
use sys_state::{CanisterId, SysState};

/// Adds an empty canister, born at this height.
pub fn create_canister(
    alloc: Global,
    sys: &mut SysState,
    memories: &mut Vec<Vec<u8>>,
    id: &CanisterId,
    birth: u64,
) -> Result<Reply, NoMemory>
    requires { vec_len memories.old ≡ 2 * length sys.old.canisters }
    ensures { let at = 2 * place_of bytes_cmp id.now sys.old.canisters in let old = map (λ v. v.items) memories.old.items in
        Alters (create_refusal sys.old id.now) result
        (Creates sys.old sys.new id.now (newborn birth) × (map (λ v. v.items) memories.new.items ≡ take at old ++ ([] ∷ [] ∷ drop at old)))
        ((sys.new ≡ sys.old) × (map (λ v. v.items) memories.new.items ≡ old)) }
{
    memories.reserve(2)?;
    let Err(place) = sys.place(id) else {
        return Ok(Reply::Refused(Refusal::Exists));
    };
    let change = sys.create(alloc, id.copy(), birth);
    if change.is_ok() {
        insert_pair(alloc, memories, place as usize);
    }
    reply_to(change)
}

/// Removes a canister.
pub fn remove_canister(
    sys: &mut SysState,
    memories: &mut Vec<Vec<u8>>,
    id: &CanisterId,
) -> Result<Reply, NoMemory>
    requires { vec_len memories.old ≡ 2 * length sys.old.canisters }
    ensures { let at = 2 * place_of bytes_cmp id.now sys.old.canisters in let old = map (λ v. v.items) memories.old.items in
        Alters (find_refusal sys.old id.now) result
        (Removes sys.old sys.new id.now × (map (λ v. v.items) memories.new.items ≡ take at old ++ drop 2 (drop at old)))
        ((sys.new ≡ sys.old) × (map (λ v. v.items) memories.new.items ≡ old)) }
{
    let Ok(place) = sys.place(id) else {
        return Ok(Reply::Refused(Refusal::NoCanister));
    };
    let change = sys.remove(id);
    if change.is_ok() {
        remove_pair(memories, place as usize);
    }
    reply_to(change)
}
