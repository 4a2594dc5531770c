//! The bytes of memories: a vector for each, heap and stable of each canister in order of ids.

ghost use Rattle.std.specs.Prelude.{◌≡◌, ◌+◌, ◌*◌, ◌/◌, ◌<◌, ◌≤◌, ◌∷◌, ◌++◌, [], map, take, drop, length, vec_len, vec_capacity, Some, IfSome, IfOk, OnOk};
ghost use Rattle.format_spec.specs.declared.limits.TheConstants.{PAGE_SIZE, MAX_MEMORY_PAGES};
ghost use Rattle.format_spec.specs.Versions.{memory_limit as limit_of_memory};
ghost use Rattle.state_spec.specs.Memory.{with_bytes_at, with_zeros_up_to, zeros, pages_for};
ghost use Rattle.sys_state.specs.Calls.{Changes, with_more_pages, extend_refusal, canister_in, pages_of};
ghost use Rattle.live_state.specs.Changes.{Alters};
ghost use Rattle.live_state.specs.Memories.{pages_more, bytes_after_write, write_refusal};

use crate::refusals::reply_to;
use byte_codec::NoMemory;
use format_spec::{PAGE_SIZE, VERSION, memory_limit};
use script_text::{Refusal, Reply};
use std::alloc::Global;
use sys_state::{CanisterId, Mem, SysState};

/// Puts two empty memories before the two at a place.
pub fn insert_pair(alloc: Global, memories: &mut Vec<Vec<u8>>, place: usize)
    requires within { 2 * place ≤ vec_len memories.old }
    requires room { vec_len memories.old + 2 ≤ vec_capacity memories.old }
    ensures { map (λ v. v.items) memories.new.items ≡ take (2 * place) (map (λ v. v.items) memories.old.items) ++ ([] ∷ [] ∷ drop (2 * place) (map (λ v. v.items) memories.old.items)) }
{
    let at = 2 * place;
    if memories.insert(at, Vec::new(alloc)).is_err() {
        unreachable!();
    }
    if memories.insert(at, Vec::new(alloc)).is_err() {
        unreachable!();
    }
}

/// Removes the two memories at a place.
pub fn remove_pair(memories: &mut Vec<Vec<u8>>, place: usize)
    requires { 2 * place + 2 ≤ vec_len memories.old }
    ensures { map (λ v. v.items) memories.new.items ≡ take (2 * place) (map (λ v. v.items) memories.old.items) ++ drop 2 (drop (2 * place) (map (λ v. v.items) memories.old.items)) }
{
    let at = 2 * place;
    memories.remove(at);
    memories.remove(at);
}

// Grows a memory to so many bytes, with zeros, where it has fewer.
fn extend_to(memory: &mut Vec<u8>, size: usize)
    requires { size ≤ vec_capacity memory.old }
    ensures { memory.new.items ≡ with_zeros_up_to memory.old.items size }
{
    if size > memory.len() && memory.resize(size, 0).is_err() {
        unreachable!();
    }
}

// Writes bytes into a memory that holds their place.
fn write_at(memory: &mut Vec<u8>, at: usize, bytes: &[u8])
    requires { at + length bytes.now ≤ vec_len memory.old }
    ensures { memory.new.items ≡ with_bytes_at memory.old.items at bytes.now }
{
    let room = &mut memory[at..at + bytes.len()];
    room.copy_from_slice(bytes);
}

// Makes room for so many pages more, where a memory may have them.
fn make_room(memory: &mut Vec<u8>, pages: u64) -> Result<(), NoMemory>
    ensures same { memory.new.items ≡ memory.old.items }
    ensures len { vec_len memory.new ≡ vec_len memory.old }
    ensures limit { limit_of_memory 1 ≤ MAX_MEMORY_PAGES }
    ensures room { OnOk result (vec_len memory.old + pages * PAGE_SIZE ≤ limit_of_memory 1 * PAGE_SIZE → vec_len memory.old + pages * PAGE_SIZE ≤ vec_capacity memory.new) }
{
    if pages > memory_limit(VERSION) as u64 {
        return Ok(());
    }
    memory.reserve(pages as usize * PAGE_SIZE)?;
    Ok(())
}

/// Adds pages of zeros to a memory of a canister.
pub fn grow_memory(
    sys: &mut SysState,
    memory: &mut Vec<u8>,
    id: &CanisterId,
    mem: Mem,
    pages: u64,
) -> Result<Reply, NoMemory>
    requires { IfSome (canister_in sys.old id.now) (λ c. vec_len memory.old ≡ pages_of mem c * PAGE_SIZE) }
    ensures { Alters (extend_refusal 1 sys.old id.now mem pages) result
        (Changes sys.old sys.new id.now (with_more_pages mem pages) × (memory.new.items ≡ memory.old.items ++ zeros (pages * PAGE_SIZE)))
        ((sys.new ≡ sys.old) × (memory.new.items ≡ memory.old.items)) }
{
    make_room(memory, pages)?;
    let change = sys.extend(id, mem, pages, VERSION);
    if change.is_ok() {
        let size = memory.len() + pages as usize * PAGE_SIZE;
        extend_to(memory, size);
    }
    reply_to(change)
}

// The pages that a write of n bytes at a place adds to a memory of so many bytes.
fn missing_pages(length: usize, at: usize, n: usize) -> u64
    requires { at + n ≤ MAX_MEMORY_PAGES * PAGE_SIZE }
    ensures { result ≡ pages_more (length / PAGE_SIZE) at n }
{
    if n == 0 {
        return 0;
    }
    (at + n)
        .div_ceil(PAGE_SIZE)
        .saturating_sub(length / PAGE_SIZE) as u64
}

// Writes bytes into a memory that has room for them, and grows it to hold them.
fn place_bytes(memory: &mut Vec<u8>, at: usize, bytes: &[u8])
    requires within { at + length bytes.now ≤ MAX_MEMORY_PAGES * PAGE_SIZE }
    requires room { 0 < length bytes.now → pages_for (at + length bytes.now) * PAGE_SIZE ≤ vec_capacity memory.old }
    ensures { memory.new.items ≡ bytes_after_write memory.old.items at bytes.now }
{
    if bytes.is_empty() {
        return;
    }
    let size = (at + bytes.len()).div_ceil(PAGE_SIZE) * PAGE_SIZE;
    extend_to(memory, size);
    write_at(memory, at, bytes);
}

// Writes bytes that end within the greatest memory.
fn write_within(
    sys: &mut SysState,
    memory: &mut Vec<u8>,
    id: &CanisterId,
    mem: Mem,
    at: usize,
    bytes: &[u8],
) -> Result<Reply, NoMemory>
    requires pages { IfSome (canister_in sys.old id.now) (λ c. vec_len memory.old ≡ pages_of mem c * PAGE_SIZE) }
    requires within { at + length bytes.now ≤ MAX_MEMORY_PAGES * PAGE_SIZE }
    ensures { let more = pages_more (vec_len memory.old / PAGE_SIZE) at (length bytes.now) in
        Alters (extend_refusal 1 sys.old id.now mem more) result
        (Changes sys.old sys.new id.now (with_more_pages mem more) × (memory.new.items ≡ bytes_after_write memory.old.items at bytes.now))
        ((sys.new ≡ sys.old) × (memory.new.items ≡ memory.old.items)) }
{
    let pages = missing_pages(memory.len(), at, bytes.len());
    make_room(memory, pages)?;
    let change = sys.extend(id, mem, pages, VERSION);
    if change.is_ok() {
        place_bytes(memory, at, bytes);
    }
    reply_to(change)
}

/// Writes bytes to a memory of a canister, which grows to the page of the last byte.
pub fn write_memory(
    sys: &mut SysState,
    memory: &mut Vec<u8>,
    id: &CanisterId,
    mem: Mem,
    offset: u64,
    bytes: &[u8],
) -> Result<Reply, NoMemory>
    requires { IfSome (canister_in sys.old id.now) (λ c. vec_len memory.old ≡ pages_of mem c * PAGE_SIZE) }
    ensures { let pages = vec_len memory.old / PAGE_SIZE in
        Alters (write_refusal 1 sys.old id.now mem pages offset (length bytes.now)) result
        (Changes sys.old sys.new id.now (with_more_pages mem (pages_more pages offset (length bytes.now))) × (memory.new.items ≡ bytes_after_write memory.old.items offset bytes.now))
        ((sys.new ≡ sys.old) × (memory.new.items ≡ memory.old.items)) }
{
    let limit = (memory_limit(VERSION) * PAGE_SIZE) as u64;
    if offset.saturating_add(bytes.len() as u64) > limit {
        return Ok(Reply::Refused(Refusal::MemoryFull));
    }
    write_within(sys, memory, id, mem, offset as usize, bytes)
}

/// The same bytes again.
pub fn copy_memories(alloc: Global, memories: &[Vec<u8>]) -> Result<Vec<Vec<u8>>, NoMemory>
    ensures { IfOk result (λ copies. map (λ v. v.items) copies.items ≡ map (λ v. v.items) memories.now) }
{
    let mut copies = Vec::with_capacity(alloc, memories.len())?;
    for memory in memories {
        copies.push(Vec::from_slice(alloc, memory)?)?;
    }
    Ok(copies)
}
