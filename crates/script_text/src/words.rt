//! The words of a line, read.

ghost use Rattle.std.specs.Prelude.{◌≡◌, ◌≤◌, IfOk, IfSome, length, map};
ghost use Rattle.std.specs.List.{list_all};
ghost use Rattle.format_spec.specs.declared.limits.TheConstants.{MAX_MODULE};
ghost use Rattle.script_text.specs.Script.{words};
ghost use Rattle.script_text.specs.Words.{is_digit, is_number, number_of, number_up_to, hex_of, hex_up_to, id_of, hash_of, mem_of};
ghost use Rattle.script_text.specs.Words.{module_of, height_of, height_or_live};

use crate::command::HeightOrLive;
use byte_codec::{Blob, HexError, NoMemory, are_hex_digits, hex_bytes};
use format_spec::{HASH_SIZE, MAX_HEIGHT, MAX_ID, MAX_MODULE};
use hash_domain::Hash32;
use std::alloc::Global;
use sys_state::{CanisterId, Mem};

/// The words of a line: one space stands between two.
pub fn words_of(alloc: Global, line: &[u8]) -> Result<Vec<&[u8]>, NoMemory>
    ensures { IfOk result (λ found. map (λ word. word.now) found.items ≡ words line.now) }
{
    Ok(line.split(|byte| *byte == b' ').collect(alloc)?)
}

fn are_digits(word: &[u8]) -> bool
    ensures { result ≡ list_all is_digit word.now }
{
    word.iter().all(|byte| matches!(*byte, b'0'..=b'9'))
}

// Whether a word is decimal digits without a leading zero, or `0`.
fn is_numeral(word: &[u8]) -> bool
    ensures { result ≡ is_number word.now }
{
    match word {
        [] => false,
        [first, rest @ ..] => are_digits(word) && (*first != b'0' || rest.is_empty()),
    }
}

/// A number below 2^64.
pub fn read_number(word: &[u8]) -> Option<u64>
    ensures { result ≡ number_of word.now }
{
    if !is_numeral(word) {
        return None;
    }
    let text = std::str::from_utf8(word).ok()?;
    text.parse::<u64>().ok()
}

/// Bytes in hexadecimal, or `-` for none.
pub fn read_hex(alloc: Global, word: &[u8]) -> Result<Option<Blob>, NoMemory>
    ensures { IfOk result (λ bytes. bytes ≡ hex_of word.now) }
{
    if word.is_empty() {
        return Ok(None);
    }
    if word == b"-".as_slice() {
        return Ok(Some(Blob::from_slice(alloc, &[])?));
    }
    match hex_bytes(alloc, word) {
        Ok(bytes) => Ok(Some(bytes)),
        Err(HexError::Bad) => Ok(None),
        Err(HexError::Memory) => Err(NoMemory),
    }
}

/// The id of a canister, in hexadecimal.
pub fn read_id(word: &[u8]) -> Option<CanisterId>
    ensures { result ≡ id_of word.now }
{
    if !are_hex_digits(word) {
        return None;
    }
    let count = word.len() / 2;
    if count > MAX_ID {
        return None;
    }
    let mut bytes = [0; MAX_ID];
    let room = &mut bytes[..count];
    hex::decode_to_slice(word, room).ok()?;
    CanisterId::new(room)
}

/// A hash, in hexadecimal.
pub fn read_hash(word: &[u8]) -> Option<Hash32>
    ensures { result ≡ hash_of word.now }
{
    if !are_hex_digits(word) {
        return None;
    }
    let mut bytes = [0; HASH_SIZE];
    hex::decode_to_slice(word, &mut bytes).ok()?;
    Some(Hash32(bytes))
}

/// The name of a memory.
pub fn read_mem(word: &[u8]) -> Option<Mem>
    ensures { result ≡ mem_of word.now }
{
    if word == b"heap".as_slice() {
        return Some(Mem::Heap);
    }
    if word == b"stable".as_slice() {
        return Some(Mem::Stable);
    }
    None
}

/// A height, 1 to 2^62.
pub fn read_height(word: &[u8]) -> Option<u64>
    ensures { result ≡ height_of word.now }
{
    let height = read_number(word)?;
    if 1 <= height && height <= MAX_HEIGHT {
        Some(height)
    } else {
        None
    }
}

/// A height or `live`.
pub fn read_at(word: &[u8]) -> Option<HeightOrLive>
    ensures { result ≡ height_or_live word.now }
{
    if word == b"live".as_slice() {
        return Some(HeightOrLive::Live);
    }
    let height = read_height(word)?;
    Some(HeightOrLive::Height(height))
}

/// A number that is at most this.
pub fn read_number_up_to(most: u64, word: &[u8]) -> Option<u64>
    ensures number { result ≡ number_up_to most word.now }
    ensures within { IfSome result (λ number. number ≤ most) }
{
    let number = read_number(word)?;
    if number <= most { Some(number) } else { None }
}

/// At most so many bytes in hexadecimal, or `-` for none.
pub fn read_hex_up_to(alloc: Global, most: usize, word: &[u8]) -> Result<Option<Blob>, NoMemory>
    ensures bytes { IfOk result (λ found. found ≡ hex_up_to most word.now) }
    ensures within { IfOk result (λ found. IfSome found (λ bytes. length bytes ≤ most)) }
{
    let Some(bytes) = read_hex(alloc, word)? else {
        return Ok(None);
    };
    if bytes.bytes().len() > most {
        return Ok(None);
    }
    Ok(Some(bytes))
}

/// A module in hexadecimal, or `none`.
pub fn read_module(alloc: Global, word: &[u8]) -> Result<Option<Option<Blob>>, NoMemory>
    ensures module { IfOk result (λ found. found ≡ module_of word.now) }
    ensures within { IfOk result (λ found. IfSome found (λ known. IfSome known (λ wasm. length wasm ≤ MAX_MODULE))) }
{
    if word == b"none".as_slice() {
        return Ok(Some(None));
    }
    let Some(bytes) = read_hex_up_to(alloc, MAX_MODULE, word)? else {
        return Ok(None);
    };
    Ok(Some(Some(bytes)))
}
