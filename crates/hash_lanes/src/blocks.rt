//! Blocks of eight messages, which lie anywhere in one byte string.

ghost use Rattle.std.specs.Prelude.{◌≡◌, ℕ, ◌+◌, ◌*◌, ◌<◌, ◌≤◌, length, slice_index, drop};
ghost use Rattle.sha2.specs.Sha256.{word_at, hash_after};
ghost use Rattle.hash_lanes.specs.Lanes.{lane, window};
ghost use Rattle.hash_lanes.specs.Starts.{AreInside};

use crate::rounds::compress;
use std::simd::u32x8;

#[inline(always)]
fn load_be(bytes: &[u8], starts: &[usize; 8], lane: usize, at: usize) -> u32
    requires lane { lane < 8 }
    requires inside { AreInside starts.now (at + 4) bytes.now }
    ensures { result ≡ word_at bytes.now (slice_index starts.now lane + at) }
{
    let i = starts[lane] + at;
    u32::from_be_bytes([bytes[i], bytes[i + 1], bytes[i + 2], bytes[i + 3]])
}

#[inline(always)]
fn load_word(bytes: &[u8], starts: &[usize; 8], at: usize) -> u32x8
    requires { AreInside starts.now (at + 4) bytes.now }
    ensures { (j : ℕ) → j < 8 → slice_index result j ≡ word_at bytes.now (slice_index starts.now j + at) }
{
    u32x8::from_array([
        load_be(bytes, starts, 0, at),
        load_be(bytes, starts, 1, at),
        load_be(bytes, starts, 2, at),
        load_be(bytes, starts, 3, at),
        load_be(bytes, starts, 4, at),
        load_be(bytes, starts, 5, at),
        load_be(bytes, starts, 6, at),
        load_be(bytes, starts, 7, at),
    ])
}

// The words of the block of each message that begins `at` bytes behind its start.
fn load(bytes: &[u8], starts: &[usize; 8], at: usize) -> [u32x8; 16]
    requires { AreInside starts.now (at + 64) bytes.now }
    ensures { (j k : ℕ) → j < 8 → k < 16
        → slice_index (window j result) k ≡ word_at bytes.now (slice_index starts.now j + (at + 4 * k)) }
{
    let mut words = [u32x8::splat(0); 16];
    'words: for i in 0..16 {
        words[i] = load_word(bytes, starts, at + 4 * i);
    }
    words
}

/// Takes in so many blocks of eight messages, of each those that begin `from` bytes behind its start.
pub(crate) fn absorb(
    state: &mut [u32x8; 8],
    bytes: &[u8],
    starts: &[usize; 8],
    from: usize,
    blocks: usize,
)
    requires { AreInside starts.now (from + 64 * blocks) bytes.now }
    ensures { (j : ℕ) → j < 8
        → lane j state.new ≡ hash_after (lane j state.old) (drop (slice_index starts.now j + from) bytes.now) blocks }
{
    'each: for i in 0..blocks {
        let words = load(bytes, starts, from + 64 * i);
        compress(state, words);
    }
}
