//! The first and the last blocks of a chunk's message, which are made apart: the name stands before the chunk, the padding
//! behind it (FIPS 180-4, section 5.1.1).

ghost use Rattle.std.specs.Prelude.{◌≡◌, ℕ, ◌+◌, ◌*◌, ◌%◌, ◌<◌, ◌≤◌, ◌++◌, length, take, drop};
ghost use Rattle.sha2.specs.Sha256.{padding};
ghost use Rattle.format_spec.specs.Hashes.{chunk_string};
ghost use Rattle.hash_lanes.specs.Messages.{last_count};

/// The name before the bytes of a chunk, behind its length.
pub const CHUNK_NAME: &[u8] = b"\x0eic-state-chunk";

/// Bytes of the name before a chunk, with its length.
pub(crate) const NAME_SIZE: usize = 15;
/// Bytes of a chunk in the first block of its message, behind the name.
pub(crate) const FRONT: usize = 49;

// What the padding begins with: a bit 1, then zeros.
const PADDING: [u8; 64] = [
    0x80, 0, 0, 0, 0, 0, 0, 0, 0, 0, 0, 0, 0, 0, 0, 0, 0, 0, 0, 0, 0, 0, 0, 0, 0, 0, 0, 0, 0, 0, 0,
    0, 0, 0, 0, 0, 0, 0, 0, 0, 0, 0, 0, 0, 0, 0, 0, 0, 0, 0, 0, 0, 0, 0, 0, 0, 0, 0, 0, 0, 0, 0, 0,
    0,
];

/// The first block of the message of the chunk that begins here.
pub(crate) fn first_block(bytes: &[u8], start: usize) -> [u8; 64]
    requires { start + FRONT ≤ length bytes.now }
    ensures { result ≡ chunk_string (take FRONT (drop start bytes.now)) }
{
    let mut block = [0; 64];
    block[..NAME_SIZE].copy_from_slice(CHUNK_NAME);
    block[NAME_SIZE..].copy_from_slice(&bytes[start..start + FRONT]);
    block
}

/// The blocks that these last bytes of a message fill with the padding: one or two.
pub(crate) fn last_count(left: usize) -> usize
    requires { left < 64 }
    ensures { result ≡ last_count left }
{
    (left + 72) / 64
}

/// The last blocks of a message of `size` bytes, of which these are left.
pub(crate) fn last_blocks(left: &[u8], size: usize) -> [u8; 128]
    requires { length left.now ≡ size % 64 }
    ensures { take (64 * last_count (length left.now)) result ≡ left.now ++ padding size }
{
    let used = left.len();
    let end = 64 * last_count(used) - 8;
    let mut blocks = [0; 128];
    blocks[..used].copy_from_slice(left);
    blocks[used..end].copy_from_slice(&PADDING[..end - used]);
    blocks[end..end + 8].copy_from_slice(&(size as u64).wrapping_mul(8).to_be_bytes());
    blocks
}
