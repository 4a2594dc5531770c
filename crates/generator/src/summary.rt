//! The summary that stands in place of the replies to a generated script.

ghost use Rattle.std.specs.Prelude.{◌≡◌, ◌++◌, ◌∷◌, [], ◌<◌, ◌^◌, List, length};
ghost use Rattle.hex.specs.Hex.{encode_lower};
ghost use Rattle.sha2.specs.Sha256.{sha256};
ghost use Rattle.format_spec.specs.Bytes.{Bytes};

use hash_domain::Hash32;
use sha2::{Digest, Sha256};

/// What is kept of the replies: two counts, and the state of a hash.
#[derive(Drop)]
pub struct Summary {
    lines: u64,
    refused: u64,
    hasher: Sha256,
}

impl Summary {
    ghost use Rattle.generator.specs.Summary.{HasTaken, count_refused, text_of_replies};

    /// Before the first reply.
    pub fn new() -> Summary
        ensures { HasTaken result [] }
    {
        Summary {
            lines: 0,
            refused: 0,
            hasher: Sha256::new(),
        }
    }

    /// Takes the next reply, without its line feed. It needs no memory.
    pub fn take(&mut self, reply: &[u8])
        ensures { (replies : List Bytes) → HasTaken self.old replies → HasTaken self.new (replies ++ reply.now ∷ []) }
    {
        self.lines = self.lines.saturating_add(1);
        if reply.starts_with(b"refused") {
            self.refused = self.refused.saturating_add(1);
        }
        self.hasher.update(reply);
        self.hasher.update(b"\n");
    }

    /// How many replies there are.
    pub fn lines(&self) -> u64
        ensures { (replies : List Bytes) → HasTaken self.now replies → length replies < 2 ^ 64 → result ≡ length replies }
    {
        self.lines
    }

    /// How many of them begin with `refused`.
    pub fn refused(&self) -> u64
        ensures { (replies : List Bytes) → HasTaken self.now replies → length replies < 2 ^ 64 → result ≡ count_refused replies }
    {
        self.refused
    }

    /// The SHA-256 of all replies, each with its line feed.
    pub fn digest(self) -> Hash32
        ensures { (replies : List Bytes) → HasTaken self replies → result ≡ sha256 (text_of_replies replies) }
    {
        Hash32(self.hasher.finalize())
    }
}

/// A hash in hexadecimal, as the line of the digest has it.
pub fn digits(hash: &Hash32) -> [u8; 64]
    ensures { result ≡ encode_lower hash.now }
{
    let mut digits = [0; 64];
    hex::encode_to_slice(hash.bytes(), &mut digits).unwrap();
    digits
}
