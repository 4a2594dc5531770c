//! A hash, and the field that it is.

ghost use Rattle.std.specs.Prelude.{◌≡◌, length};
ghost use Rattle.format_spec.specs.Fields.{field, block, any};
ghost use Rattle.byte_codec.specs.Gives.{Gives, NeedsNoMemory};

use byte_codec::{FieldError, Reader, read_block};
use format_spec::HASH_SIZE;
use std::marker::Model;

/// A hash of 32 bytes.
#[derive(Clone, Copy, Debug, PartialEq, Eq)]
pub struct Hash32(pub [u8; 32]);

// Contracts see the list of its bytes.
impl Model for Hash32 {
    ghost use Rattle.std.specs.Prelude.{List, ℕ};

    ghost Value = { List ℕ };

    ghost view = { λ hash. hash.0 };

    ghost inverse = { λ bytes. record { 0 = bytes } };
}

impl Hash32 {
    /// The hash of these 32 bytes.
    pub fn from_slice(bytes: &[u8]) -> Hash32
        requires { length bytes.now ≡ HASH_SIZE }
        ensures { result ≡ bytes.now }
    {
        let mut hash = [0; HASH_SIZE];
        hash.copy_from_slice(bytes);
        Hash32(hash)
    }

    /// The 32 bytes.
    pub fn bytes(&self) -> &[u8]
        ensures value { result.now ≡ self.now }
        ensures size { length result.now ≡ 32 }
    {
        &self.0
    }
}

/// Reads a hash. Bad where fewer than 32 bytes are left.
pub fn read_hash(reader: &mut Reader) -> Result<Hash32, FieldError>
    ensures value { Gives (λ hash. (hash, reader.new)) result (field (block HASH_SIZE) any reader.old) }
    ensures memory { NeedsNoMemory result }
{
    let bytes = read_block(reader, HASH_SIZE)?;
    Ok(Hash32::from_slice(bytes))
}
