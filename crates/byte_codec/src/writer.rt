//! A text written field by field.

ghost use Rattle.std.specs.Prelude.{◌≡◌, ◌∷◌, [], IfOk};
ghost use Rattle.format_spec.specs.Bytes.{be16, be32, be64};
ghost use Rattle.byte_codec.specs.Gives.{Writes};

use crate::blob::Blob;
use crate::error::NoMemory;
use byteorder::{BigEndian, ByteOrder};
use std::alloc::Global;
use std::marker::Model;

/// A text that grows at its end. A call that answers NoMemory leaves it as it was.
#[derive(Debug, Drop)]
pub struct Writer {
    bytes: Vec<u8>,
}

// Contracts see the list of the bytes written.
impl Model for Writer {
    ghost use Rattle.std.specs.Prelude.{List, ℕ};

    ghost Value = { List ℕ };

    ghost view = { λ writer. writer.bytes.items };
}

impl Writer {
    /// An empty text.
    pub fn new(alloc: Global) -> Writer
        ensures { result ≡ [] }
    {
        Writer {
            bytes: Vec::new(alloc),
        }
    }

    /// An empty text with room for so many bytes.
    pub fn with_capacity(alloc: Global, capacity: usize) -> Result<Writer, NoMemory>
        ensures { IfOk result (λ writer. writer ≡ []) }
    {
        Ok(Writer {
            bytes: Vec::with_capacity(alloc, capacity)?,
        })
    }

    /// Writes a byte.
    pub fn u8(&mut self, value: u8) -> Result<(), NoMemory>
        ensures { Writes result self.old self.new (value ∷ []) }
    {
        self.bytes.push(value)?;
        Ok(())
    }

    /// Writes a number in two bytes, the high one first.
    pub fn be16(&mut self, value: u16) -> Result<(), NoMemory>
        ensures { Writes result self.old self.new (be16 value) }
    {
        let mut bytes = [0; 2];
        BigEndian::write_u16(&mut bytes, value);
        self.bytes(&bytes)
    }

    /// Writes a number in four bytes, the high one first.
    pub fn be32(&mut self, value: u32) -> Result<(), NoMemory>
        ensures { Writes result self.old self.new (be32 value) }
    {
        let mut bytes = [0; 4];
        BigEndian::write_u32(&mut bytes, value);
        self.bytes(&bytes)
    }

    /// Writes a number in eight bytes, the high one first.
    pub fn be64(&mut self, value: u64) -> Result<(), NoMemory>
        ensures { Writes result self.old self.new (be64 value) }
    {
        let mut bytes = [0; 8];
        BigEndian::write_u64(&mut bytes, value);
        self.bytes(&bytes)
    }

    /// Writes these bytes.
    pub fn bytes(&mut self, value: &[u8]) -> Result<(), NoMemory>
        ensures { Writes result self.old self.new value.now }
    {
        self.bytes.extend_from_slice(value)?;
        Ok(())
    }

    /// The text, which isn't copied.
    pub fn into_blob(self) -> Blob
        ensures { result ≡ self }
    {
        Blob::from_vec(self.bytes)
    }
}
