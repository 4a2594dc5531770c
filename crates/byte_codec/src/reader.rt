//! A text read field by field, with the place of the next byte.

ghost use Rattle.std.specs.Prelude.{◌≡◌, ◌≤◌, ◌+◌, length, take, drop, IfOk};
ghost use Rattle.std.specs.Int.{w16, w32, w64};
ghost use Rattle.format_spec.specs.Bytes.{IsBytes};
ghost use Rattle.format_spec.specs.Fields.{Cursor, number, byte, block, string8, string16, string32};
ghost use Rattle.byte_codec.specs.Gives.{GivesForm};

use crate::error::Short;
use std::marker::Model;

/// A reader over a text. A call that answers Short leaves it as it was.
#[derive(Drop)]
pub struct Reader<'a> {
    bytes: &'a [u8],
    at: usize,
}

// Contracts see the offset of the next byte and the bytes from there on.
impl<'a> Model for Reader<'a> {
    ghost use Rattle.std.specs.Prelude.{◌≤◌, length, drop};
    ghost use Rattle.format_spec.specs.Fields.{Cursor};

    ghost Value = { Cursor };

    ghost view = { λ reader. record { at = reader.at; rest = drop reader.at reader.bytes.now } };

    ghost invariant = { λ reader. reader.at ≤ length reader.bytes.now };
}

impl<'a> Reader<'a> {
    /// A reader at the front of these bytes.
    pub fn new(bytes: &'a [u8]) -> Reader<'a>
        ensures { result ≡ record { at = 0; rest = bytes.now } }
    {
        Reader { bytes, at: 0 }
    }

    /// The offset of the next byte.
    pub fn at(&self) -> usize
        ensures { result ≡ self.now.at }
    {
        self.at
    }

    /// How many bytes are left.
    pub fn left(&self) -> usize
        ensures { result ≡ length self.now.rest }
    {
        self.bytes.len() - self.at
    }

    /// The bytes that are left.
    pub fn rest(&self) -> &'a [u8]
        ensures value { result.now ≡ self.now.rest }
        ensures bytes { IsBytes result.now }
    {
        part_of(self.bytes, self.at, self.bytes.len() - self.at)
    }

    /// Leaves out n bytes.
    pub fn skip(&mut self, n: usize)
        requires { n ≤ length self.old.rest }
        ensures { self.new ≡ record { at = self.old.at + n; rest = drop n self.old.rest } }
    {
        self.at += n;
    }

    /// A byte. Short where none is left.
    pub fn u8(&mut self) -> Result<u8, Short>
        ensures { GivesForm (λ x. x) byte self.old self.new result }
    {
        if self.bytes.len() == self.at {
            return Err(Short);
        }
        let byte = self.bytes[self.at];
        self.at += 1;
        Ok(byte)
    }

    /// A number in two bytes, the high one first. Short where fewer are left.
    pub fn be16(&mut self) -> Result<u16, Short>
        ensures { GivesForm (λ x. x) (number w16) self.old self.new result }
    {
        if self.bytes.len() - self.at < 2 {
            return Err(Short);
        }
        let mut number = [0; 2];
        number.copy_from_slice(&self.bytes[self.at..self.at + 2]);
        self.at += 2;
        Ok(u16::from_be_bytes(number))
    }

    /// A number in four bytes, the high one first. Short where fewer are left.
    pub fn be32(&mut self) -> Result<u32, Short>
        ensures { GivesForm (λ x. x) (number w32) self.old self.new result }
    {
        if self.bytes.len() - self.at < 4 {
            return Err(Short);
        }
        let mut number = [0; 4];
        number.copy_from_slice(&self.bytes[self.at..self.at + 4]);
        self.at += 4;
        Ok(u32::from_be_bytes(number))
    }

    /// A number in eight bytes, the high one first. Short where fewer are left.
    pub fn be64(&mut self) -> Result<u64, Short>
        ensures { GivesForm (λ x. x) (number w64) self.old self.new result }
    {
        if self.bytes.len() - self.at < 8 {
            return Err(Short);
        }
        let mut number = [0; 8];
        number.copy_from_slice(&self.bytes[self.at..self.at + 8]);
        self.at += 8;
        Ok(u64::from_be_bytes(number))
    }

    /// The next n bytes. Short where fewer are left.
    pub fn bytes(&mut self, n: usize) -> Result<&'a [u8], Short>
        ensures read { GivesForm (λ x. x.now) (block n) self.old self.new result }
        ensures size { IfOk result (λ x. length x.now ≡ n) }
        ensures bytes { IfOk result (λ x. IsBytes x.now) }
    {
        if self.bytes.len() - self.at < n {
            return Err(Short);
        }
        let block = part_of(self.bytes, self.at, n);
        self.at += n;
        Ok(block)
    }

    /// A string behind its length in one byte, together one field. Short where length or string is cut.
    pub fn string8(&mut self) -> Result<&'a [u8], Short>
        ensures read { GivesForm (λ x. x.now) string8 self.old self.new result }
        ensures bytes { IfOk result (λ x. IsBytes x.now) }
    {
        if self.bytes.len() == self.at {
            return Err(Short);
        }
        let n = self.bytes[self.at] as usize;
        if self.bytes.len() - self.at < 1 + n {
            return Err(Short);
        }
        let string = part_of(self.bytes, self.at + 1, n);
        self.at += 1 + n;
        Ok(string)
    }

    /// A string behind its length in two bytes, together one field. Short where length or string is cut.
    pub fn string16(&mut self) -> Result<&'a [u8], Short>
        ensures read { GivesForm (λ x. x.now) string16 self.old self.new result }
        ensures bytes { IfOk result (λ x. IsBytes x.now) }
    {
        let left = self.bytes.len() - self.at;
        if left < 2 {
            return Err(Short);
        }
        let mut length = [0; 2];
        length.copy_from_slice(&self.bytes[self.at..self.at + 2]);
        let n = u16::from_be_bytes(length) as usize;
        if left - 2 < n {
            return Err(Short);
        }
        let string = part_of(self.bytes, self.at + 2, n);
        self.at += 2 + n;
        Ok(string)
    }

    /// A string behind its length in four bytes, together one field. Short where length or string is cut.
    pub fn string32(&mut self) -> Result<&'a [u8], Short>
        ensures read { GivesForm (λ x. x.now) string32 self.old self.new result }
        ensures bytes { IfOk result (λ x. IsBytes x.now) }
    {
        let left = self.bytes.len() - self.at;
        if left < 4 {
            return Err(Short);
        }
        let mut length = [0; 4];
        length.copy_from_slice(&self.bytes[self.at..self.at + 4]);
        let n = u32::from_be_bytes(length) as usize;
        if left - 4 < n {
            return Err(Short);
        }
        let string = part_of(self.bytes, self.at + 4, n);
        self.at += 4 + n;
        Ok(string)
    }
}

// The n bytes from a place on.
fn part_of(bytes: &[u8], at: usize, n: usize) -> &[u8]
    requires { at + n ≤ length bytes.now }
    ensures value { result.now ≡ take n (drop at bytes.now) }
    ensures bytes { IsBytes result.now }
{
    &bytes[at..at + n]
}
