//! Fields with their rules, each with the place where it is refused.

ghost use Rattle.std.specs.Prelude.{◌≡◌, ◌==◌, ◌≤◌, nat_le, length, IfOk};
ghost use Rattle.std.specs.Int.{w32, w64};
ghost use Rattle.format_spec.specs.Bytes.{same_bytes};
ghost use Rattle.format_spec.specs.Fields.{field, number, block, any, magic};
ghost use Rattle.byte_codec.specs.Gives.{Gives, NeedsNoMemory};

use crate::error::FieldError;
use crate::reader::Reader;

/// Whether two byte strings are equal.
pub fn is_same(a: &[u8], b: &[u8]) -> bool
    ensures { result ≡ same_bytes a.now b.now }
{
    a.cmp(&b).is_eq()
}

/// Reads the name that a format begins with. Bad where another stands there.
pub fn read_magic(reader: &mut Reader, name: &[u8]) -> Result<(), FieldError>
    ensures value { Gives (λ _. (name.now, reader.new)) result (magic name.now reader.old) }
    ensures memory { NeedsNoMemory result }
{
    let at = reader.at();
    match reader.bytes(name.len()) {
        Ok(found) if is_same(name, found) => Ok(()),
        _ => Err(FieldError::Bad(at as u64)),
    }
}

/// Reads a number in four bytes that can only be this one. Bad where it is another or cut.
pub fn read_be32(reader: &mut Reader, wanted: u32) -> Result<(), FieldError>
    ensures value { Gives (λ _. (wanted, reader.new)) result (field (number w32) (λ n. n == wanted) reader.old) }
    ensures memory { NeedsNoMemory result }
{
    let at = reader.at();
    match reader.be32() {
        Ok(number) if number == wanted => Ok(()),
        _ => Err(FieldError::Bad(at as u64)),
    }
}

/// Reads a number in eight bytes that can only be this one. Bad where it is another or cut.
pub fn read_be64(reader: &mut Reader, wanted: u64) -> Result<(), FieldError>
    ensures value { Gives (λ _. (wanted, reader.new)) result (field (number w64) (λ n. n == wanted) reader.old) }
    ensures memory { NeedsNoMemory result }
{
    let at = reader.at();
    match reader.be64() {
        Ok(number) if number == wanted => Ok(()),
        _ => Err(FieldError::Bad(at as u64)),
    }
}

/// Reads a count in four bytes that is at most the limit. Bad where it is above it or cut.
pub fn read_count(reader: &mut Reader, limit: usize) -> Result<u32, FieldError>
    ensures value { Gives (λ n. (n, reader.new)) result (field (number w32) (λ n. nat_le n limit) reader.old) }
    ensures memory { NeedsNoMemory result }
    ensures few { IfOk result (λ n. n ≤ limit) }
{
    let at = reader.at();
    match reader.be32() {
        Ok(count) if count as usize <= limit => Ok(count),
        _ => Err(FieldError::Bad(at as u64)),
    }
}

/// Reads n bytes. Bad where fewer are left.
pub fn read_block<'a>(reader: &mut Reader<'a>, n: usize) -> Result<&'a [u8], FieldError>
    ensures value { Gives (λ bytes. (bytes.now, reader.new)) result (field (block n) any reader.old) }
    ensures memory { NeedsNoMemory result }
    ensures size { IfOk result (λ bytes. length bytes.now ≡ n) }
{
    let at = reader.at();
    match reader.bytes(n) {
        Ok(bytes) => Ok(bytes),
        Err(_) => Err(FieldError::Bad(at as u64)),
    }
}
