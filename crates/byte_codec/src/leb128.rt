//! Unsigned LEB128 numbers: seven bits a byte, the low ones first, and the high bit set in each byte but the last
//! (DWARF 5, section 7.6).

ghost use Rattle.std.specs.Prelude.{◌≡◌, ◌≤◌};
ghost use Rattle.format_spec.specs.Bytes.{leb};
ghost use Rattle.byte_codec.specs.Gives.{Writes};
ghost use Rattle.byte_codec.specs.Leb.{ReadsLeb, FindsLeb};

use crate::error::{LebError, NoMemory};
use crate::reader::Reader;
use crate::writer::Writer;

/// The bytes that the spelling of a number below 2^64 has at most.
const MAX_LENGTH: u8 = 10;

/// Writes the shortest spelling of a number.
#[tactic(auto, unfolding(format_spec::specs::Bytes::leb))]
pub fn leb_write(n: u64, out: &mut Writer) -> Result<(), NoMemory>
    ensures { Writes result out.old out.new (leb n) }
{
    let mut bytes = [0; MAX_LENGTH as usize];
    let mut left = n;
    let mut count = 0;
    while left >= 128 {
        bytes[count] = (left % 128) as u8 + 128;
        left /= 128;
        count += 1;
    }
    bytes[count] = left as u8;
    out.bytes(&bytes[..count + 1])
}

/// Reads a number below 2^64 in its shortest spelling. Short where the input ends inside a spelling, Long where no
/// spelling begins like the input; the reader then stays.
pub fn leb_read(from: &mut Reader) -> Result<u64, LebError>
    ensures { ReadsLeb from.old from.new result }
{
    let (number, length) = leb_front(from.rest(), MAX_LENGTH)?;
    from.skip(length);
    Ok(number)
}

// The number whose spelling stands in front, in at most so many bytes, and the length of the spelling.
fn leb_front(bytes: &[u8], room: u8) -> Result<(u64, usize), LebError>
    requires some { 1 ≤ room }
    requires few { room ≤ 10 }
    ensures { FindsLeb room bytes.now result }
{
    if bytes.is_empty() {
        return Err(LebError::Short);
    }
    let low = bytes[0];
    if low < 128 {
        if room == 1 && low > 1 {
            return Err(LebError::Long);
        }
        return Ok((low.into(), 1));
    }
    if room == 1 {
        return Err(LebError::Long);
    }
    let (high, length) = leb_front(&bytes[1..], room - 1)?;
    if high == 0 {
        return Err(LebError::Long);
    }
    Ok((high * 128 + u64::from(low - 128), length + 1))
}
