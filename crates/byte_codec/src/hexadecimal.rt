//! Bytes as hexadecimal text in lower case.

ghost use Rattle.std.specs.Prelude.{◌≡◌, IfOk};
ghost use Rattle.std.specs.List.{list_all};
ghost use Rattle.hex.specs.Hex.{encode_lower};
ghost use Rattle.byte_codec.specs.Hex.{is_lower_digit, bytes_of_hex, GivesHex, BadIsExact};

use crate::blob::Blob;
use crate::error::{HexError, NoMemory};
use std::alloc::Global;

/// Two lower-case digits for each byte, the high four bits first.
pub fn hex_text(alloc: Global, bytes: &[u8]) -> Result<Blob, NoMemory>
    ensures { IfOk result (λ text. text ≡ encode_lower bytes.now) }
{
    Ok(Blob::from_vec(hex::encode(alloc, bytes)?.into_bytes()))
}

fn is_hex_digit(byte: u8) -> bool
    ensures { result ≡ is_lower_digit byte }
{
    matches!(byte, b'0'..=b'9' | b'a'..=b'f')
}

/// Whether all of these bytes are digits of hexadecimal text in lower case.
pub fn are_hex_digits(text: &[u8]) -> bool
    ensures { result ≡ list_all is_lower_digit text.now }
{
    text.iter().all(|byte| is_hex_digit(*byte))
}

/// The bytes that an even number of lower-case digits spells. Bad exactly where the text isn't that.
pub fn hex_bytes(alloc: Global, text: &[u8]) -> Result<Blob, HexError>
    ensures spelled { IfOk result (λ bytes. text.now ≡ encode_lower bytes) }
    ensures bad { BadIsExact result text.now }
    ensures value { GivesHex result (bytes_of_hex text.now) }
{
    if !are_hex_digits(text) {
        return Err(HexError::Bad);
    }
    Ok(Blob::from_vec(hex::decode(alloc, text)?))
}
