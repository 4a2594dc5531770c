//! Byte strings, and the fields that formats are made of, read and written.
#![tactic(auto)]

mod blob;
mod error;
mod fields;
mod hexadecimal;
mod laws;
mod leb128;
mod reader;
#[cfg(test)]
mod tests;
mod writer;

pub use blob::Blob;
pub use error::{FieldError, HexError, LebError, NoMemory, Short};
pub use fields::{is_same, read_be32, read_be64, read_block, read_count, read_magic};
pub use hexadecimal::{are_hex_digits, hex_bytes, hex_text};
pub use laws::leb_read_has_one_answer;
pub use leb128::{leb_read, leb_write};
pub use reader::Reader;
pub use writer::Writer;
