//! Marks: the file that publishes a checkpoint, written and read.
#![tactic(auto)]

mod decoding;
mod encoding;
mod ending;
mod error;
mod fields;
mod laws;
mod making;
mod mark;
mod memories;
#[cfg(test)]
mod tests;

pub use ending::memory_sums;
pub use error::MarkError;
pub use laws::{decode_has_one_answer, marks_can_be_written};
pub use mark::{Mark, MarkMem};
