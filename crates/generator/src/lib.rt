//! The generated script, line by line, and the summary of its replies.
#![tactic(auto)]

mod draws;
mod examples;
mod generator;
mod laws;
mod limits;
mod place;
mod summary;
#[cfg(test)]
mod tests;
mod texts;

pub use examples::{first_draws, first_lines, lines_of_fourth_blocks};
pub use generator::{Generator, count};
pub use laws::a_summary_is_its_pieces;
pub use limits::MAX_BLOCKS;
pub use summary::{Summary, digits};
