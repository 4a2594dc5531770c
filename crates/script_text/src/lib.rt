//! What a script says: its lines, the commands that they spell, and the texts of replies.
#![tactic(auto)]

mod command;
mod ending;
mod forms;
mod laws;
mod numbers;
mod options;
mod parsing;
mod path_list;
mod paths;
mod reply;
mod status;
#[cfg(test)]
mod tests;
mod texts;
mod words;

pub use command::{Command, HeightOrLive};
pub use ending::{RunStop, closing_parts, status_of};
pub use numbers::Numbers;
pub use options::{Options, options_of};
pub use parsing::{Parsed, is_silent, parse, parse_line};
pub use path_list::Paths;
pub use reply::{Refusal, Reply};
pub use status::Status;
pub use texts::{reply_text, write_bad_line, write_reply};
