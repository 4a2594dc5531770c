//! The program: reads a script, line by line, and writes the reply to each line.
#![tactic(auto)]

mod answering;
mod laws;
mod memory;
mod program;
mod reading;
mod session;

pub use laws::{
    a_script_done_is_answered, an_empty_disk_stands_for_no_heights,
    limits_stop_no_script_within_them,
};
pub use memory::run_in_memory;
pub use program::run;
pub use script_text::Status;

#[cfg(test)]
mod store_tests;
#[cfg(test)]
mod tests;
#[cfg(test)]
mod tree_tests;
