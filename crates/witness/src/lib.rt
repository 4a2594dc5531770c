//! Witnesses of a state's tree: made, spelled in CBOR and read, looked up and checked against a root.
#![tactic(auto)]

mod checking;
mod error;
mod fields;
mod laws;
mod level;
mod looking;
mod reading;
mod showing;
#[cfg(test)]
mod tests;
mod writing;

pub use checking::{Checked, check};
pub use error::WitnessError;
pub use laws::a_check_has_one_answer;
pub use looking::{Looked, lookup};
pub use reading::from_cbor;
pub use showing::{witness, witness_of_state};
pub use writing::to_cbor;
