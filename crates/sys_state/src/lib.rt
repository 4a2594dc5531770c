//! The canisters and entries of a state: all of it but the bytes of its memories.
#![tactic(auto)]

mod canister_id;
mod error;
mod laws;
mod mem;
mod pages;
mod path;
mod place;
mod reading;
mod record;
mod state;
#[cfg(test)]
mod tests;

pub use canister_id::CanisterId;
pub use error::SysError;
pub use laws::an_id_has_one_place;
pub use mem::Mem;
pub use pages::memory_pages;
pub use path::{Path, is_good_label};
pub use record::CanisterRecord;
pub use state::SysState;
