//! Answers to asks from the published heights of a disk, and peers over disks.
#![tactic(auto)]

mod answers;
mod chunks;
mod error;
mod items;
mod root;
mod roots;
mod server;
#[cfg(test)]
mod tests;

pub use answers::answer_over;
pub use error::ServeError;
pub use roots::RootPeers;
pub use server::Server;
