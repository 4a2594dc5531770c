//! What a disk was asked to do, and whether it did it.

use crate::Name;

#[derive(Drop)]
pub enum Act {
    Look,
    Settle,
    Create(Name),
    Append(Name, Vec<u8>),
    Seal(Name),
    Rename(Name, Name),
    Remove(Name),
}

#[derive(Drop)]
pub struct Event {
    pub act: Act,
    pub done: bool,
}
