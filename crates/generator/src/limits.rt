//! The limit of a script.

/// A script has so many blocks at most.
pub const MAX_BLOCKS: u32 = 10_000;
