//! Limits of the store.

use format_spec::MAX_CANISTERS;

/// How many page files get a number in one line at most: one for each memory of a state.
pub const MAX_GIVEN: usize = 2 * MAX_CANISTERS;
