//! The versions of a state, and the limits that depend on them.

ghost use Rattle.std.specs.Prelude.{◌≡◌, ◌≤◌};
ghost use Rattle.format_spec.specs.Versions.{
  is_version as is_version_of,
  memory_limit as limit_of_memory,
  state_limit as limit_of_state,
};

use crate::limits::{FIRST_MEMORY_PAGES, FIRST_STATE_PAGES, MAX_MEMORY_PAGES, MAX_STATE_PAGES};

/// Whether a state may have this version: 1 or 2.
pub fn is_version(version: u32) -> bool
    ensures { result ≡ is_version_of version }
{
    version == 1 || version == 2
}

/// Pages that one memory of a state of this version has at most.
#[tactic(auto, unfolding(crate::specs::Versions::memory_limit))]
pub fn memory_limit(version: u32) -> usize
    ensures limit { result ≡ limit_of_memory version }
    ensures most { result ≤ MAX_MEMORY_PAGES }
{
    if version == 1 {
        FIRST_MEMORY_PAGES
    } else {
        MAX_MEMORY_PAGES
    }
}

/// Pages that all memories of a state of this version have at most.
#[tactic(auto, unfolding(crate::specs::Versions::state_limit))]
pub fn state_limit(version: u32) -> usize
    ensures limit { result ≡ limit_of_state version }
    ensures most { result ≤ MAX_STATE_PAGES }
{
    if version == 1 {
        FIRST_STATE_PAGES
    } else {
        MAX_STATE_PAGES
    }
}
