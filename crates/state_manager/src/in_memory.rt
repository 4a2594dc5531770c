//! The states in memory.

ghost use Rattle.std.specs.Prelude.{◌≡◌, ◌==◌, not, map, filter, find, IfOk};
ghost use Rattle.std.specs.Option.{option_copied};

use byte_codec::NoMemory;
use live_state::HeightState;
use script_text::Numbers;
use std::alloc::Global;

/// The state at a height.
pub fn find_height(states: &[HeightState], height: u64) -> Option<&HeightState>
    ensures { option_copied result ≡ find (λ state. state.height == height) states.now }
{
    states.iter().find(|state| state.height() == height)
}

/// Keeps the tree of the state at a height, where there is one. NoMemory where memory runs out.
pub fn keep_tree_at(alloc: Global, states: &mut [HeightState], height: u64) -> Result<(), NoMemory>
    ensures { states.new ≡ states.old }
{
    match states.iter().position(|state| state.height() == height) {
        Some(place) => states[place].keep_tree(alloc),
        None => Ok(()),
    }
}

/// Drops the state at a height.
pub fn drop_height(states: &mut Vec<HeightState>, height: u64)
    ensures { states.new.items ≡ filter (λ state. not (state.height == height)) states.old.items }
{
    states.retain(
        |state| -> bool
            ensures { result ≡ not (state.now.height == height) }
        { state.height() != height },
    );
}

/// The heights.
pub fn heights_of(alloc: Global, states: &[HeightState]) -> Result<Numbers, NoMemory>
    ensures { IfOk result (λ heights. heights ≡ map (λ state. state.height) states.now) }
{
    let heights = states.iter().map(|state| state.height()).collect(alloc)?;
    Ok(Numbers::new(heights))
}
