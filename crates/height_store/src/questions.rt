//! Which heights are published.

ghost use Rattle.std.specs.Prelude.{◌≡◌, ◌==◌, ◌<◌, nat_le, None, is_some, false, IfOk};
ghost use Rattle.std.specs.List.{last_or, AllByRecursion};
ghost use Rattle.std.specs.Option.{option_map_or};
ghost use Rattle.height_store.specs.Store.{height_at, heights_in};

use crate::store::{HeightStore, PublishedHeight};
use byte_codec::NoMemory;
use std::alloc::Global;

impl HeightStore {
    /// Whether a height is published.
    pub fn is_published(&self, height: u64) -> bool
        ensures { result ≡ is_some (height_at self.now.heights height) }
    {
        self.find(height).is_some()
    }

    /// Whether a height isn't above the newest published one.
    pub fn is_low(&self, height: u64) -> bool
        ensures low { result ≡ option_map_or (λ newest. nat_le height newest) (last_or None (heights_in self.now.heights)) false }
        ensures above { result ≡ false → AllByRecursion (λ h. h.mark.height < height) self.now.heights }
    {
        match self.newest() {
            Some(newest) => height <= newest,
            None => false,
        }
    }

    /// Whether a height is the newest published one.
    pub fn is_newest(&self, height: u64) -> bool
        ensures { result ≡ option_map_or (λ newest. newest == height) (last_or None (heights_in self.now.heights)) false }
    {
        match self.newest() {
            Some(newest) => newest == height,
            None => false,
        }
    }

    /// The published heights, ascending. NoMemory where memory runs out.
    pub fn heights(&self, alloc: Global) -> Result<Vec<u64>, NoMemory>
        ensures { IfOk result (λ heights. heights.items ≡ heights_in self.now.heights) }
    {
        heights_of(alloc, &self.heights)
    }
}

fn heights_of(alloc: Global, kept: &[PublishedHeight]) -> Result<Vec<u64>, NoMemory>
    ensures { IfOk result (λ heights. heights.items ≡ heights_in kept.now) }
{
    let mut heights = Vec::with_capacity(alloc, kept.len())?;
    for one in kept {
        heights.push(one.height())?;
    }
    Ok(heights)
}
