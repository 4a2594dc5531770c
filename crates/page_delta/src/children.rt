//! The 32 places of a branch, in an array.

ghost use Rattle.std.specs.Prelude.{◌≡◌, ◌+◌, ◌^◌, ◌<◌, Some, None, replicate, slice_index_or, slice_set};

use std::marker::Model;

// The key that no node has.
const NO_CHILD: u32 = u32::MAX;

// The key of a node or none at each place.
#[derive(Drop)]
pub(crate) struct Children {
    keys: [u32; 32],
}

impl Model for Children {
    ghost use Rattle.std.specs.Prelude.{ℕ, List, Option};

    ghost Value = { List (Option ℕ) };

    ghost use Rattle.page_delta.specs.Arrays.{children_of};

    ghost view = { λ s. children_of s.keys };
}

impl Children {
    pub(crate) fn empty() -> Children
        ensures { result ≡ replicate 32 None }
    {
        Children {
            keys: [NO_CHILD; 32],
        }
    }

    pub(crate) fn copied(&self) -> Children
        ensures { result ≡ self.now }
    {
        Children { keys: self.keys }
    }

    pub(crate) fn at(&self, digit: u32) -> Option<usize>
        requires { digit < 32 }
        ensures { result ≡ slice_index_or self.now digit None }
    {
        let key = self.keys[digit as usize];
        if key == NO_CHILD {
            return None;
        }
        Some(key as usize)
    }

    pub(crate) fn set(&mut self, digit: u32, child: usize)
        requires digit { digit < 32 }
        requires child { child + 1 < 2 ^ 32 }
        ensures { self.new ≡ slice_set self.old digit (Some child) }
    {
        self.keys[digit as usize] = child as u32;
    }

    // All places as one array.
    pub(crate) fn all(&self) -> [Option<usize>; 32]
        ensures { result ≡ self.now }
    {
        // So that the places are known to be 32.
        let _keys = &self.keys;
        let mut all = [None; 32];
        for place in 0..32 {
            all[place] = self.at(place as u32);
        }
        all
    }
}
