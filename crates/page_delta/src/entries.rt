//! The 32 places of a leaf, in arrays.

ghost use Rattle.std.specs.Prelude.{◌≡◌, ◌<◌, Some, None, replicate, slice_index_or, slice_set};

use crate::entry::Entry;
use page_pool::{NO_SLOT, SlotId};
use std::marker::Model;

// An entry or none at each place.
#[derive(Drop)]
pub(crate) struct Entries {
    stamps: [u64; 32],
    // `NO_SLOT` where there is no entry.
    slots: [u32; 32],
}

impl Model for Entries {
    ghost use Rattle.std.specs.Prelude.{List, Option};
    ghost use Rattle.page_delta.specs.declared.entry.Entry.{Entry as Held};

    ghost Value = { List (Option Held) };

    ghost use Rattle.page_delta.specs.Arrays.{entries_of};

    ghost view = { λ s. entries_of s.slots s.stamps };
}

impl Entries {
    pub(crate) fn empty() -> Entries
        ensures { result ≡ replicate 32 None }
    {
        Entries {
            stamps: [0; 32],
            slots: [NO_SLOT; 32],
        }
    }

    pub(crate) fn copied(&self) -> Entries
        ensures { result ≡ self.now }
    {
        Entries {
            stamps: self.stamps,
            slots: self.slots,
        }
    }

    pub(crate) fn at(&self, digit: u32) -> Option<Entry>
        requires { digit < 32 }
        ensures { result ≡ slice_index_or self.now digit None }
    {
        let place = digit as usize;
        let slot = SlotId::with_number(self.slots[place])?;
        let stamp = self.stamps[place];
        Some(Entry { slot, stamp })
    }

    pub(crate) fn set(&mut self, digit: u32, entry: Entry)
        requires { digit < 32 }
        ensures { self.new ≡ slice_set self.old digit (Some entry) }
    {
        let place = digit as usize;
        self.slots[place] = entry.slot.number();
        self.stamps[place] = entry.stamp;
    }

    // All places as one array.
    pub(crate) fn all(&self) -> [Option<Entry>; 32]
        ensures { result ≡ self.now }
    {
        // So that the places are known to be 32.
        let _slots = &self.slots;
        let mut all = [None; 32];
        for place in 0..32 {
            all[place] = self.at(place as u32);
        }
        all
    }
}
