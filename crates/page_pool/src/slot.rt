//! A slot, which has a page or is free.

ghost use Rattle.std.specs.Prelude.{◌≡◌, Some};
ghost use Rattle.page_pool.specs.Pool.{slot_of};

use format_spec::PageBytes;
use std::marker::Model;

/// The number that no slot has.
pub const NO_SLOT: u32 = u32::MAX;

/// A slot of a pool.
#[derive(Clone, Copy, Debug, PartialEq, Eq, Drop)]
pub struct SlotId(pub(crate) u32);

impl Model for SlotId {
    ghost use Rattle.std.specs.Prelude.{ℕ, ◌^◌, ◌+◌, ◌<◌};

    ghost Value = { ℕ };

    ghost view = { λ s. s.0 };

    ghost inverse = { λ n. record { 0 = n } };

    ghost invariant = { λ s. s.0 + 1 < 2 ^ 32 };
}

impl SlotId {
    /// The number of the slot, which is not `NO_SLOT`.
    pub fn number(self) -> u32
        ensures number { result ≡ self }
        ensures slot { slot_of result ≡ Some self }
    {
        self.0
    }

    /// The slot with this number; None exactly at `NO_SLOT`.
    pub fn with_number(number: u32) -> Option<SlotId>
        ensures { result ≡ slot_of number }
    {
        if number == NO_SLOT {
            return None;
        }
        Some(SlotId(number))
    }
}

#[derive(Drop)]
pub(crate) struct Slot {
    // How often the slot is counted; 0 where it is free.
    pub(crate) count: u32,
    // The free slot after this one, or the number of slots at the end of the chain.
    pub(crate) next: u32,
    pub(crate) bytes: Box<PageBytes>,
}
