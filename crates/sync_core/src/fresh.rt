//! Items that were never asked for, linked in their order.

ghost use Rattle.std.specs.Prelude.{◌≡◌, ◌==◌, ◌∷◌, [], not, filter, find, map, IfOk, IsTrue, option_map};
ghost use Rattle.std.specs.List.{list_any, range_with_len};
ghost use Rattle.sync_plan.specs.Views.{item_of};
ghost use Rattle.sync_spec.specs.Core.{same_item, is_unasked, unasked_item};
ghost use Rattle.sync_core.specs.Linked.{numbers_of, IsThere, IsOneList};

use byte_codec::NoMemory;
use slot_links::Links;
use std::alloc::Global;
use sync_plan::Item;

/// What the items of a list are.
#[derive(Clone, Copy, Debug, PartialEq, Eq)]
pub(crate) enum Kind {
    Pieces,
    Chunks,
}

impl Kind {
    ghost use Rattle.sync_core.specs.Fresh.{item_at, HasNumber};

    // The item of this kind with a number.
    fn item(self, number: u32) -> Item
        ensures { item_of result ≡ item_at self number }
    {
        match self {
            Kind::Pieces => Item::Piece(number),
            Kind::Chunks => Item::Chunk(number),
        }
    }

    // The number of an item of this kind.
    fn number(self, item: Item) -> Option<u32>
        ensures { HasNumber self (item_of item) result }
    {
        match (self, item) {
            (Kind::Pieces, Item::Piece(number)) => Some(number),
            (Kind::Chunks, Item::Chunk(number)) => Some(number),
            _ => None,
        }
    }
}

/// Items that were never asked for, in order: those of list 0, by their numbers.
#[derive(Drop)]
pub(crate) struct Fresh {
    pub(crate) kind: Kind,
    pub(crate) links: Links,
    /// How many numbers there are.
    pub(crate) count: u32,
    /// How many items are in the list.
    pub(crate) left: u32,
    ghost sound: { IsOneList links count left },
}

// Each number is in list 0, in order.
fn all_linked(alloc: Global, count: u32) -> Result<Links, NoMemory>
    ensures { IfOk result (λ links. links ≡ record { items = count; members = range_with_len 0 count ∷ [] }) }
{
    let mut links = Links::new(alloc, count, 1)?;
    for number in 0..count {
        links.push_back(0, number);
    }
    Ok(links)
}

impl Fresh {
    ghost use Rattle.sync_core.specs.Fresh.{items_of};

    /// So many items of a kind.
    pub(crate) fn all(alloc: Global, kind: Kind, count: u32) -> Result<Fresh, NoMemory>
        ensures numbers { IfOk result (λ fresh. numbers_of fresh.links ≡ range_with_len 0 count) }
        ensures kind { IfOk result (λ fresh. fresh.kind ≡ kind) }
    {
        Ok(Fresh {
            kind,
            links: all_linked(alloc, count)?,
            count,
            left: count,
        })
    }

    /// So many items of a kind, but for those with these numbers.
    pub(crate) fn all_but(
        alloc: Global,
        kind: Kind,
        count: u32,
        had: &[u32],
    ) -> Result<Fresh, NoMemory>
        ensures numbers { IfOk result (λ fresh. numbers_of fresh.links ≡ filter (λ i. not (list_any (λ j. j == i) had.now)) (range_with_len 0 count)) }
        ensures kind { IfOk result (λ fresh. fresh.kind ≡ kind) }
    {
        let mut fresh = Fresh::all(alloc, kind, count)?;
        for number in had {
            fresh.remove_number(*number);
        }
        Ok(fresh)
    }

    // Whether the item with this number is there.
    fn has_number(&self, number: u32) -> bool
        ensures has { result ≡ list_any (λ j. j == number) (numbers_of self.now.links) }
        ensures there { IsTrue result → IsThere self.now.links number }
    {
        if number >= self.count {
            return false;
        }
        match self.links.list_of(number) {
            Some(_) => true,
            None => false,
        }
    }

    // The item with this number is no longer there. Answers whether it was.
    fn remove_number(&mut self, number: u32) -> bool
        ensures was { result ≡ list_any (λ j. j == number) (numbers_of self.old.links) }
        ensures numbers { numbers_of self.new.links ≡ filter (λ j. not (j == number)) (numbers_of self.old.links) }
        ensures kind { self.new.kind ≡ self.old.kind }
    {
        if self.has_number(number) {
            self.links.unlink(number);
            self.left -= 1;
            return true;
        }
        false
    }

    /// Whether the item is there.
    pub(crate) fn has(&self, item: Item) -> bool
        ensures { result ≡ list_any (λ i. same_item i (item_of item)) (items_of self.now) }
    {
        match self.kind.number(item) {
            Some(number) => self.has_number(number),
            None => false,
        }
    }

    /// The item is no longer there. Answers whether it was.
    pub(crate) fn remove(&mut self, item: Item) -> bool
        ensures was { result ≡ list_any (λ i. same_item i (item_of item)) (items_of self.old) }
        ensures items { items_of self.new ≡ filter (λ i. not (same_item i (item_of item))) (items_of self.old) }
    {
        match self.kind.number(item) {
            Some(number) => self.remove_number(number),
            None => false,
        }
    }

    /// The first item.
    pub(crate) fn first(&self) -> Option<Item>
        ensures { option_map (λ i. unasked_item (item_of i)) result ≡ find is_unasked (map unasked_item (items_of self.now)) }
    {
        match self.links.first(0) {
            Some(number) => Some(self.kind.item(number)),
            None => None,
        }
    }
}
