//! The lists, each a ring of nodes.

ghost use Rattle.std.specs.Prelude.{◌≡◌, ℕ, ◌+◌, ◌<◌, ◌++◌, List, [], ◌∷◌, length, slice_index, slice_index_or, slice_set, vec_len, replicate, EachIndex, OnOk, IfOk, Option, Some, None, MatchOption, IfSome, IfNone};
ghost use Rattle.slot_links.specs.Lists.{Lists, members_of, Has, AreDistinct, first_of_list, successor, IsIn, IsLinked, IsUnlinked, with_members, lists_without};

use byte_codec::NoMemory;
use std::alloc::Global;
use std::marker::Model;

/// Lists of items by number. Each item is in one list at most.
#[derive(Drop)]
pub struct Links {
    // The node after each node. The nodes are the items, and then one for each list.
    next: Vec<u32>,
    // The node before each node.
    previous: Vec<u32>,
    // The list of each node.
    owner: Vec<Option<u32>>,
    items: u32,
    lists: u32,
}

impl Model for Links {
    ghost use Rattle.slot_links.specs.Lists.{Lists};

    ghost Value = { Lists };

    ghost use Rattle.slot_links.specs.Rings.{Fields, tabulate, row_at, IsSound};

    ghost view = { λ s. record {
      items = s.items;
      members = tabulate s.lists (row_at s.next.items s.items);
    } };

    ghost invariant = { λ s. IsSound record {
      next = s.next.items;
      previous = s.previous.items;
      owner = s.owner.items;
      items = s.items;
      lists = s.lists;
    } };
}

impl Links {
    /// Lists with nothing in them, and so many items. All the memory is taken here.
    pub fn new(alloc: Global, items: u32, lists: u32) -> Result<Links, NoMemory>
        ensures { IfOk result (λ links. links ≡ record { items = items; members = replicate lists [] }) }
    {
        let Some(nodes) = items.checked_add(lists) else {
            return Err(NoMemory);
        };
        let next = own_numbers(alloc, nodes)?;
        let previous = own_numbers(alloc, nodes)?;
        let owner = first_owners(alloc, items, lists)?;
        Ok(Links {
            next,
            previous,
            owner,
            items,
            lists,
        })
    }

    /// The first item of a list.
    pub fn first(&self, list: u32) -> Option<u32>
        requires { list < length self.now.members }
        ensures first { result ≡ first_of_list (members_of self.now list) }
        ensures distinct { AreDistinct self.now }
    {
        let node = self.next[(self.items + list) as usize];
        if node < self.items { Some(node) } else { None }
    }

    /// The item that follows this one in its list.
    pub fn next(&self, item: u32) -> Option<u32>
        requires { item < self.now.items }
        ensures linked { (list : ℕ) → IsIn self.now list item → result ≡ successor item (members_of self.now list) }
        ensures unlinked { IsUnlinked self.now item → result ≡ None }
        ensures distinct { AreDistinct self.now }
    {
        let node = self.next[item as usize];
        if node < self.items && node != item {
            Some(node)
        } else {
            None
        }
    }

    /// The list that has this item.
    pub fn list_of(&self, item: u32) -> Option<u32>
        requires { item < self.now.items }
        ensures linked { (list : ℕ) → IsIn self.now list item → result ≡ Some list }
        ensures unlinked { IsUnlinked self.now item → result ≡ None }
        ensures cases { MatchOption result (IsUnlinked self.now item) (λ list. IsIn self.now list item) }
        ensures distinct { AreDistinct self.now }
    {
        self.owner[item as usize]
    }

    /// Puts an item that is in no list at the end of one.
    pub fn push_back(&mut self, list: u32, item: u32)
        requires list { list < length self.old.members }
        requires item { item < self.old.items }
        requires unlinked { IsUnlinked self.old item }
        ensures { self.new ≡ with_members self.old list (members_of self.old list ++ item ∷ []) }
    {
        let end = self.items + list;
        let before = self.previous[end as usize];
        self.next[before as usize] = item;
        self.next[item as usize] = end;
        self.previous[end as usize] = item;
        self.previous[item as usize] = before;
        self.owner[item as usize] = Some(list);
    }

    /// Puts an item that is in no list at the front of one.
    pub fn push_front(&mut self, list: u32, item: u32)
        requires list { list < length self.old.members }
        requires item { item < self.old.items }
        requires unlinked { IsUnlinked self.old item }
        ensures { self.new ≡ with_members self.old list (item ∷ members_of self.old list) }
    {
        let begin = self.items + list;
        let after = self.next[begin as usize];
        self.next[begin as usize] = item;
        self.next[item as usize] = after;
        self.previous[after as usize] = item;
        self.previous[item as usize] = begin;
        self.owner[item as usize] = Some(list);
    }

    /// Takes an item out of its list.
    pub fn unlink(&mut self, item: u32)
        requires item { item < self.old.items }
        requires linked { IsLinked self.old item }
        ensures { self.new ≡ lists_without self.old item }
    {
        let before = self.previous[item as usize];
        let after = self.next[item as usize];
        self.next[before as usize] = after;
        self.previous[after as usize] = before;
        self.next[item as usize] = item;
        self.previous[item as usize] = item;
        self.owner[item as usize] = None;
    }

    /// Takes an item out of its list, and puts it at the end of one.
    pub fn move_to(&mut self, list: u32, item: u32)
        requires list { list < length self.old.members }
        requires item { item < self.old.items }
        requires linked { IsLinked self.old item }
        ensures { self.new ≡ with_members (lists_without self.old item) list (members_of (lists_without self.old item) list ++ item ∷ []) }
    {
        self.unlink(item);
        self.push_back(list, item);
    }
}

// The numbers from 0 on.
fn own_numbers(alloc: Global, count: u32) -> Result<Vec<u32>, NoMemory>
    ensures len { IfOk result (λ numbers. vec_len numbers ≡ count) }
    ensures numbers { IfOk result (λ numbers. (n : ℕ) → n < count → slice_index numbers.items n ≡ n) }
{
    let mut numbers = Vec::new(alloc);
    for node in 0..count {
        numbers.push(node)?;
    }
    Ok(numbers)
}

// Items that belong to no list, and then a node for each list.
fn first_owners(alloc: Global, items: u32, lists: u32) -> Result<Vec<Option<u32>>, NoMemory>
    ensures len { IfOk result (λ owners. vec_len owners ≡ items + lists) }
    ensures items { IfOk result (λ owners. (n : ℕ) → n < items → slice_index_or owners.items n None ≡ None) }
    ensures lists { IfOk result (λ owners. (k : ℕ) → k < lists → slice_index_or owners.items (items + k) None ≡ Some k) }
{
    let mut owners = Vec::new(alloc);
    for _item in 0..items {
        owners.push(None)?;
    }
    for list in 0..lists {
        owners.push(Some(list))?;
    }
    Ok(owners)
}
