//! A node of a tree: it has 32 places.

ghost use Rattle.std.specs.Prelude.{◌≡◌, ◌+◌, ◌^◌, ◌<◌, Some};
ghost use Rattle.page_delta.specs.Nodes.{child_in, entry_in, count_in, level_in, recount, with_child, with_entry, empty_node};
ghost use Rattle.page_delta.specs.Shared.{IsNewer};

use crate::children::Children;
use crate::entries::Entries;
use crate::entry::Entry;

/// A branch has nodes at its places, so many levels above the leaves, and a leaf has entries. Both are counted: how
/// often an id or a node names them.
#[derive(Drop)]
pub(crate) enum Node {
    Branch {
        count: usize,
        level: u32,
        children: Children,
    },
    Leaf {
        count: usize,
        entries: Entries,
    },
}

const _: () = prove!(size_of::<Node>() == 400);

impl Node {
    // A node with nothing in it, counted once.
    pub(crate) fn empty(level: u32) -> Node
        ensures { result ≡ empty_node level }
    {
        if level == 0 {
            Node::Leaf {
                count: 1,
                entries: Entries::empty(),
            }
        } else {
            Node::Branch {
                count: 1,
                level,
                children: Children::empty(),
            }
        }
    }

    // A node with the same places, counted once.
    pub(crate) fn copied(&self) -> Node
        ensures { result ≡ recount self.now 1 }
    {
        match self {
            Node::Branch {
                level,
                children,
                ..
            } => Node::Branch {
                count: 1,
                level: *level,
                children: children.copied(),
            },
            Node::Leaf { entries, .. } => Node::Leaf {
                count: 1,
                entries: entries.copied(),
            },
        }
    }

    pub(crate) fn count(&self) -> usize
        ensures { result ≡ count_in (Some self.now) }
    {
        match self {
            Node::Branch { count, .. } => *count,
            Node::Leaf { count, .. } => *count,
        }
    }

    pub(crate) fn set_count(&mut self, now: usize)
        ensures { self.new ≡ recount self.old now }
    {
        match self {
            Node::Branch { count, .. } => *count = now,
            Node::Leaf { count, .. } => *count = now,
        }
    }

    // How many levels the node is above the leaves.
    pub(crate) fn level(&self) -> u32
        ensures { result ≡ level_in (Some self.now) }
    {
        match self {
            Node::Branch { level, .. } => *level,
            Node::Leaf { .. } => 0,
        }
    }

    pub(crate) fn child(&self, digit: u32) -> Option<usize>
        requires { digit < 32 }
        ensures { result ≡ child_in (Some self.now) digit }
    {
        match self {
            Node::Branch { children, .. } => children.at(digit),
            Node::Leaf { .. } => None,
        }
    }

    pub(crate) fn entry(&self, digit: u32) -> Option<Entry>
        requires { digit < 32 }
        ensures { result ≡ entry_in (Some self.now) digit }
    {
        match self {
            Node::Branch { .. } => None,
            Node::Leaf { entries, .. } => entries.at(digit),
        }
    }

    pub(crate) fn set_child(&mut self, digit: u32, child: usize)
        requires digit { digit < 32 }
        requires child { child + 1 < 2 ^ 32 }
        ensures { self.new ≡ with_child self.old digit child }
    {
        match self {
            Node::Branch { children, .. } => children.set(digit, child),
            Node::Leaf { .. } => {}
        }
    }

    pub(crate) fn set_entry(&mut self, digit: u32, entry: Entry)
        requires { digit < 32 }
        ensures { self.new ≡ with_entry self.old digit entry }
    {
        match self {
            Node::Branch { .. } => {}
            Node::Leaf { entries, .. } => entries.set(digit, entry),
        }
    }

    // A leaf with the entries of this one whose stamp is above `b`, counted once, and how many they are.
    pub(crate) fn newer(&self, b: u64) -> (Node, u32)
        ensures { IsNewer b self.now result.0 result.1 32 }
    {
        let mut leaf = Node::empty(0);
        let mut pages = 0;
        for digit in 0..32 {
            if let Some(entry) = self.entry(digit) {
                if entry.stamp > b {
                    leaf.set_entry(digit, entry);
                    pages += 1;
                }
            }
        }
        (leaf, pages)
    }
}
