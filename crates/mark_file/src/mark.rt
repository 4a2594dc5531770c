//! What a mark says.

use byte_codec::Blob;
use hash_domain::Hash32;
use std::marker::Model;

/// What a mark says of one memory.
#[derive(Debug, Drop)]
pub struct MarkMem {
    /// The numbers of its page files, oldest first: at most 32, all different, and none where it has no pages.
    pub layers: Vec<u64>,
    /// The hash of each chunk of 1,048,576 bytes. In version 2 None stands for a chunk of zeros, and in version 1 nowhere.
    pub sums: Vec<Option<Hash32>>,
}

// Contracts see the two lists.
impl Model for MarkMem {
    ghost use Rattle.store_spec.specs.Mark.{MarkMemory};

    ghost Value = { MarkMemory };

    ghost view = { λ mem. record { layers = mem.layers.items; sums = mem.sums.items } };
}

/// A published height: its state's system text, what its memories are made of, and the hashes that its root is over.
#[derive(Debug, Drop)]
pub struct Mark {
    /// The height, from 1 to 2^62.
    pub height: u64,
    /// The version of the state, 1 or 2.
    pub version: u32,
    /// The system text.
    pub system: Blob,
    /// The memories, heap and stable memory of each canister in order of ids.
    pub mems: Vec<MarkMem>,
    /// The hash of each chunk of the system text.
    pub system_sums: Vec<Hash32>,
    /// The root hash of the manifest that the sizes and the hashes give.
    pub root: Hash32,
}

// Contracts see the record of its fields, with a list for each vector.
impl Model for Mark {
    ghost use Rattle.store_spec.specs.Mark.{Mark as Fields};

    ghost Value = { Fields };

    ghost view = { λ mark. record { height = mark.height; version = mark.version; system = mark.system; memories = mark.mems.items; system_sums = mark.system_sums.items; root = mark.root } };
}
