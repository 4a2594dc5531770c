//! The limits and the sizes of the formats' parts, for code and for definitions.

/// Bytes in a page of memory.
pub const PAGE_SIZE: usize = 4096;
/// The bytes of a page.
pub type PageBytes = [u8; PAGE_SIZE];

/// Pages in a chunk.
pub const CHUNK_PAGES: usize = 256;
/// Pages that one step of a job writes.
pub const STEP_PAGES: usize = 256;
/// Bytes in a chunk of a logical file.
pub const CHUNK_SIZE: usize = 1_048_576;
/// Bytes in a piece of a manifest.
pub const PIECE_SIZE: usize = 4096;
/// Pieces that a manifest has at most.
pub const MAX_PIECES: usize = 128;
/// Canisters in a state.
pub const MAX_CANISTERS: usize = 1024;
/// Bytes in the id of a canister.
pub const MAX_ID: usize = 29;
/// Pages in one memory of a state of version 1.
pub const FIRST_MEMORY_PAGES: usize = 65_536;
/// Pages in all memories of a state of version 1.
pub const FIRST_STATE_PAGES: usize = 262_144;
/// Pages in one memory, whatever the version.
pub const MAX_MEMORY_PAGES: usize = 131_072;
/// Pages in all memories of a state, whatever the version.
pub const MAX_STATE_PAGES: usize = 524_288;
/// Bytes in a module.
pub const MAX_MODULE: usize = 16_384;
/// Bytes in certified data.
pub const MAX_CERTIFIED: usize = 32;
/// Bytes in a value of an entry.
pub const MAX_VALUE: usize = 1024;
/// Entries of a state.
pub const MAX_ENTRIES: usize = 16_384;
/// Labels in a path.
pub const MAX_LABELS: usize = 8;
/// Bytes in a label of a path.
pub const MAX_LABEL: usize = 64;
/// The greatest height, 2^62.
pub const MAX_HEIGHT: u64 = 4_611_686_018_427_387_904;
/// Heights that are published at one time.
pub const MAX_PUBLISHED: usize = 16;
/// Layers of one memory.
pub const MAX_LAYERS: usize = 32;
/// Bytes that a system text has at least.
pub const MIN_SYSTEM: usize = 24;
/// Bytes that a system text has at most.
pub const MAX_SYSTEM: usize = 67_108_864;
/// Trees within trees in a witness, the outermost counted.
pub const MAX_DEPTH: usize = 256;
/// Bytes in an answer of a peer.
pub const MAX_ANSWER: usize = 1_048_622;
/// Bytes in a hash.
pub const HASH_SIZE: usize = 32;
/// The version of system texts, manifests, meta-manifests and marks.
pub const VERSION: u32 = 1;
/// Bytes of a manifest's text before its first file row: name, version and number of files.
pub const MANIFEST_HEAD: usize = 12;
/// Bytes of a page file's index before its first range.
pub const INDEX_HEAD: usize = 32;
/// Bytes of a range in a page file's index: the first page, the length, and the pages before.
pub const INDEX_RANGE: usize = 12;
/// Bytes of a file's row apart from its name: the name's length, the size and the hash.
pub const FILE_ROW: usize = 41;
/// Bytes of a chunk's row: the file's number, the size, the offset and the hash.
pub const CHUNK_ROW: usize = 48;
/// Bytes of a meta-manifest's text before the first hash: version and number of pieces.
pub const META_HEAD: usize = 8;
/// Bytes of an ask's text.
pub const ASK_SIZE: usize = 45;
/// Heights that are kept in memory at one time.
pub const MAX_HEIGHTS: usize = 16;
/// Peers that a sync asks.
pub const MAX_PEERS: usize = 16;
/// Asks in flight to one peer.
pub const MAX_ASKS: usize = 4;
/// Turns after which an ask is given up.
pub const MAX_TURNS: usize = 64;
/// Strikes after which a peer is asked no more.
pub const MAX_STRIKES: usize = 3;
/// Bytes in a line of a script.
pub const MAX_LINE: usize = 262_144;
/// Lines of a script.
pub const MAX_LINES: usize = 1_000_000;
/// Paths that one line asks a witness for.
pub const MAX_PATHS: usize = 64;
/// Bytes that one line reads.
pub const MAX_READ: usize = 65_536;
