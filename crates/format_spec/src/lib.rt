//! The words that the formats share: limits, numbers as bytes, hashes with their separators, and reading by fields.
#![tactic(auto)]

mod examples;
mod limits;
mod versions;

pub use limits::{
    ASK_SIZE, CHUNK_PAGES, CHUNK_ROW, CHUNK_SIZE, FILE_ROW, FIRST_MEMORY_PAGES, FIRST_STATE_PAGES,
    HASH_SIZE, INDEX_HEAD, INDEX_RANGE, MANIFEST_HEAD, MAX_ANSWER, MAX_ASKS, MAX_CANISTERS,
    MAX_CERTIFIED, MAX_DEPTH, MAX_ENTRIES, MAX_HEIGHT, MAX_HEIGHTS, MAX_ID, MAX_LABEL, MAX_LABELS,
    MAX_LAYERS, MAX_LINE, MAX_LINES, MAX_MEMORY_PAGES, MAX_MODULE, MAX_PATHS, MAX_PEERS,
    MAX_PIECES, MAX_PUBLISHED, MAX_READ, MAX_STATE_PAGES, MAX_STRIKES, MAX_SYSTEM, MAX_TURNS,
    MAX_VALUE, META_HEAD, MIN_SYSTEM, PAGE_SIZE, PIECE_SIZE, PageBytes, STEP_PAGES, VERSION,
};
pub use versions::{is_version, memory_limit, state_limit};
