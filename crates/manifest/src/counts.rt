//! What the manifest of a state counts, by sizes alone.

ghost use Rattle.std.specs.Prelude.{◌≡◌, ◌≤◌, ◌<◌, ◌+◌, ◌*◌, length};
ghost use Rattle.format_spec.specs.Bytes.{part_count};
ghost use Rattle.state_spec.specs.State.{State, memory_bytes};
ghost use Rattle.state_spec.specs.SystemText.{system_text};
ghost use Rattle.state_spec.specs.Files.{memories_in};
ghost use Rattle.state_spec.specs.Manifest.{manifest_of};
ghost use Rattle.sys_state.specs.System.{IsWithinLimits, part_of, kept_of};
ghost use Rattle.manifest.specs.Fits.{FitMemories};
ghost use Rattle.manifest.specs.Counts.{counts_by, counts_in, sized_counts, rows_size, chunks_in};

use crate::adding::size_of_pages;
use crate::names::{BOTH_NAMES, SYSTEM};
use format_spec::{CHUNK_ROW, CHUNK_SIZE, FILE_ROW, MANIFEST_HEAD, PIECE_SIZE};
use sys_state::SysState;

/// What a manifest counts.
#[derive(Clone, Copy, Debug, PartialEq, Eq)]
pub struct Counts {
    /// Its file rows.
    pub files: u32,
    /// Its chunk rows.
    pub chunks: u32,
    /// The pieces of its text.
    pub pieces: u32,
    /// The bytes of its text.
    pub bytes: u64,
}

// How many memories there are, the bytes of their rows, and their chunks.
#[derive(Clone, Copy)]
struct Sizes {
    memories: u64,
    rows: u64,
    chunks: u64,
}

/// What the manifest of a state with this system text counts. It takes no memory and hashes nothing: in version 1 the
/// sizes say how many chunk rows there are. In a version that has no row for a chunk of zeros the memories' bytes must
/// be looked at here.
pub fn count(system: &[u8], sys: &SysState) -> Counts
    requires { system.now ≡ system_text (part_of sys.now) }
    ensures sizes { result ≡ counts_by (part_of sys.now) }
    ensures state { (s : State) → s.version ≡ 1 → kept_of s ≡ sys.now → FitMemories (part_of sys.now) (memory_bytes s) → result ≡ counts_in (manifest_of s) }
{
    let sizes = memory_sizes(sys);
    let more = chunk_count(system.len() as u64);
    counts_of(&sizes, more)
}

// The counts, where the system text has so many chunks more.
fn counts_of(sizes: &Sizes, more: u64) -> Counts
    requires memories { sizes.now.memories ≤ 2048 }
    requires rows { sizes.now.rows ≤ 233472 }
    requires chunks { sizes.now.chunks ≤ 1048576 }
    requires more { more ≤ 64 }
    ensures { result ≡ sized_counts sizes.now.memories sizes.now.rows (sizes.now.chunks + more) }
{
    let chunks = sizes.chunks + more;
    let rows = sizes.rows + (FILE_ROW + SYSTEM.len()) as u64;
    let bytes = (MANIFEST_HEAD + 4) as u64 + rows + CHUNK_ROW as u64 * chunks;
    Counts {
        files: (sizes.memories + 1) as u32,
        chunks: chunks as u32,
        pieces: bytes.div_ceil(PIECE_SIZE as u64) as u32,
        bytes,
    }
}

fn memory_sizes(sys: &SysState) -> Sizes
    ensures memories { result.memories ≡ length (memories_in (part_of sys.now)) }
    ensures rows { result.rows ≡ rows_size (memories_in (part_of sys.now)) }
    ensures chunks { result.chunks ≡ chunks_in (memories_in (part_of sys.now)) }
    ensures kept { IsWithinLimits sys.now }
{
    let mut memories = 0;
    let mut rows = 0;
    let mut chunks = 0;
    for i in 0..sys.canisters() {
        let Some((id, canister)) = sys.canister_at(i) else {
            unreachable!();
        };
        memories += 2;
        rows += (2 * FILE_ROW + BOTH_NAMES + 4 * id.bytes().len()) as u64;
        let heap = chunk_count(size_of_pages(canister.heap));
        let stable = chunk_count(size_of_pages(canister.stable));
        chunks += heap + stable;
    }
    Sizes {
        memories,
        rows,
        chunks,
    }
}

fn chunk_count(size: u64) -> u64
    ensures value { result ≡ part_count CHUNK_SIZE size }
    ensures few { result * CHUNK_SIZE < size + CHUNK_SIZE }
{
    size.div_ceil(CHUNK_SIZE as u64)
}
