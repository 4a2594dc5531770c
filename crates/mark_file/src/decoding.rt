//! Marks read from their bytes, in one pass.

ghost use Rattle.std.specs.Prelude.{◌≤◌, IfOk};
ghost use Rattle.format_spec.specs.declared.limits.TheConstants.{MAX_HEIGHT as max_height};
ghost use Rattle.mark_file.specs.Fits.{FitsText};
ghost use Rattle.mark_file.specs.Spells.{Spells, SpellsBoth, Decodes, DecodesBoth, Reads, SpellsBody, IsBothBody};

use crate::ending::{ending, root_hash};
use crate::error::{MarkError, Stop};
use crate::fields::{hashed_body, read_head, read_parts};
use crate::mark::Mark;
use crate::memories::read_mems;
use byte_codec::{Blob, Reader, is_same};
use format_spec::MAX_HEIGHT;
use hash_domain::chunk_hashes;
use std::alloc::Global;
use sys_state::{SysState, memory_pages};

impl Mark {
    /// The mark of this height that the bytes spell. Memory is taken for what was read, and not for what a count says.
    ///
    /// BadMark of this height exactly where they spell none: a field is cut or breaks its rule, the version isn't 1 or 2, the
    /// height in them is another one or isn't from 1 to 2^62, the system text spells no state, a hash or the root isn't the
    /// true one, or bytes follow. Memory where memory runs out.
    pub fn decode(alloc: Global, height: u64, bytes: &[u8]) -> Result<Mark, MarkError>
        ensures exact { Decodes height bytes.now result }
        ensures fits { IfOk result FitsText }
    {
        match Mark::decode_both(alloc, height, bytes) {
            Ok((mark, _sys)) => Ok(mark),
            Err(error) => Err(error),
        }
    }

    /// The same mark, and the parts of a state that its system text spells, each canister being born at this height.
    pub fn decode_both(
        alloc: Global,
        height: u64,
        bytes: &[u8],
    ) -> Result<(Mark, SysState), MarkError>
        ensures exact { DecodesBoth height bytes.now result }
        ensures fits { IfOk result (λ both. FitsText both.0) }
    {
        match read_mark(alloc, height, bytes) {
            Ok(both) => Ok(both),
            Err(Stop::Broken) => Err(MarkError::BadMark(height)),
            Err(Stop::Memory) => Err(MarkError::Memory),
        }
    }
}

fn read_mark(alloc: Global, height: u64, bytes: &[u8]) -> Result<(Mark, SysState), Stop>
    ensures { Reads (SpellsBoth height bytes.now) (Spells height bytes.now) result }
{
    if height == 0 || height > MAX_HEIGHT {
        return Err(Stop::Broken);
    }
    let body = hashed_body(bytes)?;
    read_body(alloc, height, body)
}

// All but the hash over it.
fn read_body(alloc: Global, height: u64, body: &[u8]) -> Result<(Mark, SysState), Stop>
    requires from_one { 1 ≤ height }
    requires at_most { height ≤ max_height }
    ensures { Reads (IsBothBody height body.now) (SpellsBody height body.now) result }
{
    let mut reader = Reader::new(body);
    let head = read_head(&mut reader, height)?;
    let (version, system) = head;
    let sys = read_parts(alloc, system, height, version)?;
    let pages = memory_pages(alloc, &sys)?;
    let mems = read_mems(alloc, &mut reader, &pages, version)?;
    let system_sums = chunk_hashes(alloc, system)?;
    let root = root_hash(alloc, system, &sys, &mems, version)?;
    let end = ending(alloc, &system_sums, &root)?;
    if !is_same(reader.rest(), &end) {
        return Err(Stop::Broken);
    }
    Ok((
        Mark {
            height,
            version,
            system: Blob::from_slice(alloc, system)?,
            mems,
            system_sums,
            root,
        },
        sys,
    ))
}
