//! What is so of sums, by the definitions alone.

ghost use Rattle.std.specs.Prelude.{◌≡◌, ℕ, ◌*◌, ◌<◌, ◌≤◌, false, List, length};
ghost use Rattle.format_spec.specs.Bytes.{Bytes, page_at};
ghost use Rattle.format_spec.specs.declared.limits.TheConstants.{PAGE_SIZE};
ghost use Rattle.state_spec.specs.Manifest.{chunk_hashes};
ghost use Rattle.page_spec.specs.Layers.{has_page, stale};
ghost use Rattle.manifest_incr.specs.Tables.{HasRest};

/// Where a memory has grown and, of the pages from before, has changed dirty ones alone, the chunks that are not stale have the sums that they had.
pub fn the_other_sums_are_those_of_the_memory()
    ensures { (version old new : ℕ) (dirty : List ℕ) (before after : Bytes) → length before ≡ old * PAGE_SIZE → length after ≡ new * PAGE_SIZE → old ≤ new
        → ((page : ℕ) → page < old → has_page page dirty ≡ false → page_at after page ≡ page_at before page)
        → HasRest version (stale dirty old new) (chunk_hashes version before) after }
{}
