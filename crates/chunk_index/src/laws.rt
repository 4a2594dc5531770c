//! What is so of every index.

ghost use Rattle.std.specs.Prelude.{◌≡◌, ℕ, List};
ghost use Rattle.format_spec.specs.Bytes.{Bytes};
ghost use Rattle.state_spec.specs.Manifest.{ChunkRow};
ghost use Rattle.chunk_index.specs.Index.{Places, Indexes, place_in};

/// Two indices of the same rows answer the same for each size and hash.
pub fn chunks_have_one_place()
    ensures { (one other : Places) (rows : List ChunkRow) → Indexes one rows → Indexes other rows
        → (size : ℕ) (hash : Bytes) → place_in one size hash ≡ place_in other size hash }
{}
