//! Laws of the definitions.

ghost use Rattle.std.specs.Prelude.{◌≡◌, ◌≤◌, ℕ, List, length, map, Some};
ghost use Rattle.std.specs.List.{AllZip};
ghost use Rattle.format_spec.specs.Bytes.{Bytes, parts};
ghost use Rattle.format_spec.specs.Hashes.{chunk_hash};
ghost use Rattle.format_spec.specs.declared.limits.TheConstants.{CHUNK_SIZE};
ghost use Rattle.state_spec.specs.State.{SystemPart};
ghost use Rattle.disk_model.specs.Files.{Files};
ghost use Rattle.store_spec.specs.declared.limits.TheConstants.{MAX_MARK};
ghost use Rattle.store_spec.specs.Mark.{Mark, MarkMemory, IsMark, IsMarkText, mark_text, mark_length, memory_counts, hash_count};
ghost use Rattle.store_spec.specs.Image.{Published, SamePublished, GivesHeight, OpensAt, StandsFor, HasTrueSums, TellsChunk};
ghost use Rattle.store_spec.specs.Whole.{whole_counts};

/// A text is at most one mark, of one height and of one state's parts.
pub fn marks_one_way()
    ensures { (h k : ℕ) (text : Bytes) (m n : Mark) (s t : SystemPart) → IsMarkText h text m s → IsMarkText k text n t
        → (m ≡ n) × (s ≡ t) }
{}

/// The length of a mark follows from its version, sizes and counts, and there is a bound on it.
pub fn lengths_of_marks()
    ensures length { (m : Mark) (s : SystemPart) → IsMark m s
        → length (mark_text m) ≡ mark_length m.version (length m.system) (map memory_counts m.memories) (length m.system_sums) }
    ensures most { (height : ℕ) (text : Bytes) (m : Mark) (s : SystemPart) → IsMarkText height text m s
        → length text ≤ MAX_MARK }
{}

/// Files open at one list of heights only, up to births and rounds; what they stand for, they open at; and a state that a mark
/// gives has its version.
pub fn files_open_one_way()
    ensures once { (files : Files) (ps qs : List Published) → OpensAt files ps → OpensAt files qs
        → AllZip SamePublished ps qs }
    ensures stands { (files : Files) (ps : List Published) → StandsFor files ps → OpensAt files ps }
    ensures version { (files : Files) (p : Published) (given : GivesHeight files p) → p.state.version ≡ given.mark.version }
{}

/// In version 1 each sum of a memory is the hash of its chunk. In version 2 none stands for a chunk of zeros, and exactly for
/// those. So the counts of a mark are those of the bytes.
pub fn sums_of_chunks()
    ensures first { (m : MarkMemory) (bytes : Bytes) → HasTrueSums 1 m bytes
        → m.sums ≡ map (λ chunk. Some (chunk_hash chunk)) (parts CHUNK_SIZE bytes) }
    ensures second { (m : MarkMemory) (bytes : Bytes) → HasTrueSums 2 m bytes → AllZip TellsChunk m.sums (parts CHUNK_SIZE bytes) }
    ensures only { (m : MarkMemory) (bytes : Bytes) → AllZip TellsChunk m.sums (parts CHUNK_SIZE bytes) → HasTrueSums 2 m bytes }
    ensures counts { (version : ℕ) (m : MarkMemory) (bytes : Bytes) → HasTrueSums version m bytes
        → (length m.sums ≡ (whole_counts version bytes).sums) × (hash_count m.sums ≡ (whole_counts version bytes).hashes) }
{}
