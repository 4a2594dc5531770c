//! Laws of the definitions.

ghost use Rattle.std.specs.Prelude.{◌≡◌, ℕ, length, take, drop};
ghost use Rattle.format_spec.specs.Bytes.{Bytes};
ghost use Rattle.page_spec.specs.PageFile.{PageIndex, IsIndex, index_length, file_length, index_text, IsPageFile};

/// A text is at most one page file; and it is one where its front is an index and its length the one that the index
/// says.
pub fn page_files_one_way()
    ensures once { (text : Bytes) (i j : PageIndex) (a b : Bytes) → IsPageFile text i a → IsPageFile text j b
        → (i ≡ j) × (a ≡ b) }
    ensures by_front { (text : Bytes) (i : PageIndex) → IsIndex i → take (index_length i) text ≡ index_text i
        → length text ≡ file_length i → IsPageFile text i (drop (index_length i) text) }
{}
