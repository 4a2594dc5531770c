//! What isn't a mark, and which files don't open.

ghost use Rattle.std.specs.Prelude.{◌≡◌, ◌≤◌, ℕ, List, [], ◌∷◌, ◌++◌, length, Option, Some, None};
ghost use Rattle.format_spec.specs.Bytes.{Bytes};
ghost use Rattle.state_spec.specs.State.{SystemPart};
ghost use Rattle.disk_model.specs.declared.name.Name.TheVariants as name;
ghost use Rattle.disk_model.specs.Files.{Files};
ghost use Rattle.page_spec.specs.PageFile.{index_text};
ghost use Rattle.page_spec.specs.Example.{first_page};
ghost use Rattle.store_spec.specs.Mark.{Mark, MarkMemory, FitsMemory, mark_text, IsMarkText};
ghost use Rattle.store_spec.specs.Image.{Published, IsLayerOf, OpensAt};
ghost use Rattle.page_spec.specs.Layers.{Layer};
ghost use Rattle.store_spec.specs.Example.{one_mark, larger_index};

/// A memory has 32 layers at most, and none where it has no pages.
pub fn layers_that_do_not_fit()
    ensures many { (version : ℕ) (m : MarkMemory) (f : Bytes × ℕ) → 33 ≤ length m.layers → FitsMemory version m f → ⊥ }
    ensures empty { (version : ℕ) (m : MarkMemory) (name : Bytes) (n : ℕ) (ns : List ℕ) → m.layers ≡ n ∷ ns
        → FitsMemory version m (name, 0) → ⊥ }
{}

/// In version 1 each sum is a hash.
pub fn no_sum_in_version_1()
    ensures { (m : MarkMemory) (sums : List (Option Bytes)) (f : Bytes × ℕ) → m.sums ≡ None ∷ sums → FitsMemory 1 m f → ⊥ }
{}

/// There is no mark of version 3.
pub fn a_mark_of_another_version()
    ensures { (height : ℕ) (text : Bytes) (m : Mark) (s : SystemPart) → m.version ≡ 3 → IsMarkText height text m s → ⊥ }
{}

/// The mark of height 1 is no mark of height 2.
pub fn a_mark_of_another_height()
    ensures { (m : Mark) (s : SystemPart) → IsMarkText 2 (mark_text one_mark) m s → ⊥ }
{}

/// A page file of a memory of two pages is no layer of a memory of one page.
pub fn a_page_file_of_a_larger_memory()
    ensures { (files : Files) (l : Layer) → files (name.Page 0) ≡ Some (index_text larger_index ++ first_page)
        → IsLayerOf files 1 0 l → ⊥ }
{}

/// Seventeen marks don't open.
pub fn too_many_marks()
    ensures { (files : Files) (ps : List Published) → 17 ≤ length ps → OpensAt files ps → ⊥ }
{}
