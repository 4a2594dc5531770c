//! What is so of layers, by the definitions alone.
ghost use Rattle.std.specs.Prelude.{◌≡◌, ◌+◌, ℕ, List, [], ◌∷◌, ◌++◌, take, reverse};
ghost use Rattle.std.specs.List.{AllByRecursion};
ghost use Rattle.format_spec.specs.Bytes.{Bytes};
ghost use Rattle.page_spec.specs.Layers.{Layer, page_from};
ghost use Rattle.disk_model.specs.declared.name.Name.TheVariants.{Page};
ghost use Rattle.disk_model.specs.Files.{Files};
ghost use Rattle.page_file.specs.Files.{NumberedFile, IsAsKnown};
ghost use Rattle.layer_stack.specs.Stacks.{IsLayer, AreLayers, ReadsAs, PagesReadAs, list_with};

/// Layers depend only on the page files that the stack names.
pub fn files_that_agree_have_the_same_layers()
    ensures { (f g : Files) (stack : List NumberedFile) (layers : List Layer) → AllByRecursion (λ file. g (Page file.number) ≡ f (Page file.number)) stack
        → AreLayers f stack layers → AreLayers g stack layers }
{}

/// Page files have layers exactly where each is there as it is known.
pub fn kept_files_are_layers()
    ensures layers { (files : Files) (stack : List NumberedFile) → AllByRecursion (IsAsKnown files) stack → (layers : List Layer) × AreLayers files stack layers }
    ensures kept { (files : Files) (stack : List NumberedFile) (layers : List Layer) → AreLayers files stack layers → AllByRecursion (IsAsKnown files) stack }
{}

/// Over the same files `Stack::read` fills the page in one way, and `Stack::read_pages` the pages.
pub fn pages_read_as_one()
    ensures page { (files : Files) (stack : List NumberedFile) (page : ℕ) (one other : Bytes) → AllByRecursion (IsAsKnown files) stack
        → ReadsAs files stack page one → ReadsAs files stack page other → one ≡ other }
    ensures pages { (files : Files) (stack : List NumberedFile) (pages : List ℕ) (one other : Bytes) → AllByRecursion (IsAsKnown files) stack
        → PagesReadAs files stack pages one → PagesReadAs files stack pages other → one ≡ other }
{}

/// Where a layer, above those that are older, reads as the layers whose place it takes, all read as before.
pub fn layers_that_read_as_before_may_be_replaced()
    ensures { (layers : List Layer) (from count : ℕ) (l : Layer) (page : ℕ) → page_from (reverse (take from layers ++ l ∷ [])) page ≡ page_from (reverse (take (from + count) layers)) page
        → page_from (reverse (list_with from count l layers)) page ≡ page_from (reverse layers) page }
{}

/// The layers of page files of which one takes the place of others.
pub fn replaced_files_are_replaced_layers()
    ensures { (files : Files) (stack : List NumberedFile) (layers : List Layer) (from count : ℕ) (file : NumberedFile) (l : Layer) → AreLayers files stack layers → IsLayer files file l
        → AreLayers files (list_with from count file stack) (list_with from count l layers) }
{}
