//! What is so of merges, by the definitions alone.
ghost use Rattle.std.specs.Prelude.{◌≡◌, ◌+◌, ◌*◌, ◌^◌, ◌≤◌, ◌<◌, ℕ, List, None, length, reverse};
ghost use Rattle.std.specs.List.{AllByRecursion};
ghost use Rattle.format_spec.specs.declared.limits.TheConstants.{MAX_MEMORY_PAGES};
ghost use Rattle.page_spec.specs.Layers.{Layer, page_from, plan};
ghost use Rattle.disk_model.specs.declared.name.Name.TheVariants.{Page};
ghost use Rattle.disk_model.specs.Files.{Files};
ghost use Rattle.disk_model.specs.State.{DiskState};
ghost use Rattle.disk_model.specs.Frame.{Needs};
ghost use Rattle.page_file.specs.Files.{NumberedFile};
ghost use Rattle.layer_stack.specs.Stacks.{AreLayers};
ghost use Rattle.merge_job.specs.Merge.{Merge, IsOn, is_of_merge, stepped, steps_left, with_merged};

/// A memory reads the same with the merged layer in the place of its layers: each page below the count of pages that the merge
/// began with.
pub fn a_merged_layer_reads_as_its_layers()
    ensures { (files : Files) (stack : List NumberedFile) (layers : List Layer) (memory from page : ℕ) → AreLayers files stack layers → page < memory
        → page_from (reverse (with_merged memory from stack layers)) page ≡ page_from (reverse layers) page }
{}

/// What a disk has of a merge stays so through each call that is given none of its files.
pub fn a_merge_is_kept_through_calls()
    ensures { (merge : Merge) → Needs (is_of_merge merge) (IsOn merge) }
{}

/// Over the same page files that it reads, a merge has written the same.
pub fn a_merge_writes_one_file()
    ensures { (merge : Merge) (s t : DiskState) → AllByRecursion (λ file. t.files (Page file.number) ≡ s.files (Page file.number)) merge.read → IsOn merge s → IsOn merge t
        → t.files (Page merge.writer.number) ≡ s.files (Page merge.writer.number) }
{}

/// Each step but the last leaves one step less.
pub fn a_step_leaves_one_less()
    ensures { (merge : Merge) → 1 < steps_left merge → steps_left (stepped merge) + 1 ≡ steps_left merge }
{}

/// Layers that no merge takes are few, since each has at least twice the pages of all after it.
pub fn layers_without_a_plan_are_few()
    ensures any { (sizes : List ℕ) (n most : ℕ) → plan sizes ≡ None → AllByRecursion (λ size. (1 ≤ size) × (size ≤ most)) sizes → most < 2 * 3 ^ n → length sizes ≤ n + 1 }
    ensures largest { (sizes : List ℕ) → plan sizes ≡ None → AllByRecursion (λ size. (1 ≤ size) × (size ≤ MAX_MEMORY_PAGES)) sizes → length sizes ≤ 12 }
    ensures smaller { (sizes : List ℕ) → plan sizes ≡ None → AllByRecursion (λ size. (1 ≤ size) × (size ≤ 2 ^ 16)) sizes → length sizes ≤ 11 }
{}
