//! Worked examples, which the check computes.

ghost use Rattle.std.specs.Prelude.{◌≡◌, ◌∷◌, [], length, take, drop, replicate, codes, Some, None, true, false};
ghost use Rattle.std.specs.List.{range_with_len};
ghost use Rattle.hex.specs.Hex.{encode_lower};
ghost use Rattle.page_spec.specs.PageFile.{runs_of, index_text, file_length};
ghost use Rattle.page_spec.specs.Layers.{memory_from, stale, plan, merged_pages, steps_for};
ghost use Rattle.page_spec.specs.Example.{three_pages, one_page, layer_with};

/// Chunks whose hash may have changed.
#[tactic(auto, unfolding(crate::specs::Computing::pages_compute))]
pub fn stale_chunks()
    ensures new_memory { stale [] 0 1 ≡ 0 ∷ [] }
    ensures grown { stale [] 300 301 ≡ 1 ∷ [] }
    ensures new_chunk { stale (5 ∷ []) 256 257 ≡ 0 ∷ 1 ∷ [] }
    ensures dirty { stale (300 ∷ []) 600 600 ≡ 1 ∷ [] }
    ensures same { stale [] 512 512 ≡ [] }
    ensures written { stale (255 ∷ 256 ∷ []) 0 257 ≡ 0 ∷ 1 ∷ [] }
{}

/// Which layers are merged, counted from 0, and what comes of it.
#[tactic(auto, unfolding(crate::specs::Computing::pages_compute))]
pub fn merge_plans()
    ensures both { plan (180 ∷ 120 ∷ []) ≡ Some 0 }
    ensures last_two { plan (100 ∷ 30 ∷ 20 ∷ []) ≡ Some 1 }
    ensures nothing { plan (100 ∷ 30 ∷ 15 ∷ []) ≡ None }
    ensures one { plan (1 ∷ []) ≡ None }
    ensures all { length (merged_pages 300 true (range_with_len 0 180 ∷ range_with_len 180 120 ∷ [])) ≡ 300 }
    ensures overlap { merged_pages 9 false ((2 ∷ 3 ∷ []) ∷ (3 ∷ 8 ∷ []) ∷ []) ≡ 2 ∷ 3 ∷ 8 ∷ [] }
    ensures half { merged_pages 4 true ((1 ∷ []) ∷ (3 ∷ []) ∷ []) ≡ 0 ∷ 1 ∷ 2 ∷ 3 ∷ [] }
    ensures steps { steps_for 300 ≡ 3 }
    ensures few_steps { steps_for 50 ≡ 2 }
{}

/// The index of a page file: an overlay in two ranges, and a base of one page.
#[tactic(auto, unfolding(crate::specs::Computing::pages_compute))]
pub fn page_indices()
    ensures runs { runs_of (2 ∷ 3 ∷ 7 ∷ []) ≡ (2, 2) ∷ (7, 1) ∷ [] }
    ensures overlay { encode_lower (index_text three_pages) ≡ codes "4943504600000001000000000000000a00000002000000030000000000003038000000020000000200000000000000070000000100000002" }
    ensures length { file_length three_pages ≡ 12344 }
    ensures base { encode_lower (index_text one_page) ≡ codes "494350460000000100000001000000010000000100000001000000000000102c000000000000000100000000" }
    ensures base_length { file_length one_page ≡ 4140 }
    ensures large { file_length (record { memory = 300; numbers = range_with_len 0 180 }) ≡ 737324 }
{}

/// A page is that of the newest layer that has it, and zeros where none has it.
#[tactic(auto, unfolding(crate::specs::Computing::pages_compute))]
pub fn pages_of_layers()
    ensures newest { take 1 (memory_from 2 (layer_with 1 ∷ layer_with 2 ∷ [])) ≡ 2 ∷ [] }
    ensures zeros { drop 4096 (memory_from 2 (layer_with 1 ∷ [])) ≡ replicate 4096 0 }
{}
