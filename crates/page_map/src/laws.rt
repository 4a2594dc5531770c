//! What is so of maps, by the definitions alone.
ghost use Rattle.std.specs.Prelude.{◌≡◌, ◌≢◌, ℕ, ◌+◌, ◌*◌, ◌<◌, ◌≤◌, Bool, List, length, None};
ghost use Rattle.std.specs.List.{AllByRecursion};
ghost use Rattle.format_spec.specs.Bytes.{Bytes};
ghost use Rattle.format_spec.specs.declared.limits.TheConstants.{PAGE_SIZE};
ghost use Rattle.state_spec.specs.State.{Memory};
ghost use Rattle.state_spec.specs.Memory.{grow, read, write};
ghost use Rattle.page_spec.specs.Layers.{Layer, memory_from};
ghost use Rattle.disk_model.specs.declared.name.Name.{Name};
ghost use Rattle.disk_model.specs.Files.{Files};
ghost use Rattle.disk_model.specs.View.{DiskView};
ghost use Rattle.disk_model.specs.Frame.{TouchesOnly};
ghost use Rattle.page_file.specs.Files.{NumberedFile, IsAsKnown};
ghost use Rattle.layer_stack.specs.Stacks.{AreLayers};
ghost use Rattle.page_map.specs.Maps.{Maps, Map, own_at, if_after};
ghost use Rattle.page_map.specs.Reads.{IsLive, bytes_of};
ghost use Rattle.page_map.specs.Changes.{SameMaps, KeepsOthers};
ghost use Rattle.page_map.specs.Calls.{ReadsFrom, SameShape, Overwrites, Stamps, Grows, HaveRest, Rebases, ReadAlike};
ghost use Rattle.page_map.specs.Plain.{PlainMap, plain};
ghost use Rattle.page_map.specs.Memories.{IsMemoryOf, AreSealed};
ghost use Rattle.page_map.specs.Laws.{SparesFiles};

/// A call that changes one map leaves every other live one, with its bytes and its own pages.
pub fn a_map_that_is_not_given_reads_as_before()
    ensures live { (old new : Maps) (id : ℕ) (m : Map) → KeepsOthers old new id → m.id ≢ id → IsLive old m → IsLive new m }
    ensures bytes { (old new : Maps) (id : ℕ) (m : Map) (layers : List Layer) → KeepsOthers old new id → m.id ≢ id → IsLive old m → bytes_of layers new m ≡ bytes_of layers old m }
{}

/// A call that was refused leaves every map, with its bytes and its own pages.
pub fn a_refused_call_leaves_all_reads()
    ensures live { (old new : Maps) (m : Map) → SameMaps old new → IsLive old m → IsLive new m }
    ensures bytes { (old new : Maps) (m : Map) (layers : List Layer) → SameMaps old new → bytes_of layers new m ≡ bytes_of layers old m }
{}

/// A map has all bytes of its pages.
pub fn a_map_has_the_bytes_of_its_pages()
    ensures { (maps : Maps) (m : Map) (files : Files) (layers : List Layer) → IsLive maps m → AreLayers files m.stack layers → length (bytes_of layers maps m) ≡ m.length * PAGE_SIZE }
{}

/// A map with no pages of its own reads as its layers do.
pub fn a_map_without_own_pages_reads_as_its_layers()
    ensures { (maps : Maps) (m : Map) (layers : List Layer) → ((page : ℕ) → own_at maps m.id page ≡ None) → bytes_of layers maps m ≡ memory_from m.length layers }
{}

/// A map reads the same over layers that read the same.
pub fn layers_that_agree_read_the_same()
    ensures { (maps : Maps) (m : Map) (layers others : List Layer) → ReadAlike m.length layers others → bytes_of layers maps m ≡ bytes_of others maps m }
{}

/// A map goes on to be its memory through calls on a disk that are given none of its page files, and these stay sealed.
pub fn maps_kept_through_calls()
    ensures memory { (given : Name → Bool) (old new : DiskView) (b : ℕ) (m : PlainMap) (memory : Memory)
        → SparesFiles given m.stack → TouchesOnly given old new → IsMemoryOf old.state.files b m memory → IsMemoryOf new.state.files b m memory }
    ensures sealed { (given : Name → Bool) (old new : DiskView) (stack : List NumberedFile)
        → SparesFiles given stack → TouchesOnly given old new → AreSealed old.state stack → AreSealed new.state stack }
{}

/// Over files that are as the layers are known, `Pages::read` fills in one way.
pub fn a_map_reads_as_one()
    ensures { (files : Files) (maps : Maps) (m : Map) (at count : ℕ) (one other : Bytes) → AllByRecursion (IsAsKnown files) m.stack
        → ReadsFrom files maps m at count one → ReadsFrom files maps m at count other → one ≡ other }
{}

/// What is read of a map that is a memory, and what a write, a growth, a rebase, a restack and a fork make of it. What is read are the memory's
/// bytes; a written map is the written memory, a grown map the grown one; over layers that read as it did, and as a fork, it is the same memory.
pub fn a_map_is_its_memory_after_its_calls()
    ensures read { (files : Files) (maps : Maps) (m : Map) (b : ℕ) (memory : Memory) → IsMemoryOf files b (plain maps m) memory
        → (at count : ℕ) (bytes : Bytes) → ReadsFrom files maps m at count bytes → bytes ≡ read memory at count }
    ensures written { (files : Files) (old new : Maps) (m n : Map) (b : ℕ) (memory : Memory) → IsMemoryOf files b (plain old m) memory
        → (stamp at : ℕ) (w : Bytes) → IsLive old m → at + length w ≤ m.length * PAGE_SIZE → b < stamp → Overwrites files old new m n at w
        → Stamps old new m n at (length w) stamp → SameShape m n → IsMemoryOf files b (plain new n) (write stamp memory at w) }
    ensures grown { (files : Files) (maps : Maps) (m : Map) (b : ℕ) (memory : Memory) → IsMemoryOf files b (plain maps m) memory
        → (count : ℕ) → Grows maps m (record m { length = m.length + count }) count → IsMemoryOf files b (plain maps (record m { length = m.length + count })) (grow memory count) }
    ensures rebased { (files : Files) (old new : Maps) (m n : Map) (b : ℕ) (memory : Memory) → IsMemoryOf files b (plain old m) memory
        → (c : ℕ) (after : List Layer) → b ≤ c → AreLayers files n.stack after → ((before : List Layer) → AreLayers files m.stack before → HaveRest before after old m c)
        → Rebases old new m n c → ((page : ℕ) → own_at new n.id page ≡ if_after c (own_at old m.id page)) → IsMemoryOf files c (plain new n) memory }
    ensures restacked { (files : Files) (maps : Maps) (m : Map) (b : ℕ) (memory : Memory) → IsMemoryOf files b (plain maps m) memory
        → (stack : List NumberedFile) (after : List Layer) → AreLayers files stack after → ((before : List Layer) → AreLayers files m.stack before → ReadAlike m.length after before)
        → IsMemoryOf files b (plain maps (record m { stack = stack })) memory }
    ensures forked { (files : Files) (old new : Maps) (m n : Map) (b : ℕ) (memory : Memory) → IsMemoryOf files b (plain old m) memory
        → SameShape m n → ((page : ℕ) → own_at new n.id page ≡ own_at old m.id page) → IsMemoryOf files b (plain new n) memory }
{}

/// A map is the same memory after a call that it isn't given, and after a call that was refused.
pub fn a_map_is_its_memory_after_other_calls()
    ensures others { (files : Files) (old new : Maps) (m : Map) (b : ℕ) (memory : Memory) → IsMemoryOf files b (plain old m) memory
        → (id : ℕ) → KeepsOthers old new id → m.id ≢ id → IsLive old m → IsMemoryOf files b (plain new m) memory }
    ensures refused { (files : Files) (old new : Maps) (m : Map) (b : ℕ) (memory : Memory) → IsMemoryOf files b (plain old m) memory
        → SameMaps old new → IsMemoryOf files b (plain new m) memory }
{}
