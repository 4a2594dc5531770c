//! What is so of every store and every disk, by the definitions alone.

ghost use Rattle.std.specs.Prelude.{◌≡◌, ◌≤◌, ◌<◌, ◌⊎◌, ℕ, Bool, true, false, List, length, slice_get, Some, IsSomeAnd, is_some, nat_eq, not, Result};
ghost use Rattle.format_spec.specs.declared.limits.TheConstants.{MAX_PUBLISHED};
ghost use Rattle.std.specs.List.{AllByRecursion, list_any};
ghost use Rattle.format_spec.specs.Bytes.{Bytes};
ghost use Rattle.state_spec.specs.Files.{memories_in};
ghost use Rattle.sys_state.specs.System.{part_of};
ghost use Rattle.store_spec.specs.Mark.{Mark};
ghost use Rattle.page_file.specs.Files.{NumberedFile};
ghost use Rattle.store_spec.specs.Image.{Published, StandsFor, Opens};
ghost use Rattle.disk_model.specs.declared.name.Name.{Name};
ghost use Rattle.disk_model.specs.declared.name.Name.TheVariants as name;
ghost use Rattle.disk_model.specs.Files.{Files};
ghost use Rattle.disk_model.specs.State.{DiskState, IsSettled};
ghost use Rattle.disk_model.specs.Call.{Call};
ghost use Rattle.disk_model.specs.View.{DiskView, EachImage, LeavesOnly, Done, Failed};
ghost use Rattle.disk_model.specs.Frame.{Spares, TouchesOnly, SameAt};
ghost use Rattle.disk_model.specs.Laws.{IsSound};
ghost use Rattle.height_store.specs.declared.error.StoreError.{StoreError};
ghost use Rattle.height_store.specs.Answers.{OpensAs, Purges, ReadsAs, RangeIs};
ghost use Rattle.height_store.specs.Bad.{IsFirstBadMark, IsFirstBadPage};
ghost use Rattle.height_store.specs.Errors.{IsAnswered};
ghost use Rattle.height_store.specs.Kept.{HasStacks, IsReadable, ShowsHeights, KeepsHeights};
ghost use Rattle.height_store.specs.Needed.{is_page_needed, is_dispensable, files_swept};
ghost use Rattle.height_store.specs.Store.{Store, StoredHeight, IsHeight, Gains, IsNextFree, height_at, is_needed};

/// Where a disk keeps heights, a crash leaves files that stand for them.
/// It keeps those that its files show, where no rename or removal is pending and no file that they need is loose.
pub fn kept_heights_stand()
    ensures stands { (hs : List StoredHeight) (s : DiskState) (ps : List Published) → KeepsHeights hs s ps
        → EachImage s (λ image. StandsFor image ps) }
    ensures settled { (hs : List StoredHeight) (s : DiskState) (ps : List Published) → IsSettled s
        → ((q : Name) → is_needed hs q ≡ true → s.loose q ≡ false) → ShowsHeights s.files hs ps → KeepsHeights hs s ps }
{}

/// A disk goes on to keep heights through each call that is given none of the files which they need, whether it is done
/// or fails, and through any run of such calls. Each image meanwhile stands for them.
pub fn heights_kept_through_calls()
    ensures call { (call : Call) (old new : DiskView) (hs : List StoredHeight) (ps : List Published) → IsSound old.state
        → Spares call (is_needed hs) → (Done call old new ⊎ Failed call old new)
        → KeepsHeights hs old.state ps → KeepsHeights hs new.state ps }
    ensures calls { (given : Name → Bool) (old new : DiskView) (hs : List StoredHeight) (ps : List Published)
        → ((q : Name) → is_needed hs q ≡ true → given q ≡ false) → TouchesOnly given old new
        → KeepsHeights hs old.state ps → KeepsHeights hs new.state ps }
    ensures meanwhile { (given : Name → Bool) (old new : DiskView) (hs : List StoredHeight) (ps : List Published)
        → ((q : Name) → is_needed hs q ≡ true → given q ≡ false) → TouchesOnly given old new
        → KeepsHeights hs old.state ps → LeavesOnly old new (λ image. StandsFor image ps) }
{}

/// Files whose heights can be read open, and the heights that they stand for are those.
pub fn stores_open()
    ensures opens { (hs : List StoredHeight) (files : Files) → AllByRecursion IsHeight hs → length hs ≤ MAX_PUBLISHED
        → IsReadable hs files → Opens files }
    ensures shown { (hs : List StoredHeight) (files : Files) (ps : List Published) → AllByRecursion IsHeight hs
        → IsReadable hs files → StandsFor files ps → ShowsHeights files hs ps }
{}

/// Files with a bad mark, or whose marks name a bad page file, do not open: opening refuses no disk that opens.
pub fn bad_disks_do_not_open()
    ensures mark { (files : Files) (height : ℕ) → IsFirstBadMark files height → Opens files → ⊥ }
    ensures page { (files : Files) (number : ℕ) → IsFirstBadPage files number → Opens files → ⊥ }
{}

/// A sweep leaves each file that the heights need and those that are given, as they read, and firm or loose as they were. Where the page
/// files that are given are there, just the needed ones are there after it, and just the stage files that are given where these were there.
pub fn sweeps_leave_what_is_needed()
    ensures needed { (hs : List StoredHeight) (pins stages : List ℕ) (q : Name) → is_needed hs q ≡ true → is_dispensable hs pins stages q ≡ false }
    ensures pinned { (hs : List StoredHeight) (pins stages : List ℕ) (n : ℕ) → list_any (nat_eq n) pins ≡ true → is_dispensable hs pins stages (name.Page n) ≡ false }
    ensures staged { (hs : List StoredHeight) (pins stages : List ℕ) (n : ℕ) → list_any (nat_eq n) stages ≡ true → is_dispensable hs pins stages (name.Stage n) ≡ false }
    ensures same { (hs : List StoredHeight) (pins stages : List ℕ) (old new : DiskView) → TouchesOnly (is_dispensable hs pins stages) old new
        → SameAt (λ q. not (is_dispensable hs pins stages q)) old.state new.state }
    ensures pages { (hs : List StoredHeight) (pins stages : List ℕ) (files : Files) → AllByRecursion IsHeight hs → IsReadable hs files
        → ((n : ℕ) → list_any (nat_eq n) pins ≡ true → is_some (files (name.Page n)) ≡ true)
        → (n : ℕ) → is_some (files_swept hs pins stages files (name.Page n)) ≡ is_page_needed hs pins n }
    ensures stages { (hs : List StoredHeight) (pins stages : List ℕ) (files : Files)
        → ((n : ℕ) → list_any (nat_eq n) stages ≡ true → is_some (files (name.Stage n)) ≡ true)
        → (n : ℕ) → is_some (files_swept hs pins stages files (name.Stage n)) ≡ list_any (nat_eq n) stages }
{}

/// What the calls of a store say of their answers fixes these, but for faults and want of memory: the store that is opened over
/// the same files, by `open` or by `open_read`, or why it isn't; the store after a height is published; the answer of a purge; the number that comes next;
/// the bytes of a page of a height, and of a range of a memory.
pub fn store_calls_have_one_answer()
    ensures opens { (files : Files) (one other : Result Store StoreError)
        → OpensAs files one → OpensAs files other → IsAnswered one → IsAnswered other → one ≡ other }
    ensures publishes { (old : Store) (m : Mark) (stacks : List (List NumberedFile)) (one other : Store)
        → Gains old m stacks one → Gains old m stacks other → one ≡ other }
    ensures purges { (hs : List StoredHeight) (height : ℕ) (one other : Result (Unit {0}) StoreError)
        → Purges hs height one → Purges hs height other → IsAnswered one → IsAnswered other → one ≡ other }
    ensures next { (named : List ℕ) (from one other : ℕ) → IsNextFree named from one → IsNextFree named from other → one ≡ other }
    ensures reads { (files : Files) (hs : List StoredHeight) (height place page : ℕ) (h : StoredHeight) (one other : Bytes)
        → IsReadable hs files → IsHeight h → height_at hs height ≡ Some h
        → IsSomeAnd (slice_get (memories_in (part_of h.system)) place) (λ m. page < m.1)
        → ReadsAs files hs height place page one → ReadsAs files hs height place page other → one ≡ other }
    ensures ranges { (files : Files) (h : StoredHeight) (place offset len : ℕ) (m : Bytes × ℕ) (one other : Bytes)
        → HasStacks files h → IsHeight h → slice_get (memories_in (part_of h.system)) place ≡ Some m
        → RangeIs files h place offset len one → RangeIs files h place offset len other → one ≡ other }
{}
