//! What is so of every disk, by the definitions alone.
ghost use Rattle.std.specs.Prelude.{◌≡◌, ◌+◌, ◌≤◌, ◌⊎◌, ℕ, Bool, true, false, IsTrue, [], unwrap_or, IsOk, Result};
ghost use Rattle.disk_model.specs.declared.name.Name.{Name};
ghost use Rattle.disk_model.specs.Files.{Files};
ghost use Rattle.disk_model.specs.State.{DiskState, IsImageNow};
ghost use Rattle.disk_model.specs.Call.{Call, under_way, done, is_given, length_given};
ghost use Rattle.disk_model.specs.View.{DiskView, moment, IsImageSince, EachImage, LeavesOnly, Done, Failed, Does};
ghost use Rattle.disk_model.specs.OnlyReads.{OnlyReads};
ghost use Rattle.disk_model.specs.Frame.{DependsOnly, Spares, TouchesOnly, Needs};
ghost use Rattle.disk_model.specs.Spending.{Spends};
ghost use Rattle.disk_model.specs.Writing.{WritesOnly};
ghost use Rattle.disk_model.specs.declared.disk.DiskError.{DiskError};
ghost use Rattle.disk_model.specs.Laws.{IsSound};
ghost use Rattle.format_spec.specs.Bytes.{IsBytes};
ghost use Rattle.disk_model.specs.OfBytes.{HoldsBytes, bytes_given};

/// An image now is one since every moment, and a later moment has no image that an earlier one lacks.
/// What calls leave only is so of each image since they began.
pub fn laws_of_moments()
    ensures now { (v : DiskView) (t : ℕ) (image : Files) → IsImageNow v.state image → IsImageSince v t image }
    ensures later { (v : DiskView) (t u : ℕ) (image : Files) → t ≤ u → IsImageSince v u image → IsImageSince v t image }
    ensures each { (old new : DiskView) (test : Files → Bool) (image : Files) → LeavesOnly old new (λ f. IsTrue (test f)) → IsImageSince new (moment old) image → IsTrue (test image) }
{}

/// In the middle of a call are the images from before it and from after it. Each of them is an image from before it but for the names that the call is given.
/// A disk that reads as one of its images does so in the middle of the call and after it.
pub fn laws_of_calls()
    ensures before { (call : Call) (s : DiskState) (image : Files) → IsImageNow s image → IsImageNow (under_way call s) image }
    ensures after { (call : Call) (s : DiskState) (image : Files) → IsSound s → IsImageNow (done call s) image → IsImageNow (under_way call s) image }
    ensures apart { (call : Call) (s : DiskState) (image : Files) → IsImageNow (under_way call s) image
        → ((j : Files) × IsImageNow s j × ((q : Name) → is_given call q ≡ false → image q ≡ j q)) }
    ensures sound { (call : Call) (s : DiskState) → IsSound s → IsSound (done call s) }
    ensures sound_within { (call : Call) (s : DiskState) → IsSound s → IsImageNow (under_way call s) s.files }
{}

/// A test of the files of some names goes on to hold through a call that is given none of them, whether it is done or fails:
/// of the files as they read, and of each image since the call began. A test of the disk that needs some names alone goes on to hold through
/// any calls that are given none of them, also where it asks which of them are firm or loose.
pub fn laws_of_frames()
    ensures reads { (call : Call) (old new : DiskView) (names : Name → Bool) (test : Files → Bool) → DependsOnly names (λ f. IsTrue (test f)) → Spares call names
        → (Done call old new ⊎ Failed call old new) → IsTrue (test old.state.files) → IsTrue (test new.state.files) }
    ensures images { (call : Call) (old new : DiskView) (names : Name → Bool) (test : Files → Bool) → DependsOnly names (λ f. IsTrue (test f)) → Spares call names
        → (Done call old new ⊎ Failed call old new) → IsSound old.state → EachImage old.state (λ f. IsTrue (test f)) → LeavesOnly old new (λ f. IsTrue (test f)) }
    ensures needed { (given names : Name → Bool) (old new : DiskView) (test : DiskState → Bool) → Needs names (λ s. IsTrue (test s))
        → ((q : Name) → names q ≡ true → given q ≡ false) → TouchesOnly given old new → IsTrue (test old.state) → IsTrue (test new.state) }
{}

/// Bytes appended and read, over no call, over two runs after each other, by calls that only look, and by one call that was done.
pub fn laws_of_spending()
    ensures none { (v : DiskView) → Spends 0 0 v v }
    ensures joined { (a b r q : ℕ) (old mid new : DiskView) → Spends a r old mid → Spends b q mid new → Spends (a + b) (r + q) old new }
    ensures looking { (most : ℕ) (old new : DiskView) → OnlyReads most old new → Spends 0 most old new }
    ensures call { (call : Call) (old new : DiskView) → Done call old new → Spends (length_given call) 0 old new }
{}

/// The frame of one call that changes files, and of two runs after each other.
pub fn laws_of_writing()
    ensures call { (call : Call) (result : Result (Unit {0}) DiskError) (old new : DiskView) (given : Name → Bool) → ((q : Name) → given q ≡ false → is_given call q ≡ false)
        → IsSound old.state → Does call result old new → WritesOnly given (length_given call) result old new }
    ensures joined { (before result : Result (Unit {0}) DiskError) (given : Name → Bool) (a b : ℕ) (old mid new : DiskView) → IsOk before
        → WritesOnly given a before old mid → WritesOnly given b result mid new → WritesOnly given (a + b) result old new }
{}

/// A disk of bytes stays one through each call that is given bytes, in the middle of it and after it, and the firm files of its images are of bytes.
pub fn laws_of_bytes()
    ensures within { (call : Call) (s : DiskState) → HoldsBytes s → HoldsBytes (under_way call s) }
    ensures after { (call : Call) (s : DiskState) → IsBytes (bytes_given call) → HoldsBytes s → HoldsBytes (done call s) }
    ensures images { (s : DiskState) (image : Files) → HoldsBytes s → IsImageNow s image → (q : Name) → s.loose q ≡ false → IsBytes (unwrap_or (image q) []) }
{}
