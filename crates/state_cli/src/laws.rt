//! What the clause of a run tells by itself, whatever code keeps it.

ghost use Rattle.std.specs.Prelude.{◌≡◌, ◌++◌, ℕ, Bool, IsTrue, List, [], Option, None};
ghost use Rattle.std.specs.Io.KnownBytes.{IsAtEnd};
ghost use Rattle.store_spec.specs.Image.{StandsFor};
ghost use Rattle.disk_model.specs.Mem.{fresh_view};
ghost use Rattle.disk_model.specs.View.{DiskView, EachImage};
ghost use Rattle.machine_spec.specs.Machine.{Machine, start};
ghost use Rattle.machine_spec.specs.Script.{output_by, after_script};
ghost use Rattle.script_text.specs.Script.{lines, AreWithinLimits};
ghost use Rattle.script_text.specs.declared.status.Status.TheVariants.{Done, LongLine, ManyLines};
ghost use Rattle.state_cli.specs.Ends.{Ends, StandsAs, Closes, all_shown};

/// A script within the limits is never stopped by them: a run that took a front of it, and left the rest, ends by
/// neither of their statuses, whatever the disk is.
pub fn limits_stop_no_script_within_them()
    ensures long { (tells : Bool) (faults_before faults_now : ℕ) (old new : DiskView) (known : Option (List ℕ)) (taken gained left : List ℕ)
        → AreWithinLimits (lines (taken ++ left)) → Ends LongLine tells (StandsAs old.state) all_shown (Closes faults_before faults_now) (IsAtEnd known) old new taken gained → ⊥ }
    ensures many { (tells : Bool) (faults_before faults_now : ℕ) (old new : DiskView) (known : Option (List ℕ)) (taken gained left : List ℕ)
        → AreWithinLimits (lines (taken ++ left)) → Ends ManyLines tells (StandsAs old.state) all_shown (Closes faults_before faults_now) (IsAtEnd known) old new taken gained → ⊥ }
{}

/// A run that is done has fixed what it gave: the output of the machine for the script. And each image stands then for the
/// heights of the machine after it, which is what the next run over that disk wants.
pub fn a_script_done_is_answered()
    ensures output { (tells : Bool) (faults_before faults_now : ℕ) (old new : DiskView) (known : Option (List ℕ)) (script gained : List ℕ) (first : Machine)
        → Ends Done tells (StandsAs old.state) all_shown (Closes faults_before faults_now) (IsAtEnd known) old new script gained → IsTrue tells → StandsAs old.state first
        → gained ≡ output_by first script }
    ensures next { (tells : Bool) (faults_before faults_now : ℕ) (old new : DiskView) (known : Option (List ℕ)) (script gained : List ℕ) (first : Machine)
        → Ends Done tells (StandsAs old.state) all_shown (Closes faults_before faults_now) (IsAtEnd known) old new script gained → IsTrue tells → StandsAs old.state first
        → StandsAs new.state (start (after_script first script).published) }
{}

/// Each image of an empty disk, as `MemDisk::new` makes it, stands for no heights.
pub fn an_empty_disk_stands_for_no_heights()
    ensures { EachImage (fresh_view (λ _. None)).state (λ image. StandsFor image []) }
{}
