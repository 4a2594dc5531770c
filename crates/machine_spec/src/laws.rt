//! What every step keeps, and where a machine begins.

ghost use Rattle.std.specs.Prelude.{◌≡◌, List, []};
ghost use Rattle.std.specs.List.{AllByRecursion};
ghost use Rattle.state_spec.specs.State.{IsState};
ghost use Rattle.disk_model.specs.Files.{Files};
ghost use Rattle.disk_model.specs.OfBytes.{AreOfBytes};
ghost use Rattle.store_spec.specs.Image.{OpensAt, Published, SamePublished, StandsFor, opened_state};
ghost use Rattle.script_text.specs.declared.command.Command.{Command};
ghost use Rattle.script_text.specs.declared.reply.Refusal.{Refusal};
ghost use Rattle.machine_spec.specs.Answers.{Turn, after_turns};
ghost use Rattle.machine_spec.specs.Machine.{Machine, start};
ghost use Rattle.machine_spec.specs.Script.{RefusalKeeps};
ghost use Rattle.machine_spec.specs.Sound.{AreHeights, IsSound, MayBegin, StartIsSound, StepKeeps};
ghost use Rattle.machine_spec.specs.States.{empty_state};

/// A command that is refused leaves the machine as it was.
pub fn refused_commands_keep()
    ensures { (m : Machine) (command : Command) (refusal : Refusal) → RefusalKeeps m command refusal }
{}

/// The machine of a store where nothing is published has an empty live state of height 1, and no other.
pub fn an_empty_store_begins_anew()
    ensures { start [] ≡ record { live = empty_state; height = 1; memory = []; published = [] } }
{}

/// The machine of a store that opens at published heights is sound.
pub fn start_is_sound()
    ensures { (ps : List Published) → StartIsSound ps }
{}

/// Each step of a sound machine leaves one, for each command that a line may spell.
pub fn steps_keep_soundness()
    ensures { (m : Machine) (command : Command) → StepKeeps m command }
{}

/// So do turns, whatever their lines: those without a reply and those that are no command among them.
pub fn turns_keep_soundness()
    ensures { (m : Machine) (turns : List Turn) → IsSound m → IsSound (after_turns m turns) }
{}

/// Published heights that differ in births and rounds alone, as those that a disk gives, open alike.
pub fn same_heights_open_alike()
    ensures opened { (p q : Published) → SamePublished p q → opened_state p ≡ opened_state q }
    ensures may { (p q : Published) → SamePublished p q → MayBegin p → MayBegin q }
{}

/// The heights that files of bytes open at, or stand for, are such that a machine may begin at them.
pub fn heights_of_files_are_heights()
    ensures opened { (files : Files) (ps : List Published) → AreOfBytes files → OpensAt files ps → AreHeights ps }
    ensures stands { (files : Files) (ps : List Published) → AreOfBytes files → StandsFor files ps → AreHeights ps }
{}

/// Every state of a sound machine is valid: the live one, those in memory and the published ones.
pub fn sound_machines_have_valid_states()
    ensures live { (m : Machine) → IsSound m → IsState m.live }
    ensures memory { (m : Machine) → IsSound m → AllByRecursion (λ k. IsState k.1) m.memory }
    ensures published { (m : Machine) → IsSound m → AllByRecursion (λ p. IsState p.state) m.published }
{}
