//! What follows from what a check answers.

ghost use Rattle.std.specs.Prelude.{◌≡◌, List, Result};
ghost use Rattle.format_spec.specs.Bytes.{Bytes};
ghost use Rattle.witness.specs.Answers.{Checks, IsAnswered};
ghost use Rattle.witness.specs.declared.checking.Checked.{Checked};
ghost use Rattle.witness.specs.declared.error.WitnessError.{WitnessError};

/// `check` has one answer for a root, a text and a path, but for want of memory.
pub fn a_check_has_one_answer()
    ensures { (root text : Bytes) (path : List Bytes) (one other : Result Checked WitnessError) → IsAnswered one → IsAnswered other
        → Checks root text path one → Checks root text path other → one ≡ other }
{}
