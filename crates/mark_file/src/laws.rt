//! Laws of the definitions, and that a contract fixes its answer.

ghost use Rattle.std.specs.Prelude.{◌≡◌, ℕ, Result};
ghost use Rattle.format_spec.specs.Bytes.{Bytes};
ghost use Rattle.state_spec.specs.State.{SystemPart};
ghost use Rattle.sys_state.specs.System.{System};
ghost use Rattle.store_spec.specs.Mark.{Mark, IsMark};
ghost use Rattle.mark_file.specs.declared.error.MarkError.{MarkError};
ghost use Rattle.mark_file.specs.Fits.{FitsText};
ghost use Rattle.mark_file.specs.Spells.{Decodes, DecodesBoth, IsAnswered};

/// A mark of a state's parts has what `Mark::encode` needs.
pub fn marks_can_be_written()
    ensures { (m : Mark) (s : SystemPart) → IsMark m s → FitsText m }
{}

/// The same bytes have one answer of `Mark::decode` for a height, but for want of memory, and one of `Mark::decode_both`.
pub fn decode_has_one_answer()
    ensures mark { (height : ℕ) (text : Bytes) (one other : Result Mark MarkError)
        → Decodes height text one → Decodes height text other → IsAnswered one → IsAnswered other → one ≡ other }
    ensures both { (height : ℕ) (text : Bytes) (one other : Result (Mark × System) MarkError)
        → DecodesBoth height text one → DecodesBoth height text other → IsAnswered one → IsAnswered other → one ≡ other }
{}
