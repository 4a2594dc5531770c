//! That a contract fixes its answer.

ghost use Rattle.std.specs.Prelude.{◌≡◌, ℕ, Result};
ghost use Rattle.format_spec.specs.Fields.{Cursor};
ghost use Rattle.byte_codec.specs.declared.error.LebError.{LebError};
ghost use Rattle.byte_codec.specs.Leb.{ReadsLeb};

/// One text has one answer of `leb_read`, behind which the reader stands at one place.
pub fn leb_read_has_one_answer()
    ensures { (old one other : Cursor) (a b : Result ℕ LebError) → ReadsLeb old one a → ReadsLeb old other b → (a ≡ b) × (one ≡ other) }
{}
