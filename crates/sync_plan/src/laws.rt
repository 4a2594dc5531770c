//! That contracts fix their answers: what they say of a value's view, they say of the value.

ghost use Rattle.std.specs.Prelude.{◌≡◌};
ghost use Rattle.sync_plan.specs.declared.ask.Ask.{Ask};
ghost use Rattle.sync_plan.specs.declared.answer.Answer.{Answer};
ghost use Rattle.sync_plan.specs.Views.{ask_of, answer_of};

/// A text spells one ask and one answer, since the definitions' value is that of one ask and of one answer.
pub fn views_tell_values_apart()
    ensures asks { (a b : Ask) → ask_of a ≡ ask_of b → a ≡ b }
    ensures answers { (a b : Answer) → answer_of a ≡ answer_of b → a ≡ b }
{}
