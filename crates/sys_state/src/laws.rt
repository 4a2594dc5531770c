//! That a contract fixes its answer.

ghost use Rattle.std.specs.Prelude.{◌≡◌, ℕ, Result};
ghost use Rattle.format_spec.specs.Bytes.{Bytes, bytes_cmp};
ghost use Rattle.state_spec.specs.Places.{Places};
ghost use Rattle.sys_state.specs.System.{System};

/// An id has one place in a state, or one where it would come.
pub fn an_id_has_one_place()
    ensures { (s : System) (id : Bytes) (a b : Result ℕ ℕ) → Places bytes_cmp id s.canisters a → Places bytes_cmp id s.canisters b → a ≡ b }
{}
