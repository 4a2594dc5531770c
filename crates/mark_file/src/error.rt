//! Why bytes give no mark.

ghost use Rattle.std.specs.Prelude.{◌≡◌};
ghost use Rattle.mark_file.specs.declared.error.Stop.TheVariants.{Memory};
ghost use Rattle.mark_file.specs.Stops.{stop_of};

use byte_codec::{FieldError, NoMemory};
use thiserror::Error;

/// Why bytes give no mark.
#[derive(Clone, Copy, Debug, PartialEq, Eq, Error)]
pub enum MarkError {
    /// They spell no mark of this height.
    #[error("the bytes spell no mark of height {0}")]
    BadMark(u64),
    /// Memory ran out.
    #[error("memory ran out")]
    Memory,
}

/// Why reading stopped.
#[derive(Clone, Copy, Debug, PartialEq, Eq)]
pub(crate) enum Stop {
    /// A field is cut or breaks its rule.
    Broken,
    /// Memory ran out.
    Memory,
}

impl From<FieldError> for Stop {
    ghost from_gives = { λ error e. e ≡ stop_of error };

    fn from(error: FieldError) -> Stop {
        match error {
            FieldError::Bad(_) => Stop::Broken,
            FieldError::Memory => Stop::Memory,
        }
    }
}

impl From<NoMemory> for Stop {
    ghost from_gives = { λ _ e. e ≡ Memory };

    fn from(_error: NoMemory) -> Stop {
        Stop::Memory
    }
}
