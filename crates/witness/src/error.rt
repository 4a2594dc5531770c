//! Why a witness is refused.

ghost use Rattle.std.specs.Prelude.{◌≡◌};
ghost use Rattle.witness.specs.declared.error.WitnessError.TheVariants.{Memory};
ghost use Rattle.witness.specs.Gives.{error_of};

use byte_codec::{FieldError, NoMemory};
use hash_domain::Hash32;
use thiserror::Error;

/// Why a witness is refused.
#[derive(Clone, Copy, Debug, PartialEq, Eq, Error)]
pub enum WitnessError {
    /// The bytes spell no tree. The number is the offset of the first field that is cut or breaks its rule; where each
    /// field is good, of the bytes behind the last one.
    #[error("the field at byte {0} of the witness is cut or breaks its rule")]
    BadWitness(u64),
    /// The tree has this hash, which isn't the root.
    #[error("the witness has another root hash than the one asked for")]
    WrongRoot(Hash32),
    /// Memory ran out.
    #[error("memory ran out")]
    Memory,
}

impl From<FieldError> for WitnessError {
    ghost from_gives = { λ error e. e ≡ error_of error };

    fn from(error: FieldError) -> WitnessError {
        match error {
            FieldError::Bad(place) => WitnessError::BadWitness(place),
            FieldError::Memory => WitnessError::Memory,
        }
    }
}

impl From<NoMemory> for WitnessError {
    ghost from_gives = { λ _ e. e ≡ Memory };

    fn from(_error: NoMemory) -> WitnessError {
        WitnessError::Memory
    }
}
