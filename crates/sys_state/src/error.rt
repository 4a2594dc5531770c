//! Why a call of a state changed nothing.

ghost use Rattle.std.specs.Prelude.{◌≡◌};
ghost use Rattle.sys_state.specs.declared.error.SysError.TheVariants.{Memory};
ghost use Rattle.sys_state.specs.Fields.{error_of};

use byte_codec::{FieldError, NoMemory};
use std::alloc::AllocFailed;
use thiserror::Error;

/// Why a call of a state changed nothing.
#[derive(Clone, Copy, Debug, PartialEq, Eq, Error)]
pub enum SysError {
    /// The canister is there.
    #[error("the canister is there")]
    Exists,
    /// As many canisters are there as a state may have.
    #[error("as many canisters are there as a state may have")]
    ManyCanisters,
    /// The canister is not there.
    #[error("the canister is not there")]
    NoCanister,
    /// The memory would have more pages than one may have.
    #[error("the memory would have more pages than one may have")]
    MemoryFull,
    /// All memories together would have more pages than they may.
    #[error("all memories together would have more pages than they may")]
    StateFull,
    /// The path's first label is one that the tree keeps for itself.
    #[error("the path's first label is one that the tree keeps for itself")]
    Reserved,
    /// A prefix of the path is an entry, or the path is a prefix of one.
    #[error("a prefix of the path is an entry, or the path is a prefix of one")]
    PathConflict,
    /// As many entries are there as a state may have.
    #[error("as many entries are there as a state may have")]
    TreeFull,
    /// The entry is not there.
    #[error("the entry is not there")]
    NoPath,
    /// The bytes are no system text. The number is the offset of the first bad field.
    #[error("the field at byte {0} of the system text is cut or breaks its rule")]
    BadSystem(u64),
    /// Memory ran out.
    #[error("memory ran out")]
    Memory,
}

impl From<FieldError> for SysError {
    ghost from_gives = { λ error e. e ≡ error_of error };

    fn from(error: FieldError) -> SysError {
        match error {
            FieldError::Bad(place) => SysError::BadSystem(place),
            FieldError::Memory => SysError::Memory,
        }
    }
}

impl From<NoMemory> for SysError {
    ghost from_gives = { λ _ e. e ≡ Memory };

    fn from(_error: NoMemory) -> SysError {
        SysError::Memory
    }
}

impl<T: Drop> From<AllocFailed<T>> for SysError {
    ghost from_gives = { λ _ e. e ≡ Memory };

    fn from(_error: AllocFailed<T>) -> SysError {
        SysError::Memory
    }
}
