//! Why a field could not be read or written.

ghost use Rattle.std.specs.Prelude.{◌≡◌};
ghost use Rattle.byte_codec.specs.declared.error.FieldError.TheVariants as field;
ghost use Rattle.byte_codec.specs.HexErrors.{refusal_of};

use hex::FromHexError;
use std::alloc::{AllocError, AllocFailed};
use thiserror::Error;

/// Memory ran out.
#[derive(Clone, Copy, Debug, PartialEq, Eq, Error)]
#[error("memory ran out")]
pub struct NoMemory;

impl From<AllocError> for NoMemory {
    fn from(_error: AllocError) -> NoMemory {
        NoMemory
    }
}

impl<T: Drop> From<AllocFailed<T>> for NoMemory {
    fn from(_error: AllocFailed<T>) -> NoMemory {
        NoMemory
    }
}

/// Fewer bytes are left than a field has.
#[derive(Clone, Copy, Debug, PartialEq, Eq, Error)]
#[error("the text ends inside a field")]
pub struct Short;

/// Why a field gave no value.
#[derive(Clone, Copy, Debug, PartialEq, Eq, Error)]
pub enum FieldError {
    /// The field that begins at this offset is cut or breaks its rule.
    #[error("the field at byte {0} is cut or breaks its rule")]
    Bad(u64),
    /// Memory ran out.
    #[error("memory ran out")]
    Memory,
}

impl From<NoMemory> for FieldError {
    ghost from_gives = { λ _ e. e ≡ field.Memory };

    fn from(_error: NoMemory) -> FieldError {
        FieldError::Memory
    }
}

impl From<AllocError> for FieldError {
    ghost from_gives = { λ _ e. e ≡ field.Memory };

    fn from(_error: AllocError) -> FieldError {
        FieldError::Memory
    }
}

impl<T: Drop> From<AllocFailed<T>> for FieldError {
    ghost from_gives = { λ _ e. e ≡ field.Memory };

    fn from(_error: AllocFailed<T>) -> FieldError {
        FieldError::Memory
    }
}

/// Why no LEB128 number could be read.
#[derive(Clone, Copy, Debug, PartialEq, Eq, Error)]
pub enum LebError {
    /// The input ends inside a spelling.
    #[error("the text ends inside a number")]
    Short,
    /// No shortest spelling of a number below 2^64 stands in front of the input, and the input begins none.
    #[error("a number isn't below 2^64 and in its shortest spelling")]
    Long,
}

/// Why no bytes could be read from hexadecimal text.
#[derive(Clone, Copy, Debug, PartialEq, Eq, Error)]
pub enum HexError {
    /// The text isn't an even number of lower-case hexadecimal digits.
    #[error("the text isn't an even number of lower-case hexadecimal digits")]
    Bad,
    /// Memory ran out.
    #[error("memory ran out")]
    Memory,
}

impl From<FromHexError> for HexError {
    ghost from_gives = { λ error given. given ≡ refusal_of error };

    fn from(error: FromHexError) -> HexError {
        match error {
            FromHexError::OutOfMemory => HexError::Memory,
            _ => HexError::Bad,
        }
    }
}
