//! Why a call on a page file failed.
ghost use Rattle.page_file.specs.declared.error.PageError.TheVariants.{Memory};
ghost use Rattle.std.specs.Prelude.{◌≡◌};
ghost use Rattle.page_file.specs.Errors.{page_error};

use byte_codec::NoMemory;
use disk_model::DiskError;
use std::alloc::{AllocError, AllocFailed};
use thiserror::Error;

/// Why a call on a page file failed.
#[derive(Clone, Copy, Debug, PartialEq, Eq, Error)]
pub enum PageError {
    /// The page file of this number is absent, or its bytes are no page file.
    #[error("page file {0} is absent or bad")]
    BadPage(u64),
    /// The disk failed, and has counted that.
    #[error("the disk failed")]
    Fault,
    /// Memory ran out.
    #[error("memory ran out")]
    Memory,
}

impl From<DiskError> for PageError {
    ghost from_gives = { λ e made. made ≡ page_error e };

    fn from(error: DiskError) -> PageError {
        match error {
            DiskError::Fault => PageError::Fault,
            DiskError::Memory => PageError::Memory,
        }
    }
}

impl From<NoMemory> for PageError {
    ghost from_gives = { λ _ made. made ≡ Memory };

    fn from(_error: NoMemory) -> PageError {
        PageError::Memory
    }
}

impl From<AllocError> for PageError {
    ghost from_gives = { λ _ made. made ≡ Memory };

    fn from(_error: AllocError) -> PageError {
        PageError::Memory
    }
}

impl<T: Drop> From<AllocFailed<T>> for PageError {
    ghost from_gives = { λ _ made. made ≡ Memory };

    fn from(_error: AllocFailed<T>) -> PageError {
        PageError::Memory
    }
}
