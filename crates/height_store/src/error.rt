//! Why a call on the store failed.

ghost use Rattle.std.specs.Prelude.{◌≡◌};
ghost use Rattle.height_store.specs.declared.error.StoreError.TheVariants.{Memory};
ghost use Rattle.height_store.specs.Errors.{disk_error, page_error};

use byte_codec::NoMemory;
use disk_model::DiskError;
use page_file::PageError;
use std::alloc::{AllocError, AllocFailed};
use thiserror::Error;

/// Why a call on the store failed.
#[derive(Clone, Copy, Debug, PartialEq, Eq, Error)]
pub enum StoreError {
    /// The mark of this height isn't a valid mark, or there are sixteen before it.
    #[error("the mark of height {0} is bad")]
    BadMark(u64),
    /// The page file of this number, which a mark names, is absent or isn't a valid page file, or has more memory pages than the memory.
    #[error("the page file {0} is bad")]
    BadPage(u64),
    /// The height is not published.
    #[error("the height is not published")]
    NoHeight,
    /// The height is the newest published one.
    #[error("the height is the newest published one")]
    LastHeight,
    /// The disk failed, and has counted that.
    #[error("the disk failed")]
    Fault,
    /// Memory ran out.
    #[error("memory ran out")]
    Memory,
}

impl From<DiskError> for StoreError {
    ghost from_gives = { λ e made. made ≡ disk_error e };

    fn from(error: DiskError) -> StoreError {
        match error {
            DiskError::Fault => StoreError::Fault,
            DiskError::Memory => StoreError::Memory,
        }
    }
}

impl From<PageError> for StoreError {
    ghost from_gives = { λ e made. made ≡ page_error e };

    fn from(error: PageError) -> StoreError {
        match error {
            PageError::BadPage(number) => StoreError::BadPage(number),
            PageError::Fault => StoreError::Fault,
            PageError::Memory => StoreError::Memory,
        }
    }
}

impl From<NoMemory> for StoreError {
    ghost from_gives = { λ _ made. made ≡ Memory };

    fn from(_error: NoMemory) -> StoreError {
        StoreError::Memory
    }
}

impl From<AllocError> for StoreError {
    ghost from_gives = { λ _ made. made ≡ Memory };

    fn from(_error: AllocError) -> StoreError {
        StoreError::Memory
    }
}

impl<T: Drop> From<AllocFailed<T>> for StoreError {
    ghost from_gives = { λ _ made. made ≡ Memory };

    fn from(_error: AllocFailed<T>) -> StoreError {
        StoreError::Memory
    }
}
