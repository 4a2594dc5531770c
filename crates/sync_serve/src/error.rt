//! Why an ask was not answered.

ghost use Rattle.std.specs.Prelude.{◌≡◌};
ghost use Rattle.sync_serve.specs.declared.error.ServeError.TheVariants.{Memory};
ghost use Rattle.sync_serve.specs.Served.{serve_error};

use byte_codec::NoMemory;
use disk_model::DiskError;
use thiserror::Error;

/// Why an ask was not answered.
#[derive(Clone, Copy, Debug, PartialEq, Eq, Error)]
pub enum ServeError {
    /// The bytes spell no ask.
    #[error("the bytes are no ask")]
    BadAsk,
    /// The disk failed, and has counted that.
    #[error("the disk failed")]
    Fault,
    /// Memory ran out.
    #[error("memory ran out")]
    Memory,
}

impl From<DiskError> for ServeError {
    ghost from_gives = { λ e made. made ≡ serve_error e };

    fn from(error: DiskError) -> ServeError {
        match error {
            DiskError::Fault => ServeError::Fault,
            DiskError::Memory => ServeError::Memory,
        }
    }
}

impl From<NoMemory> for ServeError {
    ghost from_gives = { λ _ made. made ≡ Memory };

    fn from(_error: NoMemory) -> ServeError {
        ServeError::Memory
    }
}
