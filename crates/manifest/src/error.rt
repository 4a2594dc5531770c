//! Why a text is no manifest.

ghost use Rattle.std.specs.Prelude.{◌≡◌};
ghost use Rattle.manifest.specs.Gives.{error_of};

use byte_codec::FieldError;
use thiserror::Error;

/// Why a text is no manifest.
#[derive(Clone, Copy, Debug, PartialEq, Eq, Error)]
pub enum ManifestError {
    /// The text spells none. The number is the offset of the first field that is cut or breaks its rule; where each
    /// field is good, of the bytes behind the last one; where nothing follows, of the first file hash that isn't
    /// the hash of its chunk rows.
    #[error("the field at byte {0} of the manifest is cut, breaks its rule or isn't the hash of the file's chunks")]
    BadManifest(u64),
    /// Memory ran out.
    #[error("memory ran out")]
    Memory,
}

impl From<FieldError> for ManifestError {
    ghost from_gives = { λ error e. e ≡ error_of error };

    fn from(error: FieldError) -> ManifestError {
        match error {
            FieldError::Bad(place) => ManifestError::BadManifest(place),
            FieldError::Memory => ManifestError::Memory,
        }
    }
}
