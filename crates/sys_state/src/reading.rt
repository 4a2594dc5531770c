//! A system text read field by field, with the place of the first bad field.

mod canisters;
mod entries;

ghost use Rattle.byte_codec.specs.Gives.{Gives};
ghost use Rattle.sys_state.specs.Reading.{head};

use byte_codec::{FieldError, Reader, read_be32, read_magic};
pub(crate) use canisters::read_canisters;
pub(crate) use entries::read_entries;
use format_spec::VERSION;

// The name, the version and the time.
#[tactic(auto, unfolding(crate::specs::Reading::head))]
pub(crate) fn read_head(reader: &mut Reader) -> Result<u64, FieldError>
    ensures { Gives (λ time. (time, reader.new)) result (head reader.old) }
{
    read_magic(reader, b"ICSY")?;
    read_be32(reader, VERSION)?;
    let at = reader.at() as u64;
    reader.be64().map_err(|_| FieldError::Bad(at))
}
