//! `check ROOT HEX PATH`: what a witness tells, whatever state there is.

ghost use Rattle.std.specs.Prelude.{◌≡◌, IfOk};
ghost use Rattle.tree_spec.specs.Cbor.{read_tree};
ghost use Rattle.machine_spec.specs.WitnessSteps.{reply_of_look, reply_of_witness};
ghost use Rattle.witness.specs.Answers.{answer_of_check as checked_of};
ghost use Rattle.live_state.specs.Changes.{RefusedBy};

use byte_codec::NoMemory;
use hash_domain::Hash32;
use script_text::{Refusal, Reply};
use std::alloc::Global;
use sys_state::Path;
use witness::{Checked, WitnessError, check};

// The reply that tells what a witness shows.
fn reply_of(checked: Checked) -> Reply
    ensures { result ≡ reply_of_look (checked_of checked) }
{
    match checked {
        Checked::Found(bytes) => Reply::Found(bytes),
        Checked::Absent => Reply::Absent,
        Checked::Unknown => Reply::Unknown,
        Checked::Error => Reply::Error,
    }
}

// The reply to a witness that is refused.
fn refused_by(error: WitnessError) -> Result<Reply, NoMemory>
    ensures { RefusedBy error result }
{
    match error {
        WitnessError::BadWitness(place) => Ok(Reply::Refused(Refusal::BadWitness(place))),
        WitnessError::WrongRoot(hash) => Ok(Reply::Refused(Refusal::WrongRoot(hash))),
        WitnessError::Memory => Err(NoMemory),
    }
}

/// What the witness in these bytes tells of a path, in a tree of this root.
pub fn check_witness(
    alloc: Global,
    root: &Hash32,
    bytes: &[u8],
    path: &Path,
) -> Result<Reply, NoMemory>
    ensures { IfOk result (λ reply. reply ≡ reply_of_witness root.now path.now (read_tree bytes.now)) }
{
    match check(alloc, root, bytes, path) {
        Ok(checked) => Ok(reply_of(checked)),
        Err(error) => refused_by(error),
    }
}
