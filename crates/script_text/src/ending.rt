//! How a run ends: its status, and its last line.

ghost use Rattle.std.specs.Prelude.{◌≡◌};
ghost use Rattle.script_text.specs.Endings.{status_of as status_by, closing_text, with_number};

use crate::status::Status;

/// Why a run stops before the end of its script.
#[derive(Clone, Copy, Debug, PartialEq, Eq)]
pub enum RunStop {
    /// There are words that the command line does not have.
    Usage,
    ReadFault,
    WriteFault,
    DiskFault,
    /// The mark of this height isn't a valid mark.
    BadMark(u64),
    /// The page file of this number isn't a valid page file.
    BadPage(u64),
    /// The line of this number, from 1, is too long.
    LongLine(u32),
    ManyLines,
    Memory,
}

/// The status of a run that came to the end of its script, or stopped.
pub fn status_of(ending: Result<(), RunStop>) -> Status
    ensures { result ≡ status_by ending }
{
    match ending {
        Ok(()) => Status::Done,
        Err(RunStop::Usage) => Status::Usage,
        Err(RunStop::ReadFault) => Status::ReadFault,
        Err(RunStop::WriteFault) => Status::WriteFault,
        Err(RunStop::DiskFault) => Status::DiskFault,
        Err(RunStop::BadMark(_) | RunStop::BadPage(_)) => Status::BadRoot,
        Err(RunStop::LongLine(_)) => Status::LongLine,
        Err(RunStop::ManyLines) => Status::ManyLines,
        Err(RunStop::Memory) => Status::Memory,
    }
}

/// The last line of a stop in two parts: a text, and the number that stands behind it before a line feed. Without a number the
/// text is all. It is empty where the sink failed.
pub fn closing_parts(stop: RunStop) -> (&'static [u8], Option<u64>)
    ensures { with_number result.0.now result.1 ≡ closing_text stop }
{
    match stop {
        RunStop::Usage => (
            b"usage: icstate [--cache PAGES] [--peers K] [--generate N] [--seed S]\n",
            None,
        ),
        RunStop::ReadFault => (b"stopped: read fault\n", None),
        RunStop::WriteFault => (b"", None),
        RunStop::DiskFault => (b"stopped: disk fault\n", None),
        RunStop::BadMark(height) => (b"stopped: bad mark ", Some(height)),
        RunStop::BadPage(number) => (b"stopped: bad page ", Some(number)),
        RunStop::LongLine(number) => (b"stopped: long line ", Some(number.into())),
        RunStop::ManyLines => (b"stopped: many lines\n", None),
        RunStop::Memory => (b"stopped: no memory\n", None),
    }
}
