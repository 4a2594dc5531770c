//! How a run ended.

ghost use Rattle.std.specs.Prelude.{◌≡◌};
ghost use Rattle.script_text.specs.Codes.{code_of};

/// How a run ended.
#[derive(Clone, Copy, Debug, PartialEq, Eq)]
pub enum Status {
    /// The script was read to its end, and every line is answered.
    Done,
    /// There are words that the command line does not have.
    Usage,
    /// The source failed.
    ReadFault,
    /// The sink failed.
    WriteFault,
    /// The disk failed.
    DiskFault,
    /// A published height can't be read: its mark or a page file of it is bad.
    BadRoot,
    /// A line is too long.
    LongLine,
    /// The script has too many lines.
    ManyLines,
    /// Memory ran out.
    Memory,
}

impl Status {
    /// The number that the program ends with.
    pub fn code(self) -> u8
        ensures { result ≡ code_of self }
    {
        match self {
            Status::Done => 0,
            Status::Usage => 1,
            Status::ReadFault => 3,
            Status::WriteFault => 4,
            Status::DiskFault => 5,
            Status::BadRoot => 6,
            Status::LongLine => 7,
            Status::ManyLines => 8,
            Status::Memory => 9,
        }
    }
}
