ghost use Rattle.std.specs.Prelude.{◌≡◌, ℕ, List, [], MatchResult, IfOk, Err, None};
ghost use Rattle.std.specs.Option.{option_to_list};
ghost use Rattle.std.specs.Io.KnownBytes.{Consumes, IsAtEnd};
ghost use Rattle.io_edge.specs.Faults.{HasCause, IsCounted};
ghost use Rattle.state_cli.specs.Reading.{TakesLine};
ghost use Rattle.state_cli.specs.declared.reading.ReadError.TheVariants.{Fault, Memory};

use format_spec::MAX_LINE;
use io_edge::{Failed, Source};
use std::alloc::AllocFailed;

/// How a line that was read ended.
#[derive(Clone, Copy, Debug, PartialEq, Eq)]
pub enum LineEnd {
    /// With a line feed.
    Feed,
    /// With the input, and it has a byte or more.
    Input,
    /// There is no line: the input has ended.
    NoLine,
    /// It goes past the limit.
    TooLong,
}

/// Why a line was not read.
#[derive(Clone, Copy, Debug, PartialEq, Eq)]
pub enum ReadError {
    Fault,
    Memory,
}

impl From<Failed> for ReadError {
    ghost from_gives = { λ _ error. error ≡ Fault };

    fn from(_error: Failed) -> ReadError {
        ReadError::Fault
    }
}

impl From<AllocFailed<u8>> for ReadError {
    ghost from_gives = { λ _ error. error ≡ Memory };

    fn from(_error: AllocFailed<u8>) -> ReadError {
        ReadError::Memory
    }
}

/// The next byte. None where the input has ended.
pub fn next_byte<S: Source>(source: &mut S) -> Result<Option<u8>, Failed>
    ensures bytes { MatchResult result (λ byte. Consumes (S.left source.old) (S.left source.new) (option_to_list byte)) (λ _. Consumes (S.left source.old) (S.left source.new) []) }
    ensures end { IfOk result (λ byte. byte ≡ None → IsAtEnd (S.left source.new)) }
    ensures cause { HasCause (S.faults source.old) (S.faults source.new) result }
{
    let mut byte = [0];
    let count = source.take(&mut byte)?;
    Ok(if count == 0 { None } else { Some(byte[0]) })
}

/// Reads one line, without its line feed, and nothing behind it.
pub fn read_line<S: Source>(source: &mut S, line: &mut Vec<u8>) -> Result<LineEnd, ReadError>
    ensures bytes { (taken : List ℕ) × Consumes (S.left source.old) (S.left source.new) taken × TakesLine result line.new.items taken (IsAtEnd (S.left source.new)) }
    ensures cause { IsCounted (S.faults source.old) (S.faults source.new) (result ≡ Err ReadError.Fault) }
{
    line.clear();
    while line.len() <= MAX_LINE {
        match next_byte(source)? {
            None if line.is_empty() => return Ok(LineEnd::NoLine),
            None => return Ok(LineEnd::Input),
            Some(b'\n') => return Ok(LineEnd::Feed),
            Some(byte) => line.push(byte)?,
        }
    }
    Ok(LineEnd::TooLong)
}
