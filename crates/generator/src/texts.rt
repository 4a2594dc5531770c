//! The texts of the lines.

ghost use Rattle.std.specs.Prelude.{◌≡◌, ◌++◌, ◌<◌, ◌≤◌, ℕ, IfOk, OnOk, decimal};
ghost use Rattle.generator.specs.Draws.{x_after};
ghost use Rattle.generator.specs.Places.{line_behind, last_line, count_behind as count_of_lines};
ghost use Rattle.generator.specs.Script.{two_digits, canister_line, write_line, merge_line};
ghost use Rattle.generator.specs.declared.limits.TheConstants.{MAX_BLOCKS};

use crate::draws::{drawn, next_x};
use byte_codec::NoMemory;
use itoa::Buffer;

// A name, and a byte in two digits.
fn write_byte(name: &[u8], byte: u8, into: &mut Vec<u8>) -> Result<(), NoMemory>
    ensures { OnOk result (into.new.items ≡ into.old.items ++ (name.now ++ two_digits byte)) }
{
    let mut digits = [0; 2];
    hex::encode_to_slice([byte], &mut digits).unwrap();
    into.extend_from_slice(name)?;
    into.extend_from_slice(&digits)?;
    Ok(())
}

// A name and a number.
fn write_number(name: &[u8], number: u64, into: &mut Vec<u8>) -> Result<(), NoMemory>
    ensures { OnOk result (into.new.items ≡ into.old.items ++ (name.now ++ decimal number)) }
{
    into.extend_from_slice(name)?;
    into.extend_from_slice(Buffer::new().format(number).as_bytes())?;
    Ok(())
}

/// Appends the line that makes a canister.
#[tactic(auto, unfolding(crate::specs::Script::canister_line))]
pub fn write_canister(canister: u8, into: &mut Vec<u8>) -> Result<(), NoMemory>
    ensures { OnOk result (into.new.items ≡ into.old.items ++ canister_line canister) }
{
    write_byte(b"canister ", canister, into)
}

/// Appends the line of a write, by the x before its draws, and answers the x after them.
#[tactic(auto, unfolding(crate::specs::Script::write_line))]
pub fn write_write(x: u64, into: &mut Vec<u8>) -> Result<u64, NoMemory>
    ensures after { IfOk result (λ after. after ≡ x_after 3 x) }
    ensures line { OnOk result (into.new.items ≡ into.old.items ++ write_line x) }
{
    let first = next_x(x);
    let second = next_x(first);
    let third = next_x(second);
    write_byte(b"write ", drawn(4, first) as u8, into)?;
    write_number(b" heap ", drawn(4194304, second), into)?;
    write_byte(b" ", drawn(256, third) as u8, into)?;
    Ok(third)
}

fn write_merge(canister: u8, into: &mut Vec<u8>) -> Result<(), NoMemory>
    ensures { OnOk result (into.new.items ≡ into.old.items ++ merge_line canister) }
{
    write_byte(b"merge ", canister, into)?;
    into.extend_from_slice(b" heap")?;
    Ok(())
}

/// How many lines a block has behind its writes.
#[tactic(auto, unfolding(crate::specs::Places::count_behind))]
pub fn count_behind(block: u32) -> u32
    ensures { result ≡ count_of_lines block }
{
    if block % 4 != 0 {
        1
    } else if block < 16 {
        24
    } else {
        25
    }
}

/// Appends the line of this number behind the writes of a block.
#[tactic(auto, unfolding(crate::specs::Places::line_behind))]
pub fn write_behind(block: u32, line: u32, into: &mut Vec<u8>) -> Result<(), NoMemory>
    requires { block ≤ MAX_BLOCKS }
    ensures { OnOk result (into.new.items ≡ into.old.items ++ line_behind block line) }
{
    match line {
        0 => into.extend_from_slice(b"round")?,
        1 => into.extend_from_slice(b"checkpoint")?,
        2..=9 => into.extend_from_slice(b"step checkpoint")?,
        10..=13 => write_number(
            b"forget ",
            u64::from(block.saturating_sub(3) + (line - 10)),
            into,
        )?,
        14 => write_merge((block / 4 % 4) as u8, into)?,
        15..=22 => into.extend_from_slice(b"step merge")?,
        23 if block >= 16 => write_number(b"purge ", u64::from(block - 12), into)?,
        _ => into.extend_from_slice(b"sweep")?,
    }
    Ok(())
}

/// Appends the first or the second of the last lines.
pub fn write_last(line: u32, into: &mut Vec<u8>) -> Result<(), NoMemory>
    ensures { OnOk result (into.new.items ≡ into.old.items ++ last_line line) }
{
    if line == 0 {
        into.extend_from_slice(b"root live")?;
    } else {
        into.extend_from_slice(b"heights")?;
    }
    Ok(())
}
