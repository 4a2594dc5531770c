//! The generated script, with nothing of it kept but the place of its next line.

ghost use Rattle.std.specs.Prelude.{◌≡◌, ◌+◌, ◌++◌, ◌∷◌, [], ◌≤◌, ◌<◌, ℕ, List, length, IfOk, MatchResult, MatchOption, Option};
ghost use Rattle.generator.specs.Places.{lines_left, IsPlace, GivesLine, GivesNext};
ghost use Rattle.generator.specs.Script.{generated};
ghost use Rattle.generator.specs.declared.limits.TheConstants.{MAX_BLOCKS};
ghost use Rattle.generator.specs.declared.place.Place.{Place};

use crate::place::{Place, after_behind, after_canister, after_last, after_write};
use crate::texts::{write_behind, write_canister, write_last, write_write};
use byte_codec::NoMemory;
use std::marker::Model;

/// The lines of a script that are still to come. Of the script it keeps a few numbers.
#[derive(Drop)]
pub struct Generator {
    blocks: u32,
    // What the next draw goes on from.
    x: u64,
    place: Place,
}

// Contracts see the lines to come, without their line feeds.
impl Model for Generator {
    ghost use Rattle.std.specs.Prelude.{List, ◌≤◌};
    ghost use Rattle.format_spec.specs.Bytes.{Bytes};
    ghost use Rattle.generator.specs.Places.{lines_left, IsPlace};
    ghost use Rattle.generator.specs.declared.limits.TheConstants.{MAX_BLOCKS};

    ghost Value = { List Bytes };

    ghost view = { λ g. lines_left g.blocks g.x g.place };

    ghost invariant = { λ g. (g.blocks ≤ MAX_BLOCKS) × IsPlace g.blocks g.place };
}

impl Generator {
    /// The script of so many blocks from a seed.
    pub fn new(blocks: u32, seed: u64) -> Generator
        requires { blocks ≤ MAX_BLOCKS }
        ensures { result ≡ generated blocks seed }
    {
        Generator {
            blocks,
            x: seed,
            place: Place::Canisters(0),
        }
    }

    /// Appends the next line, without a line feed, and says whether there was one. NoMemory where memory runs out; then the same
    /// lines are still to come.
    pub fn next(&mut self, into: &mut Vec<u8>) -> Result<bool, NoMemory>
        ensures { GivesLine result self.old self.new into.old.items into.new.items }
    {
        match write_next(self.blocks, self.x, self.place, into)? {
            Some((x, place)) => {
                self.x = x;
                self.place = place;
                Ok(true)
            }
            None => Ok(false),
        }
    }
}

// Appends the line at a place, and answers the x and the place behind it.
fn write_next(
    blocks: u32,
    x: u64,
    place: Place,
    into: &mut Vec<u8>,
) -> Result<Option<(u64, Place)>, NoMemory>
    requires blocks { blocks ≤ MAX_BLOCKS }
    requires place { IsPlace blocks place }
    ensures { IfOk result (λ next. GivesNext blocks (lines_left blocks x place) into.old.items into.new.items next) }
{
    match place {
        Place::Canisters(done) => {
            write_canister(done, into)?;
            Ok(Some((x, after_canister(blocks, done))))
        }
        Place::Writes { block, done } => {
            let after = write_write(x, into)?;
            Ok(Some((after, after_write(blocks, block, done))))
        }
        Place::Behind { block, done } => {
            write_behind(block, done, into)?;
            Ok(Some((x, after_behind(blocks, block, done))))
        }
        Place::Last(done) => write_end(blocks, x, done, into),
    }
}

// The same among the last two lines.
fn write_end(
    blocks: u32,
    x: u64,
    done: u32,
    into: &mut Vec<u8>,
) -> Result<Option<(u64, Place)>, NoMemory>
    requires { done ≤ 2 }
    ensures { IfOk result (λ next. GivesNext blocks (lines_left blocks x (Place.Last done)) into.old.items into.new.items next) }
{
    if done == 2 {
        return Ok(None);
    }
    write_last(done, into)?;
    Ok(Some((x, after_last(done))))
}

/// How many lines a script of so many blocks has, from any seed: 390,003 at most.
pub fn count(blocks: u32) -> u32
    requires { blocks ≤ MAX_BLOCKS }
    ensures lines { (seed : ℕ) → length (generated blocks seed) ≡ result }
    ensures most { result ≤ 390003 }
{
    let fourth = blocks / 4;
    6 + 33 * blocks + 23 * fourth + fourth.saturating_sub(3)
}
