//! Places in the script.

ghost use Rattle.std.specs.Prelude.{◌≡◌, ◌+◌, ◌-◌, ◌++◌, ◌<◌, ◌≤◌, ℕ};
ghost use Rattle.generator.specs.Places.{numbered, line_behind, count_behind as count_of_lines, last_line, lines_after, lines_left, IsPlace};
ghost use Rattle.generator.specs.Script.{canister_line, write_lines, x_after_writes, lines_behind};
ghost use Rattle.generator.specs.declared.limits.TheConstants.{MAX_BLOCKS};

use crate::texts::count_behind;

/// The next line of the script, by the part that it is in and the lines of that part that are done.
#[derive(Clone, Copy, Debug, PartialEq, Eq)]
pub enum Place {
    /// Among those that make the canisters.
    Canisters(u8),
    /// Among the writes of a block.
    Writes { block: u32, done: u32 },
    /// Behind the writes of a block.
    Behind { block: u32, done: u32 },
    /// Among the last two. With both done, the script is at its end.
    Last(u32),
}

// The first line behind a block, 0 for the canisters.
fn behind_block(blocks: u32, block: u32) -> Place
    requires { blocks ≤ MAX_BLOCKS }
    ensures place { IsPlace blocks result }
    ensures left { block ≤ blocks → (x : ℕ) → lines_left blocks x result ≡ lines_after blocks block x }
{
    if block < blocks {
        Place::Writes {
            block: block + 1,
            done: 0,
        }
    } else {
        Place::Last(0)
    }
}

/// The place behind the line of this canister.
pub fn after_canister(blocks: u32, canister: u8) -> Place
    requires blocks { blocks ≤ MAX_BLOCKS }
    requires canister { canister < 4 }
    ensures place { IsPlace blocks result }
    ensures left { (x : ℕ) → lines_left blocks x result ≡ numbered canister_line (canister + 1) 4 ++ lines_after blocks 0 x }
{
    if canister < 3 {
        Place::Canisters(canister + 1)
    } else {
        behind_block(blocks, 0)
    }
}

/// The place behind this write of a block.
pub fn after_write(blocks: u32, block: u32, done: u32) -> Place
    requires block { block ≤ blocks }
    requires done { done < 32 }
    ensures place { IsPlace blocks result }
    ensures left { (x : ℕ) → lines_left blocks x result ≡ write_lines (32 - (done + 1)) x ++ (lines_behind block ++ lines_after blocks block (x_after_writes (32 - (done + 1)) x)) }
{
    if done < 31 {
        Place::Writes {
            block,
            done: done + 1,
        }
    } else {
        Place::Behind { block, done: 0 }
    }
}

/// The place behind this line behind the writes of a block.
pub fn after_behind(blocks: u32, block: u32, done: u32) -> Place
    requires blocks { blocks ≤ MAX_BLOCKS }
    requires block { block ≤ blocks }
    requires done { done < count_of_lines block }
    ensures place { IsPlace blocks result }
    ensures left { (x : ℕ) → lines_left blocks x result ≡ numbered (line_behind block) (done + 1) (count_of_lines block) ++ lines_after blocks block x }
{
    if done + 1 < count_behind(block) {
        Place::Behind {
            block,
            done: done + 1,
        }
    } else {
        behind_block(blocks, block)
    }
}

/// The place behind one of the last two lines.
#[tactic(auto, unfolding(crate::specs::Places::lines_left, crate::specs::Places::IsPlace))]
pub fn after_last(done: u32) -> Place
    requires { done < 2 }
    ensures place { (blocks : ℕ) → IsPlace blocks result }
    ensures left { (blocks x : ℕ) → lines_left blocks x result ≡ numbered last_line (done + 1) 2 }
{
    Place::Last(done + 1)
}
