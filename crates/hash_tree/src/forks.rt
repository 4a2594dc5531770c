//! Branches under forks.

ghost use Rattle.std.specs.Prelude.{◌≤◌, IfOk, length};
ghost use Rattle.hash_tree.specs.Stack.{Takes};

use crate::branch::Branch;
use byte_codec::NoMemory;
use std::alloc::Global;

// Takes the last so many branches, and puts the first half of them, rounded up, on the left side of a fork and the
// rest on its right side, and so on down to single ones.
pub(crate) fn take_forks(
    alloc: Global,
    branches: &mut Vec<Branch>,
    count: usize,
) -> Result<Branch, NoMemory>
    requires { count ≤ length branches.old.items }
    ensures taken { IfOk result (Takes branches.old.items branches.new.items count) }
{
    if count == 0 {
        return Ok(Branch::empty());
    }
    if count == 1 {
        return Ok(branches.pop().unwrap());
    }
    let right = take_forks(alloc, branches, count / 2)?;
    let left = take_forks(alloc, branches, count - count / 2)?;
    left.beside(alloc, right)
}
