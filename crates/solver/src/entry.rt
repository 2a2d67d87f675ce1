// What the configurator takes: one call of the plain function. It is public, with its row in docs/CONTRACTS.md; the crate solver_c exports it under the same
// name (C interface).
ghost use Rattle.answers.specs.Solve.{Solved};

use super::solving::solve;
use rules::Reply;

// The sets and the next states of the answer go into the lent numbers.
pub fn mortarleaf_solve(
    mode: u32,
    context: &[u8],
    specification: &[u8],
    sets: &mut [u64],
    next: &mut [u16],
) -> Reply
    ensures { Solved mode context.now specification.now sets.old next.old result
        sets.new next.new }
{
    solve(mode, context, specification, sets, next)
}
