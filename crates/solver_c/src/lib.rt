// The configurator's entry for C: one call of the function of `solver::entry` of its name, and it says what that says.
#![tactic(auto)]

ghost use Rattle.answers.specs.Solve.{Solved};

use rules::Reply;
use solver::entry;

// The sets and the next states of the answer go into the lent numbers.
#[unsafe(no_mangle)]
pub extern "C" fn mortarleaf_solve(
    mode: u32,
    context: &[u8],
    specification: &[u8],
    sets: &mut [u64],
    next: &mut [u16],
) -> Reply
    ensures { Solved mode context.now specification.now sets.old next.old result
        sets.new next.new }
{
    entry::mortarleaf_solve(mode, context, specification, sets, next)
}
