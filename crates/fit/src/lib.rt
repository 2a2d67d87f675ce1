// The fit check of a controller table against context and specification, and all that the panel takes.
//
// The check always ends, and its cost is bounded. Each place of the controller's table is looked at once to find the states that the table reaches by
// its own rows, and at most once more to see whether they have a row for each u. A triple (a, c, controller state) is worked off at most three times,
// each time by the rows of the context state a alone: once by the sweep after the one that found it, once when it is asked whether it leaves, and once
// when it is asked whether it blocks, where its rows are looked at for each i. There are at most 512 times 64 triples. Each sweep but the last
// finds one at least. Beside the triples that it works off, it goes three times over the sets of the controller's states: to see what is new in
// them, whether it has changed any (up to the first), and to hand them on.
#![tactic(auto)]

pub mod checking; // the check of three records
mod complete; // incomplete: a state that the controller reaches has no row for some u
mod joint; // a controller's table on a skid made ready
mod judging; // what the triples are asked
pub mod panel; // what the panel takes, with the contracts of the entries for C
mod sets; // the sets of all controller states
mod triples; // the triples, grown by sweeps
mod verdict; // the core: the verdict, of a skid and a next table

ghost use Rattle.verdicts.specs.Verdict.{Replied};

use rules::Reply;
use verdicts::{Misfit, Verdict};

// The reply to reading a controller, and its U and V. For C: seven numbers of 32 bits.
#[repr(C)]
#[derive(Clone, Copy)]
pub struct Controller {
    pub number: u32,
    pub record: u32,
    pub row: u32,
    pub states: u32,
    pub rounds: u32,
    pub u: u32,
    pub v: u32,
}

// The reply that a verdict on a controller of so many states gives: a function, not a From (what may not change: `verdict_reply`, with `Replied`; it takes
// the states too).
pub fn verdict_reply(verdict: Verdict, states: u32) -> Reply
    ensures { Replied states verdict result }
{
    match verdict {
        Err(Misfit::Incomplete) => rules::refused(14, 0),
        Err(Misfit::Leaves) => rules::refused(15, 0),
        Err(Misfit::Blocks) => rules::refused(16, 0),
        Ok(()) => rules::succeeded(states, 0),
    }
}
