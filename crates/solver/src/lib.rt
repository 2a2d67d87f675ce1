// The code of solving: the plain answer of a skid, and the unblocked answer.
//
// It always ends, and its cost is bounded. There are at most 512 states, and each has at most 16 letters. For each of these the pairs of the state's set are
// worked off once, each by the rows of its context state alone, and the set that they lead to is looked for among those found so far. In deletion a state is
// tested once, and once more after each round in which it lost a step.
#![tactic(auto)]

mod buffers; // the lent numbers, with room for every answer
mod deletion; // rounds that delete the states that do not pass
mod discovery; // the sets reached, numbered by first discovery
pub mod entry; // what the configurator takes, with the contract of the entry for C
mod fresh; // the states that are left, numbered afresh
mod numbering; // a set among those found, and one step more
mod passing; // the test of a state
pub mod solving; // the answer of two records
mod steps; // the step between sets for a controller letter
mod unblocked; // the unblocked answer of a skid

ghost use Rattle.answers.specs.Solve.{AnswerReplied};

use answers::{Answer, Unsolved};
use rules::{Reply, refused, succeeded};

// The reply that an answer gives: a function, not a From (what may not change: `answer_reply`, with `AnswerReplied`; a From needs a type of this crate).
pub fn answer_reply(answer: Answer) -> Reply
    ensures { AnswerReplied answer result }
{
    match answer {
        Ok(found) => succeeded(found.states, found.rounds),
        Err(Unsolved::TooMany) => refused(11, 0),
        Err(Unsolved::Nothing(rounds)) => Reply {
            number: 12,
            record: 0,
            row: 0,
            states: 0,
            rounds: rounds,
        },
    }
}
