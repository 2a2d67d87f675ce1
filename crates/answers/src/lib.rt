// What document 01 says of solving: the plain answer and the unblocked answer, the reply and the lent buffers, and the types of what is asked and found.
// Its only code tells what a mode number asks for.
#![tactic(auto)]

ghost use Rattle.answers.specs.Solve.{ModeOf};

// The answers that can be asked for.
#[derive(Clone, Copy, PartialEq, Eq)]
pub enum Wanted {
    Plain,
    Unblocked,
}

// A table found: so many states, after so many rounds.
#[derive(Clone, Copy)]
pub struct Found {
    pub states: u32,
    pub rounds: u32,
}

// No table: more than 512 plain states, or none after so many rounds.
#[derive(Clone, Copy)]
pub enum Unsolved {
    TooMany,
    Nothing(u32),
}

// What solving finds.
pub type Answer = Result<Found, Unsolved>;

// What a mode number asks for; of other numbers nothing. A function, not a TryFrom (what may not change: `mode_of`, with `ModeOf`).
pub fn mode_of(number: u32) -> Option<Wanted>
    ensures { ModeOf number result }
{
    match number {
        0 => Some(Wanted::Plain),
        1 => Some(Wanted::Unblocked),
        _ => None,
    }
}
