// What document 01 says of the fit check, as definitions over lists of numbers, with the laws about them: the triples, the verdict, the reply and the
// lent numbers at the end. No code: the check itself is in crate `fit`.
#![tactic(auto)]

// Why a controller does not fit, in the order in which it is asked.
#[derive(Clone, Copy)]
pub enum Misfit {
    Incomplete,
    Leaves,
    Blocks,
}

// What the check finds of a table that was read: it fits, or why not.
pub type Verdict = Result<(), Misfit>;
