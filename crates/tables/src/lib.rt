// What the fit check and the solver share: the records of a skid and their counts, the skid made ready, the steps of a next table and the states that it
// reaches, the rows of each context state, and zeros behind what was written.
#![tactic(auto)]

pub mod discovery; // the states that a next table reaches, numbered by first discovery
pub mod ready; // a skid made ready, with what its parts have in common
pub mod rows; // rows of the context: the specification's step by a row, and which rows a state has
pub mod skids; // the two records of a skid: read, their counts side by side, and refused where they do not match
pub mod steps; // a next table, by state and letter
pub mod usable; // what each state of a next table is asked: a row for each u, a continuation for each i
pub mod zeros; // zeros behind what was written

// The largest specification: 64 states, 8 i and 8 o.
pub const SPECIFICATION_NUMBERS: usize = 4096;

// The first row of each context state, of which there are at most 64, and behind them the number of rows.
pub const INDEX: usize = 65;

// The counts of a skid, and of the table beside it.
#[derive(Clone, Copy)]
pub struct Sizes {
    pub inputs: usize,
    pub outputs: usize,
    pub signals: usize,
    pub replies: usize,
    pub letters: usize, // signals times replies: the steps of a controller's state
    pub steps: usize, // inputs times outputs: the steps of a specification's state
    pub contexts: usize,
    pub specifications: u32,
    // the states of the table beside the skid: those of the controller that is checked, or the most that solving may find
    pub states: usize,
}
