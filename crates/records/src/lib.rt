// Reading of the three table records: what is refused, counts, rows and next tables.
#![tactic(auto)]

mod numbers; // numbers of one or two bytes
mod layouts; // the three kinds of record
pub mod faults; // refusals 1 to 7
pub mod readers; // a record's counts, or its refusal
pub mod lookup; // the rows of a context
pub mod tables; // next tables
