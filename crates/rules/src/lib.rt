// What document 01 says, as definitions over lists of numbers, with the laws about them; and the types of what is read and replied.
// A reader of the product's promises reads the specs of this crate. Its only code makes replies.
#![tactic(auto)]

ghost use Rattle.std.specs.Prelude.{◌≡◌};
ghost use Rattle.rules.specs.Faults.{fault_number, fault_row};
ghost use Rattle.rules.specs.Replies.{Succeeded, RefusedAt, Refused, refusal, refusal_reply};

use pairs::CtxState;

// The two bytes of each kind of record.
pub const CONTEXT: [u8; 2] = *b"CX";

pub const SPECIFICATION: [u8; 2] = *b"SP";

pub const CONTROLLER: [u8; 2] = *b"CT";

// A controller has at most so many states; a next table has room for so many numbers, and holds this one where a step is absent.
pub const STATE_LIMIT: u16 = 512;

pub const NEXT_NUMBERS: usize = 8192;

// The lent numbers of 64 bits hold the sets of so many states.
pub const SET_NUMBERS: usize = 512;

// (C interface: the lent next states are numbers of 16 bits, so tables hold this number and no option.)
pub const ABSENT: u16 = 65535;

// Every reply of the product. For C: five numbers of 32 bits, so no Result (C interface).
#[repr(C)]
#[derive(Clone, Copy)]
pub struct Reply {
    pub number: u32,
    pub record: u32,
    pub row: u32,
    pub states: u32,
    pub rounds: u32,
}

// The three kinds of record, by their numbers in a reply.
#[derive(Clone, Copy, PartialEq, Eq)]
pub enum Kind {
    Context = 1,
    Specification = 2,
    Controller = 3,
}

// What is wrong with a record: the first refusal of 1 to 7, with the row for 5 to 7.
#[derive(Clone, Copy, PartialEq, Eq)]
pub enum Fault {
    Length,
    Kind,
    Cut,
    Limit,
    Code(u32),
    EqualKey(u32),
    LowerKey(u32),
}

// What is refused before anything is decided: a record, by 1 to 7; codes that differ, 8, of a record; a product of states that is too large, 9; a lent
// buffer that is too short, 10; an unknown mode, 13.
#[derive(Clone, Copy, PartialEq, Eq)]
pub enum Refusal {
    Record(Kind, Fault),
    Codes(Kind),
    Pairs,
    Room,
    Mode,
}

// The counts of a record that was read; 0 where its kind has no such count (what may not change: `CountsRead`, which `record_counts` ensures).
#[derive(Clone, Copy)]
pub struct Counts {
    pub i: u32,
    pub o: u32,
    pub u: u32,
    pub v: u32,
    pub states: u32,
    pub rows: usize,
}

// A row of a context.
#[derive(Clone, Copy)]
pub struct ContextRow {
    pub state: CtxState,
    pub i: u32,
    pub v: u32,
    pub u: u32,
    pub o: u32,
    pub next: CtxState,
}

// The rows of a context state: from row `first` up to row `end`, which is left out.
#[derive(Clone, Copy)]
pub struct StateRows {
    pub first: usize,
    pub end: usize,
}

// A success: the answer's states, and the rounds of the unblocked answer.
pub fn succeeded(states: u32, rounds: u32) -> Reply
    ensures { Succeeded states rounds result }
{
    Reply {
        number: 0,
        record: 0,
        row: 0,
        states: states,
        rounds: rounds,
    }
}

// A refusal: its number, the record that it is given for or 0, and the row (what may not change: `RefusedAt` and `Refused`, for every number).
pub fn refused_at(number: u32, of: u32, row: u32) -> Reply
    ensures { RefusedAt number of row result }
{
    Reply {
        number: number,
        record: of,
        row: row,
        states: 0,
        rounds: 0,
    }
}

// A refusal that names no row.
pub fn refused(number: u32, of: u32) -> Reply
    ensures { Refused number of result }
{
    refused_at(number, of, 0)
}

// The reply of a refusal.
impl From<Refusal> for Reply {
    ghost from_gives = { λ r reply. reply ≡ refusal_reply r };

    fn from(r: Refusal) -> Reply {
        match r {
            Refusal::Record(kind, fault) => fault_reply(kind as u32, fault),
            Refusal::Codes(kind) => refused(8, kind as u32),
            Refusal::Pairs => refused(9, 0),
            Refusal::Room => refused(10, 0),
            Refusal::Mode => refused(13, 0),
        }
    }
}

// A fault of a record, as a reply.
fn fault_reply(of: u32, fault: Fault) -> Reply
    ensures { result ≡ refusal (fault_number fault) of (fault_row fault) 0 }
{
    match fault {
        Fault::Length => refused(1, of),
        Fault::Kind => refused(2, of),
        Fault::Cut => refused(3, of),
        Fault::Limit => refused(4, of),
        Fault::Code(row) => refused_at(5, of, row),
        Fault::EqualKey(row) => refused_at(6, of, row),
        Fault::LowerKey(row) => refused_at(7, of, row),
    }
}
