// What the panel takes: reading of the three records, writing of a controller, and the check. Each is one call of the plain function. They are
// public, with their rows in docs/CONTRACTS.md; the crate fit_c exports them under the same names (C interface).
ghost use Rattle.std.specs.Prelude.{◌≡◌};
ghost use Rattle.rules.specs.Reading.{reading_reply};
ghost use Rattle.rules.specs.Writing.{ControllerWritten};
ghost use Rattle.verdicts.specs.Check.{Checked};
ghost use Rattle.fit.specs.Panel.{ContextReplied, SpecificationReplied, ControllerReplied};

use super::Controller;
use super::checking::check;
use records::readers::{read_controller, read_record};
use rules::{Counts, Kind, Refusal, Reply, succeeded};
use writing::write_controller;

// The reply of what reading gave: the states of the table read, or the refusal.
fn reply_of(read: Result<Counts, Refusal>) -> Reply
    ensures { result ≡ reading_reply read }
{
    match read {
        Ok(counts) => succeeded(counts.states, 0),
        Err(refusal) => refusal.into(),
    }
}

pub fn mortarleaf_read_context(bytes: &[u8]) -> Reply
    ensures { ContextReplied bytes.now result }
{
    reply_of(read_record(bytes, Kind::Context))
}

pub fn mortarleaf_read_specification(bytes: &[u8]) -> Reply
    ensures { SpecificationReplied bytes.now result }
{
    reply_of(read_record(bytes, Kind::Specification))
}

// The steps go into the lent next table.
pub fn mortarleaf_read_controller(bytes: &[u8], next: &mut [u16]) -> Controller
    ensures { ControllerReplied bytes.now next.old result next.new }
{
    let read = read_controller(bytes, next);
    let reply = reply_of(read);
    let (u, v) = match read {
        Ok(counts) => (counts.u, counts.v),
        Err(_) => (0, 0),
    };
    Controller {
        number: reply.number,
        record: reply.record,
        row: reply.row,
        states: reply.states,
        rounds: reply.rounds,
        u,
        v,
    }
}

// The record goes into the lent bytes, from the start place on.
pub fn mortarleaf_write_controller(
    u: u32,
    v: u32,
    states: u32,
    next: &[u16],
    out: &mut [u8],
    start: usize,
) -> Reply
    ensures { ControllerWritten u v states next.now out.old start result out.new }
{
    write_controller(u, v, states, next, out, start)
}

// The reached pairs of each controller state go into the lent numbers.
pub fn mortarleaf_check(
    context: &[u8],
    specification: &[u8],
    controller: &[u8],
    sets: &mut [u64],
) -> Reply
    ensures { Checked context.now specification.now controller.now sets.old result sets.new }
{
    check(context, specification, controller, sets)
}
