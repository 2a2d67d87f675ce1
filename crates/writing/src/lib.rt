// Writing of a controller record, from a start place in the caller's buffer onwards.
#![tactic(auto)]

ghost use Rattle.std.specs.Prelude.{◌≡◌, [], ◌∷◌, ◌+◌, ◌<◌, ◌≤◌, length, get_or, position};
ghost use Rattle.rules.specs.Writing.{controller_bytes, ControllerWritten};
ghost use Rattle.pairs.specs.Lent.{leading, spliced_at};
ghost use Rattle.writing.specs.Inside.{present, is_bad, Writable, Outcome, head_bytes, row_bytes, rows_bytes};

use records::faults::is_in_limits;
use rules::{ABSENT, CONTROLLER, Fault, Kind, Refusal, Reply, succeeded};

// A controller that is not refused: its codes and states, the places of its next table, and how many of them have a row.
#[derive(Clone, Copy)]
struct Controller<'a> {
    u: u32,
    v: u32,
    states: u32,
    places: &'a [u16],
    rows: usize,
    ghost writable: { Writable u v states places.now rows },
}

// How many places have a row.
fn rows_among(places: &[u16]) -> usize
    ensures { result ≡ present places.now }
{
    places.iter().filter(|to| **to != ABSENT).count()
}

// The first place that is neither 65535 nor below `states`.
fn first_bad(places: &[u16], states: u32) -> Option<usize>
    ensures { result ≡ position (is_bad states) places.now }
{
    places
        .iter()
        .position(|to| !(*to == ABSENT || u32::from(*to) < states))
}

impl<'a> Controller<'a> {
    // The bytes before the rows, at the front of the buffer.
    fn put_head(&self, out: &mut [u8])
        requires { 8 ≤ length out.old }
        ensures { out.new ≡ leading (head_bytes self.now.u self.now.v self.now.states self.now.rows) out.old }
    {
        let after = ((6 + self.rows * 6) as u16).to_le_bytes();
        let states = (self.states as u16).to_le_bytes();
        let head = [
            after[0],
            after[1],
            CONTROLLER[0],
            CONTROLLER[1],
            self.u as u8,
            self.v as u8,
            states[0],
            states[1],
        ];
        out[..8].copy_from_slice(&head);
    }

    // The row of place p at the front of the buffer.
    fn put_row(&self, out: &mut [u8], p: usize)
        requires room { 6 ≤ length out.old }
        requires inside { p < length self.now.places.now }
        ensures { out.new ≡ leading (row_bytes self.now.u self.now.v p (get_or self.now.places.now p 0)) out.old }
    {
        let u = self.u as usize;
        let v = self.v as usize;
        let step = p / v;
        let state = ((step / u) as u16).to_le_bytes();
        let to = self.places[p].to_le_bytes();
        let row = [
            state[0],
            state[1],
            (step % u) as u8,
            (p % v) as u8,
            to[0],
            to[1],
        ];
        out[..6].copy_from_slice(&row);
    }

    // The row of place p, at the place `at` of the buffer, where there is one. The next place of the buffer.
    fn put_place(&self, out: &mut [u8], at: usize, p: usize) -> usize
        requires inside { p < length self.now.places.now }
        requires room { at + length (rows_bytes self.now.u self.now.v p (get_or self.now.places.now p 0 ∷ [])) ≤ length out.old }
        ensures { (result ≡ at + length (rows_bytes self.now.u self.now.v p (get_or self.now.places.now p 0 ∷ [])))
            × (out.new ≡ spliced_at at (rows_bytes self.now.u self.now.v p (get_or self.now.places.now p 0 ∷ [])) out.old) }
    {
        if self.places[p] == ABSENT {
            return at;
        }
        self.put_row(&mut out[at..], p);
        at + 6
    }

    // The rows of all places, from the front of the buffer on.
    fn put_rows(&self, out: &mut [u8])
        requires { length (rows_bytes self.now.u self.now.v 0 self.now.places.now) ≤ length out.old }
        ensures { out.new ≡ leading (rows_bytes self.now.u self.now.v 0 self.now.places.now) out.old }
    {
        let mut at = 0;
        for p in 0..self.places.len() {
            at = self.put_place(out, at, p);
        }
    }

    // A whole record at the front of the buffer, which is long enough.
    fn put_record(&self, out: &mut [u8])
        requires { length (controller_bytes self.now.u self.now.v self.now.states self.now.places.now) ≤ length out.old }
        ensures { out.new ≡ leading (controller_bytes self.now.u self.now.v self.now.states self.now.places.now) out.old }
    {
        self.put_head(out);
        self.put_rows(&mut out[8..]);
    }
}

// Refusals 4, 10 and 5, in their order; else the record is put from the start place on.
fn written(
    u: u32,
    v: u32,
    states: u32,
    next: &[u16],
    out: &mut [u8],
    start: usize,
) -> Result<(), Refusal>
    ensures { Outcome u v states next.now out.old start result out.new }
{
    if !is_in_limits([u, v, states, 0, 0, 0], Kind::Controller) {
        return Err(Refusal::Record(Kind::Controller, Fault::Limit));
    }
    let size = (states * (u * v)) as usize;
    if next.len() < size {
        return Err(Refusal::Room);
    }
    let places = &next[..size];
    let rows = rows_among(places);
    if out.len() < start {
        return Err(Refusal::Room);
    }
    if out.len() - start < 8 + rows * 6 {
        return Err(Refusal::Room);
    }
    if let Some(bad) = first_bad(places, states) {
        return Err(Refusal::Record(Kind::Controller, Fault::Code(bad as u32)));
    }
    let controller = Controller {
        u,
        v,
        states,
        places,
        rows,
    };
    controller.put_record(&mut out[start..]);
    Ok(())
}

// The record of a controller with so many codes and states and this next table. A refused write changes nothing.
pub fn write_controller(
    u: u32,
    v: u32,
    states: u32,
    next: &[u16],
    out: &mut [u8],
    start: usize,
) -> Reply
    ensures { ControllerWritten u v states next.now out.old start result out.new }
{
    match written(u, v, states, next, out, start) {
        Ok(()) => succeeded(states, 0),
        Err(refusal) => Reply::from(refusal),
    }
}
