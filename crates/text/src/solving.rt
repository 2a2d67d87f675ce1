// The program `solve`: from the bytes of its standard input to the bytes that it prints.
ghost use Rattle.std.specs.Prelude.{◌≡◌};
ghost use Rattle.rules.specs.Limits.{set_numbers, next_numbers};
ghost use Rattle.text.specs.Inputs.{solve_text_limit};
ghost use Rattle.text.specs.Programs.{zeros, solve_printed, solve_text, SolveTextPut};
ghost use Rattle.text.specs.Inside.{cut_printed};
ghost use Rattle.text.specs.Growing.{Room, Grown};

use super::cutting::record_end;
use super::growing::Text;
use super::lines::put_refused;
use super::steps::put_answer;
use records::readers::record_counts;
use rules::{Kind, NEXT_NUMBERS, Refusal, SET_NUMBERS, refused};
use solver::solving::solve;

// The longest input: a mode byte, the longest context and the longest specification.
pub const SOLVE_LIMIT: usize = 28689;
// No text is longer.
pub const SOLVE_TEXT: usize = 114724;

// What is printed for a mode and two records, with two buffers of zeros for the answer.
fn put_solution(
    mode: u32,
    context: &[u8],
    specification: &[u8],
    sets: &mut [u64],
    next: &mut [u16],
    text: &mut Text,
)
    requires { (sets.old ≡ zeros set_numbers) × (next.old ≡ zeros next_numbers) × Room solve_text_limit text.old }
    ensures { Grown (solve_printed mode context.now specification.now) text.old text.new }
{
    let reply = solve(mode, context, specification, sets, next);
    let counts = record_counts(context, Kind::Context);
    put_answer(text, counts.u, counts.v, reply, next);
}

// The same with buffers of its own.
fn put_records(mode: u32, context: &[u8], specification: &[u8], text: &mut Text)
    requires { Room solve_text_limit text.old }
    ensures { Grown (solve_printed mode context.now specification.now) text.old text.new }
{
    let mut sets = [0u64; SET_NUMBERS];
    let mut next = [0u16; NEXT_NUMBERS];
    put_solution(mode, context, specification, &mut sets, &mut next, text);
}

// The same for the bytes behind the mode byte: "The context record ends where its length says".
fn put_cut(mode: u32, rest: &[u8], text: &mut Text)
    requires { Room solve_text_limit text.old }
    ensures { Grown (cut_printed mode rest.now) text.old text.new }
{
    let end = record_end(rest);
    put_records(mode, &rest[..end], &rest[end..], text);
}

// The whole text of an input.
fn put_input(input: &[u8], text: &mut Text)
    requires { Room solve_text_limit text.old }
    ensures { Grown (solve_text input.now) text.old text.new }
{
    if SOLVE_LIMIT < input.len() {
        // Refusal 1 for record 0: the input is no record, so no `Refusal` names it.
        put_refused(text, refused(1, 0));
        return;
    }
    if input.len() == 0 {
        put_refused(text, Refusal::Mode.into());
        return;
    }
    put_cut(input[0] as u32, &input[1..], text);
}

// What the program prints for its input, at the front of a buffer of at least SOLVE_TEXT bytes; how many bytes that are. A shorter buffer stays as it was, and
// the answer is 0. (No option: what may not change, `SolveTextPut`.)
pub fn solve_text(input: &[u8], out: &mut [u8]) -> usize
    ensures { SolveTextPut input.now out.old result out.new }
{
    if out.len() < SOLVE_TEXT {
        return 0;
    }
    let mut text = Text { out, end: 0 };
    put_input(input, &mut text);
    text.end
}
