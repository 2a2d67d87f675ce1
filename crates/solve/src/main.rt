// Reads a mode byte, a context record and a specification record from standard input, and writes the answer's table, or the refusal.
#![tactic(auto)]

use std::io;
use std::io::Write;
use text::reading::read_full;
use text::solving::{SOLVE_LIMIT, SOLVE_TEXT, solve_text};

// The longest input and a byte more, so that a longer one is seen to be too long.
const ROOM: usize = SOLVE_LIMIT + 1;

// (That of `fit_table` has other limits and another function in these lines; one for both would be no plainer.)
fn main(rt: HostRuntime) -> io::Result<()> {
    let mut input = [0u8; ROOM];
    let mut out = [0u8; SOLVE_TEXT]; // before the read: behind it the text's room would be cleared twice
    let n = read_full(&mut rt.stdin(), &mut input)?;
    let size = solve_text(&input[..n], &mut out);
    rt.stdout().write_all(&out[..size])
}
