// Reads a context record, a specification record and a controller record from standard input, and writes whether the controller fits, or the refusal.
#![tactic(auto)]

use std::io;
use std::io::Write;
use text::fitting::{FIT_LIMIT, FIT_TEXT, fit_text};
use text::reading::read_full;

// The longest input and a byte more, so that a longer one is seen to be too long.
const ROOM: usize = FIT_LIMIT + 1;

// (That of `solve` has other limits and another function in these lines; one for both would be no plainer.)
fn main(rt: HostRuntime) -> io::Result<()> {
    let mut input = [0u8; ROOM];
    let n = read_full(&mut rt.stdin(), &mut input)?;
    let mut out = [0u8; FIT_TEXT];
    let size = fit_text(&input[..n], &mut out);
    rt.stdout().write_all(&out[..size])
}
