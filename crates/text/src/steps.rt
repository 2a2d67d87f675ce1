// The lines of a table: one for each present step, in table order.
ghost use Rattle.std.specs.Prelude.{◌*◌, ◌≤◌, [], ◌∷◌, length, take};
ghost use Rattle.text.specs.Lines.{solved_text};
ghost use Rattle.text.specs.Inside.{step_lines, Codes, Tabled};
ghost use Rattle.text.specs.Growing.{Room, Grown};

use super::growing::Text;
use super::lines::{put_refused, put_solved, put_step};
use rules::{ABSENT, Reply};

// The line of place p, where the table has a step.
fn put_place(text: &mut Text, p: usize, u: usize, v: usize, to: u16)
    requires codes { Codes u v p }
    requires room { Room (length (step_lines u v p (to ∷ []))) text.old }
    ensures { Grown (step_lines u v p (to ∷ [])) text.old text.new }
{
    if to == ABSENT {
        return;
    }
    put_step(
        text,
        (p / (u * v)) as u32,
        (p / v % u) as u32,
        (p % v) as u32,
        to as u32,
    );
}

// The lines of the first `size` places.
fn put_steps(text: &mut Text, next: &[u16], size: usize, u: usize, v: usize)
    requires codes { Codes u v size × (size ≤ length next.now) }
    requires room { Room (length (step_lines u v 0 (take size next.now))) text.old }
    ensures { Grown (step_lines u v 0 (take size next.now)) text.old text.new }
{
    for p in 0..size {
        put_place(text, p, u, v, next[p]);
    }
}

// The answer of solving: its first line and its table, or the refusal. (By its number: C interface, solving gives the reply that C gets.)
pub(crate) fn put_answer(text: &mut Text, u: u32, v: u32, reply: Reply, next: &[u16])
    requires tabled { Tabled u v reply next.now }
    requires room { Room (length (solved_text u v reply next.now)) text.old }
    ensures { Grown (solved_text u v reply next.now) text.old text.new }
{
    if reply.number != 0 {
        put_refused(text, reply);
        return;
    }
    put_solved(text, reply.states, reply.rounds);
    let size = reply.states as usize * (u as usize * v as usize);
    put_steps(text, next, size, u as usize, v as usize);
}
