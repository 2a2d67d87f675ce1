// The lines that the programs print.
ghost use Rattle.std.specs.Prelude.{[], ◌∷◌, length};
ghost use Rattle.text.specs.Lines.{line, solved_line, refused_text, checked_text};
ghost use Rattle.text.specs.Growing.{Room, Grown};

use super::growing::Text;
use rules::Reply;

// The words of the output, each with the blanks around it.
const STATES: [u8; 7] = *b"states ";

const ROUNDS: [u8; 8] = *b" rounds ";

const REFUSED: [u8; 8] = *b"refused ";

const RECORD: [u8; 8] = *b" record ";

const ROW: [u8; 5] = *b" row ";

const FITS: [u8; 12] = *b"fits states ";

const BLANK: [u8; 1] = *b" ";

// "refused N record K row W rounds R"
pub(crate) fn put_refused(text: &mut Text, reply: Reply)
    requires { Room (length (refused_text reply)) text.old }
    ensures { Grown (refused_text reply) text.old text.new }
{
    text.put_field(&REFUSED, reply.number);
    text.put_field(&RECORD, reply.record);
    text.put_field(&ROW, reply.row);
    text.put_field(&ROUNDS, reply.rounds);
    text.put_end();
}

// "states N rounds R"
pub(crate) fn put_solved(text: &mut Text, states: u32, rounds: u32)
    requires { Room (length (solved_line states rounds)) text.old }
    ensures { Grown (solved_line states rounds) text.old text.new }
{
    text.put_field(&STATES, states);
    text.put_field(&ROUNDS, rounds);
    text.put_end();
}

// "state u v next"
pub(crate) fn put_step(text: &mut Text, state: u32, u: u32, v: u32, next: u32)
    requires { Room (length (line (state ∷ u ∷ v ∷ next ∷ []))) text.old }
    ensures { Grown (line (state ∷ u ∷ v ∷ next ∷ [])) text.old text.new }
{
    text.put_number(state);
    text.put_field(&BLANK, u);
    text.put_field(&BLANK, v);
    text.put_field(&BLANK, next);
    text.put_end();
}

// "fits states N", or the refusal. (By its number: C interface, the check gives the reply that C gets.)
pub(crate) fn put_checked(text: &mut Text, reply: Reply)
    requires { Room (length (checked_text reply)) text.old }
    ensures { Grown (checked_text reply) text.old text.new }
{
    if reply.number != 0 {
        put_refused(text, reply);
        return;
    }
    text.put_field(&FITS, reply.states);
    text.put_end();
}
