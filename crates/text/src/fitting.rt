// The program `fit_table`: from the bytes of its standard input to the bytes that it prints.
ghost use Rattle.text.specs.Inputs.{fit_text_limit};
ghost use Rattle.text.specs.Programs.{fit_printed, fit_text, FitTextPut};
ghost use Rattle.text.specs.Inside.{rest_printed};
ghost use Rattle.text.specs.Growing.{Room, Grown};

use super::cutting::record_end;
use super::growing::Text;
use super::lines::{put_checked, put_refused};
use fit::checking::check;
use rules::{SET_NUMBERS, refused};

// The longest input: the longest context, specification and controller.
pub const FIT_LIMIT: usize = 77848;
// No text is longer.
pub const FIT_TEXT: usize = 70;

// What is printed for three records.
fn put_verdict(context: &[u8], specification: &[u8], controller: &[u8], text: &mut Text)
    requires { Room fit_text_limit text.old }
    ensures { Grown (fit_printed context.now specification.now controller.now) text.old text.new }
{
    let mut sets = [0u64; SET_NUMBERS];
    let reply = check(context, specification, controller, &mut sets);
    put_checked(text, reply);
}

// The same for a context record and the bytes behind it.
fn put_rest(context: &[u8], rest: &[u8], text: &mut Text)
    requires { Room fit_text_limit text.old }
    ensures { Grown (rest_printed context.now rest.now) text.old text.new }
{
    let end = record_end(rest);
    put_verdict(context, &rest[..end], &rest[end..], text);
}

// The whole text of an input.
fn put_input(input: &[u8], text: &mut Text)
    requires { Room fit_text_limit text.old }
    ensures { Grown (fit_text input.now) text.old text.new }
{
    if FIT_LIMIT < input.len() {
        // Refusal 1 for record 0: the input is no record, so no `Refusal` names it.
        put_refused(text, refused(1, 0));
        return;
    }
    let end = record_end(input);
    put_rest(&input[..end], &input[end..], text);
}

// What the program prints for its input, at the front of a buffer of at least FIT_TEXT bytes; how many bytes that are. A shorter buffer stays as it was, and
// the answer is 0. (No option: what may not change, `FitTextPut`.)
pub fn fit_text(input: &[u8], out: &mut [u8]) -> usize
    ensures { FitTextPut input.now out.old result out.new }
{
    if out.len() < FIT_TEXT {
        return 0;
    }
    let mut text = Text { out, end: 0 };
    put_input(input, &mut text);
    text.end
}
