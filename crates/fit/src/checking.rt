// The fit check of three records: they are read, refused or matched, and judged.
ghost use Rattle.std.specs.Prelude.{◌≡◌, ◌*◌, ◌≤◌, length, take};
ghost use Rattle.rules.specs.Limits.{set_numbers};
ghost use Rattle.rules.specs.Tables.{specification_table};
ghost use Rattle.verdicts.specs.Check.{Checked};
ghost use Rattle.fit.specs.Ready.{Ready, Judged};
ghost use Rattle.fit.specs.Matched.{LettersMatched, match_refusal, Matched, checked_reply};

use super::verdict::judge;
use super::verdict_reply;
use records::readers::read_controller;
use records::tables::fill_specification;
use rules::{Counts, Kind, NEXT_NUMBERS, Refusal, Reply, SET_NUMBERS};
use tables::skids::{SkidCounts, read_skid, room, sizes_of};
use tables::{SPECIFICATION_NUMBERS, Sizes};
use verdicts::Verdict;

// Refusal 8 of the controller: U and V are not those of the context.
fn same_letters(c: Counts, t: Counts) -> Result<(), Refusal>
    ensures { LettersMatched c t result }
{
    if c.u != t.u || c.v != t.v {
        return Err(Refusal::Codes(Kind::Controller));
    }
    Ok(())
}

// Refusals 8, 9 and 10 of three records that were read, in document 01's order: of their counts, and of so many lent numbers.
#[tactic(auto, using(crate::proofs::MatchLaws::product_over))]
fn match_refusal(skid: &SkidCounts, t: Counts, lent: usize) -> Result<(), Refusal>
    ensures { result ≡ match_refusal skid.now t lent }
{
    skid.same_outside()?;
    same_letters(skid.context, t)?;
    skid.few_pairs()?;
    room(lent, SET_NUMBERS)
}

// The verdict on a next table, of the two records of a skid: the specification becomes a next table. (The parts come one by one: `judge` makes the skid
// of them.)
fn check_read(
    context: &[u8],
    specification: &[u8],
    next: &[u16],
    sizes: Sizes,
    sets: &mut [u64],
) -> Verdict
    requires { Ready sizes context.now (specification_table specification.now) next.now
        × (length (specification_table specification.now) ≡ sizes.specifications * sizes.steps) × (set_numbers ≤ length sets.old) }
    ensures { Judged sizes context.now (specification_table specification.now) next.now sets.old result sets.new }
{
    let mut table = [0u16; SPECIFICATION_NUMBERS];
    fill_specification(specification, &mut table);
    let size = sizes.specifications as usize * sizes.steps;
    judge(context, &table[..size], next, sizes, sets)
}

// The same of a next table that stands at the front of the lent one.
fn check_matched(
    context: &[u8],
    specification: &[u8],
    next: &[u16],
    sizes: Sizes,
    sets: &mut [u64],
) -> Verdict
    requires { Matched sizes context.now specification.now next.now sets.old }
    ensures { Judged sizes context.now (specification_table specification.now)
        (take (sizes.states * sizes.letters) next.now) sets.old result sets.new }
{
    let size = sizes.states * sizes.letters;
    check_read(context, specification, &next[..size], sizes, sets)
}

// The reply where no record is refused, or the refusal.
fn checked(
    context: &[u8],
    specification: &[u8],
    controller: &[u8],
    sets: &mut [u64],
) -> Result<Reply, Refusal>
    ensures { Checked context.now specification.now controller.now sets.old (checked_reply result) sets.new }
{
    let skid = read_skid(context, specification)?;
    let mut next = [0u16; NEXT_NUMBERS];
    let t = read_controller(controller, &mut next)?;
    match_refusal(&skid, t, sets.len())?;
    let sizes = sizes_of(skid.context, skid.specification, t.states as usize);
    let verdict = check_matched(context, specification, &next, sizes, sets);
    Ok(verdict_reply(verdict, t.states))
}

// The check of three records. Numbers are written where the reply is 0, 14, 15 or 16, else none.
pub fn check(context: &[u8], specification: &[u8], controller: &[u8], sets: &mut [u64]) -> Reply
    ensures { Checked context.now specification.now controller.now sets.old result sets.new }
{
    match checked(context, specification, controller, sets) {
        Ok(reply) => reply,
        Err(refusal) => Reply::from(refusal),
    }
}
