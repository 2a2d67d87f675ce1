// The answer of two records, by mode or by name: they are read, refused or matched, and solved.
ghost use Rattle.rules.specs.Tables.{specification_table};
ghost use Rattle.answers.specs.Solve.{solution, Solved, SolvedFor};
ghost use Rattle.tables.specs.Workable.{skid_in, Workable};
ghost use Rattle.tables.specs.Ready.{ready_skid};
ghost use Rattle.solver.specs.Long.{Long};
ghost use Rattle.solver.specs.Inside.{Answered, AnsweredIn};
ghost use Rattle.solver.specs.Matched.{Matching, Matched, reply_of};

use super::answer_reply;
use super::buffers::Buffers;
use super::discovery::plain;
use super::unblocked::unblocked;
use answers::{Answer, Wanted, mode_of};
use records::tables::fill_specification;
use rules::{NEXT_NUMBERS, Refusal, Reply, SET_NUMBERS, STATE_LIMIT};
use tables::ready::ReadySkid;
use tables::rows::index_rows;
use tables::skids::{SkidCounts, read_skid, room, sizes_of};
use tables::{INDEX, SPECIFICATION_NUMBERS, Sizes};

// Refusals 8, 9 and 10 of two records that were read, with these counts, and of so many lent numbers.
#[tactic(auto, using(crate::proofs::MatchLaws::product_over))]
fn match_counts(k: &SkidCounts, sets: usize, next: usize) -> Result<(), Refusal>
    ensures { Matching k.now sets next result }
{
    k.same_outside()?;
    k.few_pairs()?;
    room(sets, SET_NUMBERS)?;
    room(next, NEXT_NUMBERS)
}

// The answer that is wanted.
fn solve_wanted(wanted: Wanted, skid: &ReadySkid, lent: &mut Buffers) -> Answer
    ensures { AnsweredIn (solution wanted (ready_skid skid.now)) result lent.new lent.old }
{
    match wanted {
        Wanted::Plain => plain(skid, lent),
        Wanted::Unblocked => unblocked(skid, lent),
    }
}

// The same of a context's record and a specification's next table: the rows of each context state are found first, and skid and buffers are ready. The two
// slices become one value here and no further up (tried: in the longer functions above the proof does not close of what is lent back).
fn solve_tables(
    wanted: Wanted,
    context: &[u8],
    specification: &[u16],
    sizes: Sizes,
    sets: &mut [u64],
    next: &mut [u16],
) -> Answer
    requires { Workable sizes context.now specification.now × Long sets.old next.old }
    ensures { Answered (solution wanted (skid_in sizes context.now specification.now)) result
        sets.new next.new sets.old next.old }
{
    let mut index = [0usize; INDEX];
    index_rows(context, sizes.contexts as u32, &mut index);
    let skid = ReadySkid {
        context,
        index: &index,
        specification,
        sizes,
    };
    let mut lent = Buffers { sets, next };
    solve_wanted(wanted, &skid, &mut lent)
}

// The same of two records that match: the specification becomes a next table.
fn solve_matched(
    wanted: Wanted,
    context: &[u8],
    specification: &[u8],
    sizes: Sizes,
    sets: &mut [u64],
    next: &mut [u16],
) -> Answer
    requires { Matched sizes context.now specification.now sets.old next.old }
    ensures { Answered (solution wanted (skid_in sizes context.now (specification_table specification.now))) result
        sets.new next.new sets.old next.old }
{
    let mut table = [0u16; SPECIFICATION_NUMBERS];
    fill_specification(specification, &mut table);
    let size = sizes.specifications as usize * sizes.steps;
    solve_tables(wanted, context, &table[..size], sizes, sets, next)
}

// The answer of two records, or the refusal, at which nothing is written.
fn solve_records(
    wanted: Wanted,
    context: &[u8],
    specification: &[u8],
    sets: &mut [u64],
    next: &mut [u16],
) -> Result<Answer, Refusal>
    ensures { SolvedFor wanted context.now specification.now sets.old next.old (reply_of result)
        sets.new next.new }
{
    let k = read_skid(context, specification)?;
    match_counts(&k, sets.len(), next.len())?;
    let sizes = sizes_of(k.context, k.specification, STATE_LIMIT as usize);
    Ok(solve_matched(wanted, context, specification, sizes, sets, next))
}

// The answer of two records. Numbers are written where the reply is 0, 11 or 12, else none. The parameters are those of the entry for C.
pub fn solve_for(
    wanted: Wanted,
    context: &[u8],
    specification: &[u8],
    sets: &mut [u64],
    next: &mut [u16],
) -> Reply
    ensures { SolvedFor wanted context.now specification.now sets.old next.old result
        sets.new next.new }
{
    match solve_records(wanted, context, specification, sets, next) {
        Ok(answer) => answer_reply(answer),
        Err(refusal) => Reply::from(refusal),
    }
}

// The answer that a mode asks for, of two records. An unknown mode is refused before the records are looked at.
pub fn solve(
    mode: u32,
    context: &[u8],
    specification: &[u8],
    sets: &mut [u64],
    next: &mut [u16],
) -> Reply
    ensures { Solved mode context.now specification.now sets.old next.old result
        sets.new next.new }
{
    let Some(wanted) = mode_of(mode) else {
        return Reply::from(Refusal::Mode);
    };
    solve_for(wanted, context, specification, sets, next)
}
