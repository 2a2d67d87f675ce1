// The two records of a skid: read in document 01's order, their counts side by side, and refused where they do not match.
ghost use Rattle.tables.specs.Skids.{RecordsRead, SidedBy, OutsideMatched, PairsFew, RoomFound};

use super::Sizes;
use pairs::PAIR_LIMIT;
use records::readers::read_record;
use rules::{Counts, Kind, Refusal};

// The counts of both records.
#[derive(Clone, Copy)]
pub struct SkidCounts {
    pub context: Counts,
    pub specification: Counts,
}

// Refusals 1 to 7 of the context, then of the specification. (Compiled by itself: put into its callers it runs out of registers.)
#[tactic(auto, using(crate::proofs::SkidReadLaws::skid_reads))]
#[inline(never)]
pub fn read_skid(context: &[u8], specification: &[u8]) -> Result<SkidCounts, Refusal>
    ensures { RecordsRead context.now specification.now result }
{
    let c = read_record(context, Kind::Context)?;
    let s = read_record(specification, Kind::Specification)?;
    Ok(SkidCounts {
        context: c,
        specification: s,
    })
}

impl SkidCounts {
    // Refusal 8 of the specification: it has not the inputs and the outputs of the context.
    pub fn same_outside(&self) -> Result<(), Refusal>
        ensures { OutsideMatched self.now result }
    {
        if self.context.i != self.specification.i || self.context.o != self.specification.o {
            return Err(Refusal::Codes(Kind::Specification));
        }
        Ok(())
    }

    // Refusal 9: there are more pairs of states than a set has places. Of counts of 32 bits the product does not overflow.
    #[tactic(auto, using(crate::proofs::SkidMatchLaws::pairs_over, crate::proofs::SkidMatchLaws::pairs_within))]
    pub fn few_pairs(&self) -> Result<(), Refusal>
        ensures { PairsFew self.now result }
    {
        if PAIR_LIMIT < self.context.states as u64 * self.specification.states as u64 {
            return Err(Refusal::Pairs);
        }
        Ok(())
    }
}

// Refusal 10: fewer numbers are lent than are needed.
pub fn room(lent: usize, needed: usize) -> Result<(), Refusal>
    ensures { RoomFound lent needed result }
{
    if lent < needed {
        return Err(Refusal::Room);
    }
    Ok(())
}

// The counts of context and specification, and the states of the table beside them. Of counts of 32 bits no product overflows. (Three
// parameters: what may not change, `SidedBy`.)
pub fn sizes_of(c: Counts, s: Counts, states: usize) -> Sizes
    ensures { SidedBy c s states result }
{
    Sizes {
        inputs: c.i as usize,
        outputs: c.o as usize,
        signals: c.u as usize,
        replies: c.v as usize,
        letters: c.u as usize * c.v as usize,
        steps: c.i as usize * c.o as usize,
        contexts: c.states as usize,
        specifications: s.states,
        states,
    }
}
