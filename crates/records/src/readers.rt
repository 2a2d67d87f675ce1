// Reading of the three records, and the counts of a record.
ghost use Rattle.rules.specs.Counts.{CountsRead};
ghost use Rattle.rules.specs.Reading.{RecordRead, ControllerRead};

use super::faults::fault_of;
use super::layouts::{counts_of, row_count};
use super::tables::{fill_table, zero_after};
use rules::{Counts, Kind, NEXT_NUMBERS, Refusal};

// The counts that the bytes of a record say, whether it is legal or not.
#[inline(always)]
pub fn record_counts(b: &[u8], kind: Kind) -> Counts
    ensures { CountsRead kind b.now result }
{
    let c = counts_of(b, kind);
    let rows = row_count(b, kind);
    match kind {
        Kind::Context => Counts {
            i: c[0],
            o: c[1],
            u: c[2],
            v: c[3],
            states: c[4],
            rows: rows,
        },
        Kind::Specification => Counts {
            i: c[0],
            o: c[1],
            u: 0,
            v: 0,
            states: c[2],
            rows: rows,
        },
        Kind::Controller => Counts {
            i: 0,
            o: 0,
            u: c[0],
            v: c[1],
            states: c[2],
            rows: rows,
        },
    }
}

// A record of any kind: its counts, or its refusal.
#[tactic(auto, using(crate::proofs::ReadLaws::record_refused, crate::proofs::ReadLaws::record_read))]
#[inline(always)]
pub fn read_record(b: &[u8], kind: Kind) -> Result<Counts, Refusal>
    ensures { RecordRead kind b.now result }
{
    match fault_of(b, kind) {
        Ok(()) => Ok(record_counts(b, kind)),
        Err(fault) => Err(Refusal::Record(kind, fault)),
    }
}

// A controller's steps go into the lent next table: nothing is written on a refusal.
pub fn read_controller(b: &[u8], next: &mut [u16]) -> Result<Counts, Refusal>
    ensures { ControllerRead b.now next.old result next.new }
{
    let counts = read_record(b, Kind::Controller)?;
    if next.len() < NEXT_NUMBERS {
        return Err(Refusal::Room);
    }
    let size = fill_table(b, Kind::Controller, counts.u, counts.v, counts.states, next);
    zero_after(next, size);
    Ok(counts)
}
