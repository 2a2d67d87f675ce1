// Next tables: the rows (state, x, y, next) of a specification or a controller, by place.
ghost use Rattle.std.specs.Prelude.{◌≡◌, ◌*◌, ◌<◌, length, replicate};
ghost use mathlib.Core.List.{foldl};
ghost use Rattle.rules.specs.Limits.{absent};
ghost use Rattle.rules.specs.Zeros.{NextZeroed};
ghost use Rattle.rules.specs.Layouts.{layout_of};
ghost use Rattle.rules.specs.Records.{rows_in};
ghost use Rattle.rules.specs.NextTables.{with_row, table_of};
ghost use Rattle.records.specs.Inside.{led_by, Small};
ghost use Rattle.rules.specs.Tables.{SpecificationFilled};

use super::layouts::{row_count, row_of};
use super::readers::record_counts;
use rules::{ABSENT, Kind, NEXT_NUMBERS};

// 65535 everywhere.
fn blank(table: &mut [u16])
    ensures { table.new ≡ replicate (length table.old) absent }
{
    table.fill(ABSENT);
}

// The step of a row. A place beyond the table, which no legal record has, is left out.
fn put_step(table: &mut [u16], row: [u32; 6], m: u32, n: u32)
    requires { Small row × (m < 65536) × (n < 65536) }
    ensures { table.new ≡ with_row m n table.old row }
{
    let width = n as usize;
    let block = m as usize * width;
    let s = row[0] as usize;
    let x = row[1] as usize;
    let y = row[2] as usize;
    let place = s * block + (x * width + y);
    if place < table.len() {
        table[place] = row[3] as u16;
    }
}

// The steps of all rows, upward.
#[inline(always)]
fn put_steps(b: &[u8], kind: Kind, m: u32, n: u32, table: &mut [u16])
    requires { (m < 65536) × (n < 65536) }
    ensures { table.new ≡ foldl (with_row m n) table.old (rows_in (layout_of kind) b.now) }
{
    let rows = row_count(b, kind);
    for k in 0..rows {
        put_step(table, row_of(b, kind, k), m, n);
    }
}

// The next table of the rows at the front of the lent numbers, and its size; nothing is written where they are too few.
#[inline(always)]
pub(crate) fn fill_table(
    b: &[u8],
    kind: Kind,
    m: u32,
    n: u32,
    states: u32,
    table: &mut [u16],
) -> usize
    requires { (m < 65536) × (n < 65536) × (states < 65536) }
    ensures { (result ≡ states * (m * n)) × (table.new
        ≡ led_by (table_of m n states (rows_in (layout_of kind) b.now)) table.old) }
{
    let size = states as usize * (m as usize * n as usize);
    if size <= table.len() {
        blank(&mut table[..size]);
        put_steps(b, kind, m, n, &mut table[..size]);
    }
    size
}

// Zeros from a place up to 8,192. A table that is too short stays whole, and so does one where the place is beyond. (The twin of `zero_sets` of crate
// `tables` at another type: what both share is the library's `fill`, and the law `zeroed_part`.)
pub fn zero_after(next: &mut [u16], size: usize)
    ensures { NextZeroed next.old size next.new }
{
    if size <= NEXT_NUMBERS && NEXT_NUMBERS <= next.len() {
        next[size..NEXT_NUMBERS].fill(0);
    }
}

// The specification's next states: where the bytes are a legal record and the table is long enough, its step from c on i and o stands at
// place c·I·O + i·O + o, and 65535 where it has none. What is behind them stays; a table that is too short stays whole.
pub fn fill_specification(b: &[u8], table: &mut [u16])
    ensures { SpecificationFilled b.now table.old table.new }
{
    let counts = record_counts(b, Kind::Specification);
    fill_table(
        b,
        Kind::Specification,
        counts.i,
        counts.o,
        counts.states,
        table,
    );
}
