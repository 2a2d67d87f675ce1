// The rows of a context record: by number, of a state, by key. For bytes that are no legal record they answer for the rows that these would have.
ghost use Rattle.std.specs.Prelude.{◌≡◌, [], ◌<◌, get_or};
ghost use Rattle.rules.specs.Layouts.{context_layout};
ghost use Rattle.rules.specs.Records.{row_count, rows_in};
ghost use Rattle.rules.specs.Tables.{has_key, row_state};
ghost use Rattle.rules.specs.ContextRows.{first_row, ContextRowRead, StateRowsFound, RowFound};

use super::layouts::{layout_of, row_count, row_of};
use pairs::CtxState;
use rules::{ContextRow, Kind, StateRows};

// Row k, from its six bytes, none of which is tested to be there; all 0 where there is no such row (no option: what may not change, `ContextRowRead`).
pub fn context_row(b: &[u8], k: usize) -> ContextRow
    ensures { ContextRowRead b.now k result }
{
    let row = if k < row_count(b, Kind::Context) {
        let layout = layout_of(Kind::Context);
        let at = layout.head_size + k * layout.row_size;
        &b[at..at + 6]
    } else {
        &[0; 6]
    };
    ContextRow {
        state: CtxState(u32::from(row[0])),
        i: u32::from(row[1]),
        v: u32::from(row[2]),
        u: u32::from(row[3]),
        o: u32::from(row[4]),
        next: CtxState(u32::from(row[5])),
    }
}

// The state of row k.
fn state_of(b: &[u8], k: usize) -> usize
    requires { k < row_count context_layout b.now }
    ensures { result ≡ row_state (get_or (rows_in context_layout b.now) k []) }
{
    let layout = layout_of(Kind::Context);
    usize::from(b[layout.head_size + k * layout.row_size])
}

// The first row from row `from` on whose state is `a` or above; where there is none, the number of rows, or `from` where that is beyond them: the end
// of a range, so an option would be no plainer. (No chain,
// here and in `row_number`: a closure knows nothing of k < n, which reading row k requires.)
fn first_row(b: &[u8], a: usize, from: usize) -> usize
    ensures { result ≡ first_row (rows_in context_layout b.now) a from }
{
    let n = row_count(b, Kind::Context);
    for k in from..n {
        if a <= state_of(b, k) {
            return k;
        }
    }
    n.max(from)
}

// The rows of a state, from row `from` on.
pub fn state_rows(b: &[u8], state: CtxState, from: usize) -> StateRows
    ensures { StateRowsFound b.now state from result }
{
    let a = state.0 as usize;
    let first = first_row(b, a, from);
    StateRows {
        first,
        end: first_row(b, a + 1, first),
    }
}

// The row has the key. (Not `==` of two arrays: tried, and a key is found at half the speed.)
fn has_key(row: [u32; 6], a: u32, i: u32, v: u32, u: u32, o: u32) -> bool
    ensures { result ≡ has_key a i v u o row }
{
    row[0] == a && row[1] == i && row[2] == v && row[3] == u && row[4] == o
}

// The number of the row with this key; the number of rows where there is none. (No option: what may not change, `RowFound`.)
pub fn row_number(b: &[u8], state: CtxState, i: u32, v: u32, u: u32, o: u32) -> usize
    ensures { RowFound b.now state i v u o result }
{
    let a = state.0;
    let n = row_count(b, Kind::Context);
    for k in 0..n {
        if has_key(row_of(b, Kind::Context, k), a, i, v, u, o) {
            return k;
        }
    }
    n
}
