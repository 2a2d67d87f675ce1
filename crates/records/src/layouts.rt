// The three kinds of record: the numbers of the definition `layout_of`, and the counts and rows of a record of each kind.
ghost use Rattle.std.specs.Prelude.{◌≡◌, ◌<◌, get_or, []};
ghost use Rattle.rules.specs.Layouts.{layout_of};
ghost use Rattle.rules.specs.Records.{counts_in, row_count, rows_in};
ghost use Rattle.records.specs.Inside.{Held, LaidOut};

use super::numbers::numbers_at;
use rules::{CONTEXT, CONTROLLER, Kind, SPECIFICATION, STATE_LIMIT};

// The definition of this name as the code has it, with its sizes: the two bytes of the kind; the bytes of each count, and its limit; the bytes of each
// field of a row, and the place of the count that it stays below; the fields of the key; the limit of the rows; the bytes before the rows and of a row.
pub(crate) struct Layout {
    pub kind: [u8; 2],
    pub count_sizes: &'static [u8],
    pub limits: &'static [u16],
    pub field_sizes: &'static [u8],
    pub below: &'static [u8],
    pub key_size: usize,
    pub row_limit: usize,
    pub head_size: usize,
    pub row_size: usize,
}

static CONTEXT_LAYOUT: Layout = Layout {
    kind: CONTEXT,
    count_sizes: &[1, 1, 1, 1, 1],
    limits: &[8, 8, 4, 4, 64],
    field_sizes: &[1, 1, 1, 1, 1, 1],
    below: &[4, 0, 3, 2, 1, 4],
    key_size: 5,
    row_limit: 4096,
    head_size: 9,
    row_size: 6,
};

static SPECIFICATION_LAYOUT: Layout = Layout {
    kind: SPECIFICATION,
    count_sizes: &[1, 1, 1],
    limits: &[8, 8, 64],
    field_sizes: &[1, 1, 1, 1],
    below: &[2, 0, 1, 2],
    key_size: 3,
    row_limit: 1024,
    head_size: 7,
    row_size: 4,
};

static CONTROLLER_LAYOUT: Layout = Layout {
    kind: CONTROLLER,
    count_sizes: &[1, 1, 2],
    limits: &[4, 4, STATE_LIMIT],
    field_sizes: &[2, 1, 1, 2],
    below: &[2, 0, 1, 2],
    key_size: 3,
    row_limit: 8192,
    head_size: 8,
    row_size: 6,
};

// Bytes and kind come one by one throughout: public functions have them so (what may not change: `CountsRead`, `ContextRead` and `SpecificationRead`, which
// `RecordRead` is for a kind), and a kind is a constant. Its callers name one kind each: what is marked inline(always) in this crate is compiled for each
// kind by itself, with the sizes written out (without: half as fast, and the layouts would stay as data with addresses, which a loader writes).
#[inline(always)]
pub(crate) fn layout_of(kind: Kind) -> &'static Layout
    ensures { LaidOut (layout_of kind) result.now }
{
    match kind {
        Kind::Context => &CONTEXT_LAYOUT,
        Kind::Specification => &SPECIFICATION_LAYOUT,
        Kind::Controller => &CONTROLLER_LAYOUT,
    }
}

// The rows of a record of any length.
#[inline(always)]
pub(crate) fn row_count(b: &[u8], kind: Kind) -> usize
    ensures { result ≡ row_count (layout_of kind) b.now }
{
    let layout = layout_of(kind);
    if b.len() < layout.head_size {
        return 0;
    }
    (b.len() - layout.head_size) / layout.row_size
}

// The counts in their order; zeros after them.
#[inline(always)]
pub(crate) fn counts_of(b: &[u8], kind: Kind) -> [u32; 6]
    ensures { Held (counts_in (layout_of kind) b.now) result }
{
    numbers_at(b, 4, layout_of(kind).count_sizes)
}

// The fields of row k; zeros after them. They are read from the bytes of the row alone, whose number is known: so no byte is tested to be there.
#[inline(always)]
pub(crate) fn row_of(b: &[u8], kind: Kind, k: usize) -> [u32; 6]
    requires { k < row_count (layout_of kind) b.now }
    ensures { Held (get_or (rows_in (layout_of kind) b.now) k []) result }
{
    let layout = layout_of(kind);
    let at = layout.head_size + k * layout.row_size;
    numbers_at(&b[at..at + layout.row_size], 0, layout.field_sizes)
}
