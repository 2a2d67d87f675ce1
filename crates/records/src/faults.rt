// Refusals 1 to 7: what is wrong with a record.
ghost use Rattle.std.specs.Prelude.{◌≡◌, [], not, ◌||◌, ◌+◌, ◌-◌, ◌%◌, ◌<◌, ◌≤◌, ltb, eqb, length, take};
ghost use Rattle.pairs.specs.Scans.{same};
ghost use Rattle.rules.specs.Layouts.{layout_of};
ghost use Rattle.rules.specs.Records.{length_in, kind_in, head_size, row_size, counts_in, row_count, rows_in};
ghost use Rattle.rules.specs.Faults.{in_limits, Limited, fields_below, head_fault, row_fault, rows_fault, fault};
ghost use Rattle.records.specs.Inside.{Places, fields_of, key_before};

use super::layouts::{counts_of, layout_of, row_count, row_of};
use super::numbers::number_at;
use rules::{Fault, Kind};
use std::cmp::Ordering;

// Fewer than 4 bytes, or the length is not the bytes that follow it.
fn is_wrong_length(b: &[u8]) -> bool
    ensures { result ≡ (ltb (length b.now) 4 || not (eqb (length_in b.now + 2) (length b.now))) }
{
    if b.len() < 4 {
        return true;
    }
    let said = number_at(b, 0, 2) as usize;
    said + 2 != b.len()
}

#[inline(always)]
fn is_other_kind(b: &[u8], kind: Kind) -> bool
    requires { 4 ≤ length b.now }
    ensures { result ≡ not (same (kind_in b.now) (layout_of kind).kind) }
{
    [b[2], b[3]] != layout_of(kind).kind
}

// Counts cut short, or a broken last row.
#[inline(always)]
fn is_cut(b: &[u8], kind: Kind) -> bool
    ensures { result ≡ (ltb (length b.now) (head_size (layout_of kind))
        || not (eqb ((length b.now - head_size (layout_of kind)) % row_size (layout_of kind)) 0)) }
{
    let layout = layout_of(kind);
    if b.len() < layout.head_size {
        return true;
    }
    (b.len() - layout.head_size) % layout.row_size != 0
}

// Each of the first numbers is at least 1 and at most its limit.
fn is_within(counts: [u32; 6], limits: &[u16]) -> bool
    requires { length limits.now ≤ 6 }
    ensures { result ≡ in_limits (take (length limits.now) counts) limits.now }
{
    limits.iter().zip(counts.iter()).all(|(limit, count)| 1 <= *count
        && *count <= u32::from(*limit))
}

// The counts are within the limits of the kind.
#[inline(always)]
pub fn is_in_limits(counts: [u32; 6], kind: Kind) -> bool
    ensures { Limited kind counts result }
{
    is_within(counts, layout_of(kind).limits)
}

// A count or the number of rows outside its limit.
#[inline(always)]
fn is_outside(b: &[u8], kind: Kind) -> bool
    ensures { result ≡ (not (in_limits (counts_in (layout_of kind) b.now) (layout_of kind).limits)
        || ltb (layout_of kind).row_limit (row_count (layout_of kind) b.now)) }
{
    let counts = counts_of(b, kind);
    if is_in_limits(counts, kind) {
        let layout = layout_of(kind);
        layout.row_limit < row_count(b, kind)
    } else {
        true
    }
}

// Refusals 1 to 4, in their order.
#[inline(always)]
fn head_fault(b: &[u8], kind: Kind) -> Result<(), Fault>
    ensures { result ≡ head_fault (layout_of kind) b.now }
{
    if is_wrong_length(b) {
        return Err(Fault::Length);
    }
    if is_other_kind(b, kind) {
        return Err(Fault::Kind);
    }
    if is_cut(b, kind) {
        return Err(Fault::Cut);
    }
    if is_outside(b, kind) {
        return Err(Fault::Limit);
    }
    Ok(())
}

// Each field is below the count whose place is given for it. (By place: a closure would have to look the count up by a place that it knows nothing of.)
#[inline(always)]
fn is_below(row: [u32; 6], counts: [u32; 6], places: &[u8]) -> bool
    requires { Places places.now }
    ensures { result ≡ fields_below counts (take (length places.now) row) places.now }
{
    for j in 0..places.len() {
        let k = places[j] as usize;
        if counts[k] <= row[j] {
            return false;
        }
    }
    true
}

#[inline(always)]
fn has_codes_below(row: [u32; 6], counts: [u32; 6], kind: Kind) -> bool
    ensures { result ≡ fields_below counts (fields_of (layout_of kind) row) (layout_of kind).below }
{
    is_below(row, counts, layout_of(kind).below)
}

// Row k, after the row before it, which is not looked at where k is 0: refusals 5, 6 and 7, in their order. (No option for it: k says
// whether it is there, and is needed in the reply.)
#[inline(always)]
fn row_fault(
    kind: Kind,
    counts: [u32; 6],
    k: u32,
    before: [u32; 6],
    row: [u32; 6],
) -> Result<(), Fault>
    ensures { result ≡ row_fault (layout_of kind) counts k (key_before (layout_of kind) k before) (fields_of (layout_of kind) row) }
{
    if !has_codes_below(row, counts, kind) {
        return Err(Fault::Code(k));
    }
    if k == 0 {
        return Ok(());
    }
    let n = layout_of(kind).key_size;
    match row[..n].cmp(&before[..n]) {
        Ordering::Greater => Ok(()),
        Ordering::Equal => Err(Fault::EqualKey(k)),
        Ordering::Less => Err(Fault::LowerKey(k)),
    }
}

// The first faulty row decides. Each row is read once.
#[inline(always)]
fn rows_fault(b: &[u8], kind: Kind) -> Result<(), Fault>
    requires { row_count (layout_of kind) b.now < 65536 }
    ensures { result ≡ rows_fault (layout_of kind) (counts_in (layout_of kind) b.now) 0 [] (rows_in (layout_of kind) b.now) }
{
    let counts = counts_of(b, kind);
    let n = row_count(b, kind);
    let mut before = [0u32; 6];
    for k in 0..n {
        let row = row_of(b, kind, k);
        row_fault(kind, counts, k as u32, before, row)?;
        before = row;
    }
    Ok(())
}

// What is wrong with a record.
#[inline(always)]
pub(crate) fn fault_of(b: &[u8], kind: Kind) -> Result<(), Fault>
    ensures { result ≡ fault (layout_of kind) b.now }
{
    head_fault(b, kind)?;
    rows_fault(b, kind)
}
