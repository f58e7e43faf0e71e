// The unprefixed calls of a body, put into the table of places, each beneath the matches above it.
ghost use Rattle.std.specs.Prelude.{◌≡◌, ◌≤◌, ◌<◌, length, get_or};
ghost use Rattle.terms.specs.Limits.{longest_term, greatest_arity};
ghost use Rattle.steps_tallies.specs.Tally.{TallyIs};
ghost use Rattle.steps_partitions.specs.Partition.{most_partitions};
ghost use Rattle.steps_reach.specs.CallTable.{most_calls};
ghost use Rattle.steps_places.specs.PlaceWalks.{SlotFound, CallNumberIs, MatchedIs, FindTermIs};

use crate::bits::with_bit;
use steps_partitions::partition::merged_row;
use steps_reach::reach::called_names;
use steps_reach::table::{MOST_CALLS, is_call};
use steps_tallies::bodies::arities_of;
use steps_tallies::tally::end_at;
use terms_bytes::bytes::get;
use terms_bytes::limits::GREATEST_ARITY;
use terms_bytes::tags::{CALL, CHOICE, MATCH};

// Where a walk is: in the body of the call of this number, beneath matches that make the partition in this row, of so many names.
#[derive(Clone, Copy)]
pub struct Spot {
    pub call: usize,
    pub row: usize,
    pub count: usize,
}

// The first of the first call's names that is this one.
fn slot_of(table: &[u8], count: usize, name: u8) -> Option<usize>
    requires { count ≤ greatest_arity }
    ensures { SlotFound table.now count name result }
{
    for j in 0..count {
        if get(table, 1 + j) == name {
            return Some(j);
        }
    }
    None
}

// The number of a call in the table of calls, if it is there.
fn call_number(table: &[u8], definition: usize, names: &[u8], count: usize) -> Option<usize>
    requires { count ≤ greatest_arity }
    ensures { CallNumberIs table.now definition names.now count result }
{
    for i in 0..MOST_CALLS {
        if is_call(table, i, definition, names, count) {
            return Some(i);
        }
    }
    None
}

// The row behind the match at `at`.
fn matched(question: &[u8], src: &[u8], at: usize, spot: Spot, table: &[u8]) -> usize
    requires { (at < longest_term) × (spot.call < most_calls) × (spot.count ≤ greatest_arity) }
    ensures { MatchedIs question.now src.now at spot.call spot.row spot.count table.now result }
{
    let row = spot.row;
    let count = spot.count;
    let names = called_names(question, src, at + 1, 2, table, spot.call);
    let Some(i) = slot_of(table, count, names[0]) else {
        return row;
    };
    let Some(j) = slot_of(table, count, names[1]) else {
        return row;
    };
    merged_row(row, count, i, j)
}

// Puts the call at `at` into the table.
fn put_place(question: &[u8], src: &[u8], at: usize, spot: Spot, table: &[u8], found: &mut [u64])
    requires { (at < length src.now) × (8 < get_or src.now at 0) × (length src.now ≤ longest_term) × (spot.call < most_calls) × (spot.count ≤ greatest_arity) × (length found.old ≡ most_partitions) }
    ensures { FindTermIs question.now src.now at spot.call spot.row spot.count table.now found.old found.new }
{
    let row = spot.row;
    let k = get(src, at + 1) as usize;
    let n = get(arities_of(question), k) as usize;
    if GREATEST_ARITY < n {
        return;
    }
    let names = called_names(question, src, at + 2, n, table, spot.call);
    let Some(i) = call_number(table, k, &names, n) else {
        return;
    };
    if found.len() <= row {
        return;
    }
    found[row] = with_bit(found[row], i);
}

// Puts the unprefixed calls of the term at `at` into the table.
pub fn find_term(
    question: &[u8],
    src: &[u8],
    tally: &[u32],
    at: usize,
    spot: Spot,
    table: &[u8],
    found: &mut [u64],
)
    requires { (length src.now ≤ longest_term) × (spot.call < most_calls) × (spot.count ≤ greatest_arity) × (length found.old ≡ most_partitions) × TallyIs question.now src.now 0 tally.now }
    ensures { FindTermIs question.now src.now at spot.call spot.row spot.count table.now found.old found.new }
{
    if src.len() <= at {
        return;
    }
    let t = src[at];
    if t == CALL {
        put_place(question, src, at, spot, table, found);
        return;
    }
    if t == MATCH {
        let call = spot.call;
        let count = spot.count;
        let row = matched(question, src, at, spot, table);
        let behind = Spot { call, row, count };
        find_term(question, src, tally, at + 3, behind, table, found);
        return;
    }
    if t != CHOICE {
        return;
    }
    let left = at + 1;
    if src.len() <= left {
        return;
    }
    find_term(question, src, tally, left, spot, table, found);
    let right = end_at(tally, left);
    find_term(question, src, tally, right, spot, table, found);
}
