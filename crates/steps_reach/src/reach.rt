// The calls that opening a call reaches through unprefixed calls : a body and the body of a call that stands unprefixed in it are
// walked by turns. The calls that may still be opened fall, and then the bytes left.
ghost use Rattle.std.specs.Prelude.{◌≡◌, ◌≤◌, ◌<◌, length, get_or};
ghost use Rattle.terms.specs.Limits.{longest_term, greatest_arity, most_definitions};
ghost use Rattle.steps_tallies.specs.Tally.{TallyIs, BodiesTallied};
ghost use Rattle.steps_reach.specs.CallTable.{most_calls, table_bytes};
ghost use Rattle.steps_reach.specs.Walks.{CalledNamesIs, ReachTermIs, ReachCallsIs};

use crate::table::{CALL_BYTES, MOST_CALLS, is_listed, names_in, put_call};
use steps_tallies::bodies::{arities_of, body_at, call_at};
use steps_tallies::tally::{body_tally, end_at, place_of};
use terms_bytes::bytes::get;
use terms_bytes::limits::{GREATEST_ARITY, LONGEST_TERM};
use terms_bytes::tags::{CALL, CHOICE, MATCH};

// The names of the call whose name bytes stand at `at` in the body of the call in row `row`.
pub fn called_names(
    question: &[u8],
    src: &[u8],
    at: usize,
    count: usize,
    table: &[u8],
    row: usize,
) -> [u8; GREATEST_ARITY]
    requires { (at ≤ 256) × (count ≤ greatest_arity) × (row < most_calls) }
    ensures { CalledNamesIs question.now src.now at count table.now row result }
{
    let k = get(table, CALL_BYTES * row) as usize;
    let arity = get(arities_of(question), k) as usize;
    names_in(src, at, count, table, row, arity)
}

// The call at `at` in the body of the call in row `row`: if it is new, it is put into row `size`, and its body is walked. Answers how many calls the
// table has then, if it can hold them.
#[cycle(open_call_reach_term)]
fn open_call(
    question: &[u8],
    bodies: &[u32],
    src: &[u8],
    at: usize,
    row: usize,
    table: &mut [u8],
    size: usize,
) -> Option<usize>
    requires { (at < length src.now) × (8 < get_or src.now at 0) × (length src.now ≤ longest_term) × (row < size) × (size ≤ most_calls) × (length table.old ≡ table_bytes) × BodiesTallied question.now bodies.now }
    ensures { ReachTermIs question.now src.now at row table.old size table.new result }
{
    let Ok(o) = call_at(question, bodies, src, at, 1) else {
        return Some(size);
    };
    let k = o.definition;
    let n = o.arity;
    let names = called_names(question, src, at + 2, n, table, row);
    if is_listed(table, size, k, &names, n) {
        return Some(size);
    }
    if MOST_CALLS <= size {
        return None;
    }
    put_call(table, size, k as u8, &names, n);
    let body = body_at(question, o.place);
    let numbers = body_tally(bodies, k);
    reach_term(question, bodies, body, numbers, 0, size, table, size + 1)
}

// The unprefixed calls of the term at `at` in the body of the call in row `row`.
#[cycle(open_call_reach_term)]
fn reach_term(
    question: &[u8],
    bodies: &[u32],
    src: &[u8],
    tally: &[u32],
    at: usize,
    row: usize,
    table: &mut [u8],
    size: usize,
) -> Option<usize>
    requires { (length src.now ≤ longest_term) × (row < size) × (size ≤ most_calls) × (length table.old ≡ table_bytes) × TallyIs question.now src.now 0 tally.now × BodiesTallied question.now bodies.now }
    ensures { ReachTermIs question.now src.now at row table.old size table.new result }
{
    if src.len() <= at {
        return Some(size);
    }
    let t = src[at];
    if t == MATCH {
        return reach_term(question, bodies, src, tally, at + 3, row, table, size);
    }
    if t == CALL {
        return open_call(question, bodies, src, at, row, table, size);
    }
    if t != CHOICE {
        return Some(size);
    }
    let left = at + 1;
    if src.len() <= left {
        return Some(size);
    }
    let n = reach_term(question, bodies, src, tally, left, row, table, size)?;
    reach_term(
        question,
        bodies,
        src,
        tally,
        end_at(tally, left),
        row,
        table,
        n,
    )
}

// Fills the table with the calls that opening this call reaches, itself first, and answers how many they are, if the table can hold them.
pub fn reach_calls(
    question: &[u8],
    bodies: &[u32],
    definition: usize,
    names: &[u8],
    table: &mut [u8],
) -> Option<usize>
    requires { (definition < most_definitions) × (length names.now ≤ greatest_arity) × (length table.old ≡ table_bytes) × BodiesTallied question.now bodies.now }
    ensures { ReachCallsIs question.now definition names.now table.new result }
{
    put_call(table, 0, definition as u8, names, names.len());
    let body = body_at(question, place_of(question, bodies, definition));
    if LONGEST_TERM < body.len() {
        return Some(1);
    }
    let numbers = body_tally(bodies, definition);
    reach_term(question, bodies, body, numbers, 0, 0, table, 1)
}
