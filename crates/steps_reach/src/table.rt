// The table of the calls that a search has reached, in which each stands once: nine bytes for a call, its definition and its names.
ghost use Rattle.std.specs.Prelude.{◌≡◌, ◌+◌, ◌*◌, ◌≤◌, ◌<◌, length, take, set};
ghost use Rattle.std.proofs.lemmas.List.Edits.{sets};
ghost use Rattle.terms.specs.Limits.{greatest_arity};
ghost use Rattle.steps_reach.specs.CallTable.{most_calls, table_bytes, name_in, NamesIs, SameNamesIs, HeldIs, ListedIs};

use terms_bytes::bytes::{copy, get};
use terms_bytes::limits::GREATEST_ARITY;

// The limit of request 2026-01: opening a call reaches at most so many calls that differ, itself included.
pub const MOST_CALLS: usize = 64;

// The bytes of a row.
pub const CALL_BYTES: usize = 9;

// What the name byte `b` in the body of the call in row `row` stands for: the last of the call's names is the innermost parameter.
fn name_in(table: &[u8], row: usize, arity: usize, b: u8) -> u8
    requires { (row < most_calls) × (arity < 256) }
    ensures { result ≡ name_in table.now row arity b }
{
    if b < 128 {
        return 0;
    }
    let j = (b - 128) as usize;
    if arity <= j {
        return 0;
    }
    get(table, CALL_BYTES * row + (arity - j))
}

// The names of the call whose `count` name bytes stand at `at` in that body.
pub fn names_in(
    src: &[u8],
    at: usize,
    count: usize,
    table: &[u8],
    row: usize,
    arity: usize,
) -> [u8; GREATEST_ARITY]
    requires { (at ≤ 256) × (count ≤ greatest_arity) × (row < most_calls) × (arity < 256) }
    ensures { NamesIs src.now at count table.now row arity result }
{
    let mut names = [0u8; GREATEST_ARITY];
    for j in 0..count {
        names[j] = name_in(table, row, arity, get(src, at + j));
    }
    names
}

// Whether the call in row `row` has these names.
fn same_names(table: &[u8], row: usize, names: &[u8], count: usize) -> bool
    requires { (row < most_calls) × (count ≤ greatest_arity) }
    ensures { SameNamesIs table.now row names.now count result }
{
    for j in 0..count {
        if get(table, CALL_BYTES * row + 1 + j) != get(names, j) {
            return false;
        }
    }
    true
}

// Whether row `row` has this call.
pub fn is_call(table: &[u8], row: usize, definition: usize, names: &[u8], count: usize) -> bool
    requires { (row < most_calls) × (count ≤ greatest_arity) }
    ensures { HeldIs table.now row definition names.now count result }
{
    let k = get(table, CALL_BYTES * row) as usize;
    if k != definition {
        return false;
    }
    same_names(table, row, names, count)
}

// Whether the call is in one of the first `size` rows.
pub fn is_listed(table: &[u8], size: usize, definition: usize, names: &[u8], count: usize) -> bool
    requires { (size ≤ most_calls) × (count ≤ greatest_arity) }
    ensures { ListedIs table.now size definition names.now count result }
{
    for i in 0..size {
        if is_call(table, i, definition, names, count) {
            return true;
        }
    }
    false
}

// Puts the call into row `size`.
pub fn put_call(table: &mut [u8], size: usize, definition: u8, names: &[u8], count: usize)
    requires { (size < most_calls) × (length table.old ≡ table_bytes) × (count ≤ greatest_arity) × (count ≤ length names.now) }
    ensures { table.new ≡ sets (set table.old (9 * size) definition) (9 * size + 1) (take count names.now) }
{
    let from = CALL_BYTES * size;
    table[from] = definition;
    copy(names, 0, count, table, from + 1);
}
