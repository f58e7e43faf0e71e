// The table of the places of a call. Matches lead to rows of smaller number, so that each row is closed once, the last one first.
ghost use Rattle.std.specs.Prelude.{◌≡◌, ◌≤◌, ◌<◌, length};
ghost use Rattle.terms.specs.Limits.{greatest_arity};
ghost use Rattle.steps_tallies.specs.Tally.{BodiesTallied};
ghost use Rattle.steps_partitions.specs.Partition.{most_partitions, continuations};
ghost use Rattle.steps_reach.specs.CallTable.{most_calls};
ghost use Rattle.steps_places.specs.PlaceWalks.{OpenPlaceIs, CloseRowIs, Cleared, StartedIs, FindPlacesIs};

use crate::bits::{next_pending, with_bit};
use crate::walk::{Spot, find_term};
use steps_partitions::partition::ways;
use steps_reach::table::CALL_BYTES;
use steps_tallies::bodies::body_at;
use steps_tallies::tally::{body_tally, place_of};
use terms_bytes::bytes::get;
use terms_bytes::limits::{LONGEST_TERM, MOST_DEFINITIONS};

// Puts what a place goes on to into the table.
fn open_place(question: &[u8], bodies: &[u32], spot: Spot, table: &[u8], found: &mut [u64])
    requires { (spot.call < most_calls) × (spot.count ≤ greatest_arity) × (length found.old ≡ most_partitions) × BodiesTallied question.now bodies.now }
    ensures { OpenPlaceIs question.now spot.call spot.row spot.count table.now found.old found.new }
{
    let call = spot.call;
    let k = get(table, CALL_BYTES * call) as usize;
    if MOST_DEFINITIONS <= k {
        return;
    }
    let body = body_at(question, place_of(question, bodies, k));
    if LONGEST_TERM < body.len() {
        return;
    }
    find_term(question, body, body_tally(bodies, k), 0, spot, table, found);
}

// Opens every place of a row, with those that this adds to the row.
fn close_row(
    question: &[u8],
    bodies: &[u32],
    row: usize,
    count: usize,
    table: &[u8],
    found: &mut [u64],
)
    requires { (row < continuations count 0) × (count ≤ greatest_arity) × (length found.old ≡ most_partitions) × BodiesTallied question.now bodies.now }
    ensures { CloseRowIs question.now row count table.now found.old found.new }
{
    let mut done: u64 = 0;
    while let Some(j) = next_pending(found[row], done) {
        done = with_bit(done, j);
        open_place(
            question,
            bodies,
            Spot {
                call: j,
                row,
                count,
            },
            table,
            found,
        );
    }
}

// Empties the first rows.
fn clear(found: &mut [u64], rows: usize)
    requires { rows ≤ length found.old }
    ensures { Cleared found.new rows }
{
    found[..rows].fill(0);
}

// The table with the first call alone, under no condition: the last row.
fn start(found: &mut [u64], rows: usize)
    requires { (0 < rows) × (rows ≤ length found.old) }
    ensures { StartedIs found.new rows }
{
    clear(found, rows);
    let last = rows - 1;
    found[last] = with_bit(0, 0);
}

// Fills the table with the places of the first call, which has so many names, in the table of calls.
pub fn find_places(question: &[u8], bodies: &[u32], count: usize, table: &[u8], found: &mut [u64])
    requires { (count ≤ greatest_arity) × (length found.old ≡ most_partitions) × BodiesTallied question.now bodies.now }
    ensures { FindPlacesIs question.now count table.now found.new }
{
    let rows = ways(count, 0);
    start(found, rows);
    for row in (0..rows).rev() {
        close_row(question, bodies, row, count, table, found);
    }
}
