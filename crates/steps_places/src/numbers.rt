// The places of a table by number, rows ascending and calls ascending in a row, where each place counts as often as its call weighs: once, or as
// often as its body has candidates.
ghost use Rattle.std.specs.Prelude.{◌≤◌, ◌<◌, length};
ghost use Rattle.steps_partitions.specs.Partition.{most_partitions};
ghost use Rattle.steps_reach.specs.CallTable.{most_calls};
ghost use Rattle.steps_places.specs.PlaceNumbers.{WeightIs, RowWeightIs, TableWeightIs, RowAtIs, CallAtIs, PlaceAtIs};

use crate::bits::bit_at;
use steps_reach::table::MOST_CALLS;

// The weight of call j, if it is in the set.
fn weight_in(set: u64, weights: &[u32], j: usize) -> usize
    requires { j < most_calls }
    ensures { WeightIs set weights.now j result }
{
    if bit_at(set, j) != 1 {
        return 0;
    }
    if weights.len() <= j {
        return 0;
    }
    weights[j] as usize
}

// The weight of a row.
fn row_weight(set: u64, weights: &[u32]) -> usize
    ensures { RowWeightIs set weights.now most_calls result }
{
    let mut sum = 0;
    for j in 0..MOST_CALLS {
        sum += weight_in(set, weights, j);
    }
    sum
}

// The weight of the first rows of the table.
pub fn table_weight(found: &[u64], rows: usize, weights: &[u32]) -> usize
    requires { (rows ≤ most_partitions) × (rows ≤ length found.now) }
    ensures { TableWeightIs found.now weights.now rows result }
{
    let mut sum = 0;
    for r in 0..rows {
        sum += row_weight(found[r], weights);
    }
    sum
}

// A row or a call, and the number left within it.
#[derive(Clone, Copy)]
pub struct Offset {
    pub index: usize,
    pub left: usize,
}

// The row of this number, if there is one.
fn row_at(found: &[u64], rows: usize, weights: &[u32], number: usize) -> Option<Offset>
    requires { rows ≤ length found.now }
    ensures { RowAtIs found.now weights.now rows number result }
{
    let mut left = number;
    for r in 0..rows {
        let w = row_weight(found[r], weights);
        if left < w {
            return Some(Offset { index: r, left });
        }
        left -= w;
    }
    None
}

// The call of this number in a row, if there is one.
fn call_at(set: u64, weights: &[u32], number: usize) -> Option<Offset>
    ensures { CallAtIs set weights.now number result }
{
    let mut left = number;
    for j in 0..MOST_CALLS {
        let w = weight_in(set, weights, j);
        if left < w {
            return Some(Offset { index: j, left });
        }
        left -= w;
    }
    None
}

// A place: its row, its call, and the number left within what the call weighs.
#[derive(Clone, Copy)]
pub struct Placed {
    pub row: usize,
    pub call: usize,
    pub left: usize,
}

// The place of this number, if there is one.
pub fn place_at(found: &[u64], rows: usize, weights: &[u32], number: usize) -> Option<Placed>
    requires { rows ≤ length found.now }
    ensures { PlaceAtIs found.now weights.now rows number result }
{
    let at = row_at(found, rows, weights, number)?;
    let row = at.index;
    let c = call_at(found[row], weights, at.left)?;
    Some(Placed {
        row,
        call: c.index,
        left: c.left,
    })
}
