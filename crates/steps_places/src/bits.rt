// Sets of up to 64 calls, a bit for each.
ghost use Rattle.std.specs.Prelude.{◌≡◌, ◌<◌};
ghost use Rattle.steps_reach.specs.CallTable.{most_calls};
ghost use Rattle.steps_places.specs.PlaceTable.{bit};
ghost use Rattle.steps_places.specs.PlaceWalks.{WithBit, PendingIs, NextIs};

use steps_reach::table::MOST_CALLS;

// Bit j.
pub fn bit_at(set: u64, j: usize) -> u64
    requires { j < most_calls }
    ensures { result ≡ bit set j }
{
    (set >> j) % 2
}

// The set with j.
pub fn with_bit(set: u64, j: usize) -> u64
    requires { j < most_calls }
    ensures { WithBit set j result }
{
    set | (1 << j)
}

// Whether the set has j and the other has not.
fn is_pending(set: u64, done: u64, j: usize) -> bool
    requires { j < most_calls }
    ensures { PendingIs set done j result }
{
    if bit_at(set, j) != 1 {
        return false;
    }
    if bit_at(done, j) == 1 {
        return false;
    }
    true
}

// The first member of a set that the other has not, if there is one.
pub fn next_pending(set: u64, done: u64) -> Option<usize>
    ensures { NextIs set done result }
{
    for j in 0..MOST_CALLS {
        if is_pending(set, done, j) {
            return Some(j);
        }
    }
    None
}
