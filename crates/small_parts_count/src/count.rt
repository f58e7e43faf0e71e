// The census of one length.
ghost use Rattle.small_parts_count.specs.Counts.{CountIs};

use crate::tally::{CAPACITY, Tally, tally_pairs};
use field_slots::slot::SLOT_BYTES;
use small_parts_words::parts::{GREATEST_LENGTH, collect_parts};

// No length up to the greatest has more parts.
const MOST_PARTS: usize = 209;

// A slot for each situation of the capacity.
const WORK_BYTES: usize = SLOT_BYTES * CAPACITY as usize;

// Counts the ordered pairs of parts of `size` bytes, unless that length is above the greatest.
pub fn count(size: usize) -> Option<Tally>
    ensures { CountIs size result }
{
    if GREATEST_LENGTH < size {
        return None;
    }
    let mut kept = [0usize; MOST_PARTS];
    let mut work = [0u8; WORK_BYTES];
    let parts = collect_parts(size, &mut kept);
    Some(tally_pairs(size, &kept[..parts], &mut work))
}
