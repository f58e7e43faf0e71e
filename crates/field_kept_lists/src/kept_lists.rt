// The kept lists of an area: those of parts with few steps, for a part that comes again after other parts, on this side or on the other.
ghost use Rattle.std.specs.Prelude.{◌≤◌, ◌<◌, length};
ghost use Rattle.terms.specs.Limits.{name_count, longest_term};
ghost use Rattle.steps.specs.Limits.{most_steps};
ghost use Rattle.field_kept_lists.specs.ListArea.{list_area, kept_steps, label_at, count_in, KeptPlace, Brings, Keeps};

use crate::list_area::{LABEL, LABEL_BYTES, put_label, steps_in};
use field_slots::chains::word;
use steps_entries::limits::STEP_BYTES;
use terms_bytes::bytes::copy;

// Where the kept lists begin, 26 of them. A kept list has a label, and behind it room for six steps.
pub const KEPT_LISTS: usize = LABEL + LABEL_BYTES;

pub const KEPT_BYTES: usize = LABEL_BYTES + KEPT_STEPS * STEP_BYTES;

const KEPT_STEPS: usize = 6;

// A number for a part: of each four bytes and the sums before them, and once more of the last four.
fn weighed(part: &[u8]) -> usize
    requires { length part.now ≤ longest_term }
    ensures { result < 4398046511104 }
{
    let mut sum = 0;
    let mut sums = 0;
    for k in 0..part.len() / 4 {
        sum += word(part, 4 * k);
        sums += sum;
    }
    if part.len() < 4 {
        return sums;
    }
    sums + 3 * word(part, part.len() - 4)
}

// Where the list of a part is kept, for whatever new name, if it is: parts may have the same place. The prime 65521 is just below 26 times 2521.
pub fn kept_place(part: &[u8]) -> usize
    requires { length part.now ≤ longest_term }
    ensures { KeptPlace result }
{
    let h = weighed(part) + 5 * part.len();
    KEPT_LISTS + KEPT_BYTES * (h * 40503 % 65521 / 2521)
}

// Brings the list that is kept at `p`, which is that of this part for the new name `x`, to hand. Answers its number of steps.
pub fn bring(area: &mut [u8], p: usize, part: &[u8], x: usize) -> usize
    requires { (list_area ≤ length area.old) × KeptPlace p × (count_in (label_at area.old p) ≤ kept_steps) × (length part.now ≤ longest_term) × (x ≤ name_count) }
    ensures { Brings area.old p part.now x area.old result area.new }
{
    let n = steps_in(area, p);
    let from = p + LABEL_BYTES;
    area.copy_within(from..from + STEP_BYTES * n, 0);
    put_label(area, LABEL, part, x, n);
    n
}

// The same for a list that is kept in the area of the other side. Two functions, for one area cannot be lent both to be read and to be written.
pub fn copy_kept(other: &[u8], p: usize, part: &[u8], x: usize, area: &mut [u8]) -> usize
    requires { (list_area ≤ length other.now) × KeptPlace p × (count_in (label_at other.now p) ≤ kept_steps) × (length part.now ≤ longest_term) × (x ≤ name_count) × (list_area ≤ length area.old) }
    ensures { Brings other.now p part.now x area.old result area.new }
{
    let n = steps_in(other, p);
    copy(other, p + LABEL_BYTES, STEP_BYTES * n, area, 0);
    put_label(area, LABEL, part, x, n);
    n
}

// Keeps the list at hand, of `n` steps, at `p` too, if it is short.
pub fn keep(area: &mut [u8], p: usize, part: &[u8], x: usize, n: usize)
    requires { (list_area ≤ length area.old) × KeptPlace p × (length part.now ≤ longest_term) × (x ≤ name_count) × (n ≤ most_steps) }
    ensures { Keeps area.old part.now x n area.new }
{
    if KEPT_STEPS < n {
        return;
    }
    area.copy_within(0..STEP_BYTES * n, p + LABEL_BYTES);
    put_label(area, p, part, x, n);
}
