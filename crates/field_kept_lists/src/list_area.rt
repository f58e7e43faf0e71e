// The area of one side's lists: the list at hand with its label, and kept lists with theirs. A label says whose list stands with it: a list that is
// there need not be made again.
ghost use Rattle.std.specs.Prelude.{true, ◌≡◌, ◌+◌, ◌≤◌, length};
ghost use Rattle.terms.specs.Limits.{name_count, longest_term};
ghost use Rattle.steps.specs.Limits.{most_steps};
ghost use Rattle.field_kept_lists.specs.ListArea.{label_bytes, label_at, LabelIs, count_in, PutsLabel};

use crate::kept_lists::{KEPT_BYTES, KEPT_LISTS};
use field_slots::chains::put_number;
use steps_entries::limits::LIST_ROOM;
use steps_entries::listed::alike;
use terms_bytes::bytes::{copy, get};
use terms_bytes::frame::size_at;
use terms_bytes::limits::LONGEST_TERM;

// The steps of the list at hand, which the lister is lent, its label, and the kept lists.
pub const LIST_AREA: usize = KEPT_LISTS + 26 * KEPT_BYTES;

// Where the label of the list at hand stands: behind its steps.
pub const LABEL: usize = LIST_ROOM;

// In a label: the new name, then the length of the part, the number of steps in two bytes, and the part.
const LABEL_SIZE: usize = 1;

const LABEL_COUNT: usize = 2;

const LABEL_PART: usize = 4;

pub const LABEL_BYTES: usize = LABEL_PART + LONGEST_TERM;

// In place of a new name: there is no list.
pub const NO_LIST: u8 = 255;

// Whether two parts are the same.
pub fn same_part(a: &[u8], b: &[u8]) -> bool
    ensures { result ≡ true → a.now ≡ b.now }
{
    a == b
}

// Whether the label at `p` is that of the list of this part for the new name `x`.
pub fn has_list(area: &[u8], p: usize, part: &[u8], x: usize) -> bool
    requires { (p + label_bytes ≤ length area.now) × (length part.now ≤ longest_term) }
    ensures { result ≡ true → LabelIs (label_at area.now p) part.now x }
{
    if get(area, p) as usize != x {
        return false;
    }
    if get(area, p + LABEL_SIZE) as usize != part.len() {
        return false;
    }
    alike(area, p + LABEL_PART, part, 0, part.len())
}

// How many steps the list has by its label.
pub fn steps_in(area: &[u8], p: usize) -> usize
    requires { p + label_bytes ≤ length area.now }
    ensures { result ≡ count_in (label_at area.now p) }
{
    size_at(area, p + LABEL_COUNT)
}

// Labels the list of a part, which has `n` steps.
pub fn put_label(area: &mut [u8], p: usize, part: &[u8], x: usize, n: usize)
    requires { (p + label_bytes ≤ length area.old) × (length part.now ≤ longest_term) × (x ≤ name_count) × (n ≤ most_steps) }
    ensures { PutsLabel area.old p part.now x n area.new }
{
    area[p] = x as u8;
    area[p + LABEL_SIZE] = part.len() as u8;
    put_number(area, p + LABEL_COUNT, n);
    copy(part, 0, part.len(), area, p + LABEL_PART);
}
