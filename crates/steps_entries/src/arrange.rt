// The entries of a list that is complete, brought into the order that the index says.
ghost use Rattle.std.specs.Prelude.{◌≡◌, ◌+◌, ◌<◌, ◌≤◌, length};
ghost use Rattle.std.proofs.lemmas.List.Edits.{sets};
ghost use Rattle.steps_entries.specs.Arranging.{relabelled, RelabelIs, SettleIs, ArrangeIs};
ghost use Rattle.steps_entries.specs.Entries.{entry_from};
ghost use Rattle.steps.specs.Limits.{step_bytes, most_steps};
ghost use Rattle.steps_entries.specs.Entries.{list_room};

use crate::limits::{INDEX, STEP_BYTES};
use terms_bytes::bytes::{copy, get};

// Exchanges the entries at `i` and at `j`.
fn exchange(list: &mut [u8], i: usize, j: usize)
    requires { (i + step_bytes ≤ length list.old) × (j + step_bytes ≤ length list.old) }
    ensures { list.new ≡ sets (sets list.old i (entry_from list.old j)) j (entry_from list.old i) }
{
    let mut first = [0u8; STEP_BYTES];
    let mut second = [0u8; STEP_BYTES];
    copy(list, i, STEP_BYTES, &mut first, 0);
    copy(list, j, STEP_BYTES, &mut second, 0);
    copy(&second, 0, STEP_BYTES, list, i);
    copy(&first, 0, STEP_BYTES, list, j);
}

// What becomes of a byte of the index where the entry at `old` has moved to `new`.
fn moved(place: u8, old: u8, new: u8) -> u8
    ensures { result ≡ relabelled old new place }
{
    if place == old { new } else { place }
}

// The same for the bytes from `from` up to `end`. All are looked at, so that the processor can take many at once.
fn relabel(list: &mut [u8], from: usize, end: usize, old: u8, new: u8)
    requires { (from ≤ end) × (end ≤ length list.old) }
    ensures { RelabelIs list.old from end old new list.new }
{
    for k in from..end {
        let place = moved(list[k], old, new);
        list[k] = place;
    }
}

// Brings the i-th entry in order to the place i, those before it being in theirs. The entry that stood there goes where that one was.
fn put_in_place(list: &mut [u8], i: usize, count: usize)
    requires { (i < count) × (count ≤ most_steps) × (list_room ≤ length list.old) }
    ensures { SettleIs list.old i count list.new }
{
    let place = get(list, INDEX + i);
    if place as usize == i {
        return;
    }
    exchange(list, i * STEP_BYTES, place as usize * STEP_BYTES);
    relabel(list, INDEX + i + 1, INDEX + count, i as u8, place);
}

// Brings the first `count` entries into ascending byte order.
pub fn arrange(list: &mut [u8], count: usize)
    requires { (count ≤ most_steps) × (list_room ≤ length list.old) }
    ensures { ArrangeIs list.old count list.new }
{
    for i in 0..count {
        put_in_place(list, i, count);
    }
}
