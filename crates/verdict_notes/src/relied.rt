// What is noted in a slot. Exploration notes situations that are the only answer to a step: if one is struck out, so is this one. Passes note what a
// situation that survives relies on: for each demand the situations that its first left answer leads to. While those are left, the situation still
// survives. In both cases its steps need not be listed again.
ghost use Rattle.std.specs.Prelude.{◌+◌, ◌*◌, ◌<◌, ◌≤◌, length};
ghost use Rattle.field_pairs.specs.Slot.{slot_bytes};
ghost use Rattle.verdict_notes.specs.Notes.{Numbers, WithIs, NoteIs, ReliesOnLeftIs, SoleStruckIs, ClearsNotes};

use field_slots::notes::{note_at, put_note};
use field_slots::slot::{NOTED, left_at};

// The first `count` places have numbers of slots, plus 1. The first place is 0 once there were more than places.
#[derive(Clone, Copy)]
pub struct Relied {
    pub count: usize,
    pub slots: [usize; NOTED],
}

// Nothing yet: every place has the situation's own number.
pub fn relied_none(i: usize) -> Relied
    requires { i + 1 < 65536 }
    ensures { Numbers result }
{
    Relied {
        count: 0,
        slots: [i + 1; NOTED],
    }
}

// Slot `j` as well.
pub fn relied_with(relied: Relied, j: usize) -> Relied
    requires { Numbers relied × (j + 1 < 65536) }
    ensures { WithIs relied j result }
{
    let count = relied.count;
    let mut slots = relied.slots;
    if slots[..count].contains(&(j + 1)) {
        return relied;
    }
    if count == NOTED {
        slots[0] = 0;
        return Relied { count, slots };
    }
    slots[count] = j + 1;
    Relied {
        count: count + 1,
        slots,
    }
}

// Notes in slot `i` what its situation relies on.
pub fn note(work: &mut [u8], i: usize, relied: Relied)
    requires { (slot_bytes * (i + 1) ≤ length work.old) × Numbers relied }
    ensures { NoteIs work.old i relied work.new }
{
    let slots = relied.slots;
    for k in 0..NOTED {
        put_note(work, i, k, slots[k]);
    }
}

// Whether something is noted in slot `i`, and all of it is left.
pub fn relies_on_left(work: &[u8], count: usize, i: usize) -> bool
    requires { (i < count) × (slot_bytes * count ≤ length work.now) }
    ensures { ReliesOnLeftIs work.now count i result }
{
    for k in 0..NOTED {
        let n = note_at(work, i, k);
        if n == 0 {
            return false;
        }
        if count < n {
            return false;
        }
        if !left_at(work, n - 1) {
            return false;
        }
    }
    true
}

// Whether a situation that is noted in slot `i` is struck out.
pub fn sole_struck(work: &[u8], count: usize, i: usize) -> bool
    requires { (i < count) × (slot_bytes * count ≤ length work.now) }
    ensures { SoleStruckIs work.now count i result }
{
    for k in 0..NOTED {
        let number = note_at(work, i, k);
        // the numbers stand before the places that are free
        if number == 0 {
            return false;
        }
        if count < number {
            return false;
        }
        if !left_at(work, number - 1) {
            return true;
        }
    }
    false
}

// Nothing is noted in the first `count` slots.
pub fn clear_notes(work: &mut [u8], count: usize)
    requires { slot_bytes * count ≤ length work.old }
    ensures { ClearsNotes count work.old work.new }
{
    for i in 0..count {
        put_note(work, i, 0, 0);
    }
}
