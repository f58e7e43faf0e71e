// Numbers of slots that are noted in the last bytes of a slot.
ghost use Rattle.std.specs.Prelude.{◌≡◌, ◌+◌, ◌*◌, ◌<◌, ◌≤◌, length};
ghost use Rattle.field_slots.specs.Chains.{put_number};
ghost use Rattle.field_slots.specs.Noted.{noted_count, note_place, note_at, ClearsSlot, NotesOne};
ghost use Rattle.field_pairs.specs.Slot.{slot_bytes};

use crate::chains::put_number;
use crate::slot::{NOTED, NOTES, SLOT_BYTES};
use terms_bytes::frame::size_at;

// The number that is noted in place `k` of slot `i`.
pub fn note_at(work: &[u8], i: usize, k: usize) -> usize
    requires { (slot_bytes * (i + 1) ≤ length work.now) × (k < noted_count) }
    ensures { result ≡ note_at work.now i k }
{
    size_at(work, SLOT_BYTES * i + NOTES + 2 * k)
}

// Notes the number `n` in place `k` of slot `i`.
pub fn put_note(work: &mut [u8], i: usize, k: usize, n: usize)
    requires { (slot_bytes * (i + 1) ≤ length work.old) × (k < noted_count) × (n < 65536) }
    ensures { work.new ≡ put_number work.old (note_place i k) n }
{
    put_number(work, SLOT_BYTES * i + NOTES + 2 * k, n);
}

// Nothing is noted in slot `i`.
pub fn clear_slot(work: &mut [u8], i: usize)
    requires { slot_bytes * (i + 1) ≤ length work.old }
    ensures { ClearsSlot work.old i work.new }
{
    for k in 0..NOTED {
        put_note(work, i, k, 0);
    }
}

// Notes the number `n` in slot `i`, unless it is there already or there is no room.
pub fn note_sole(work: &mut [u8], i: usize, n: usize)
    requires { (slot_bytes * (i + 1) ≤ length work.old) × (n < 65536) }
    ensures { NotesOne work.old i n work.new }
{
    for k in 0..NOTED {
        let m = note_at(work, i, k);
        if m == n {
            return;
        }
        if m == 0 {
            put_note(work, i, k, n);
            return;
        }
    }
}
