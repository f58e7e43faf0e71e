// Checks 1 and 2, for every operation with a capacity.
ghost use Rattle.std.specs.Prelude.{◌≡◌, ◌*◌};
ghost use Rattle.verdict.specs.Judge.{slot_bytes, within_capacity};
ghost use Rattle.verdict_capacity.specs.Capacities.{capacity_answer};

use field_slots::slot::SLOT_BYTES;
use terms_bytes::answer::Refusal;

const GREATEST_CAPACITY: u64 = 4096;

// Whether the capacity and a work area of `room` bytes pass checks 1 and 2.
pub fn capacity_check(capacity: u64, room: usize) -> Result<(), Refusal>
    ensures { capacity_answer result ≡ within_capacity capacity (slot_bytes * capacity) room }
{
    if capacity < 1 {
        return Err(Refusal::Capacity);
    }
    if GREATEST_CAPACITY < capacity {
        return Err(Refusal::Capacity);
    }
    let slots = capacity as usize;
    if room < SLOT_BYTES * slots {
        return Err(Refusal::WorkArea);
    }
    Ok(())
}
