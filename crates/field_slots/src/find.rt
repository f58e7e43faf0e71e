// Whether a slot holds a situation.
ghost use Rattle.std.specs.Prelude.{◌+◌, ◌≤◌, length};
ghost use Rattle.field_slots.specs.Key.{SameKeyIs};
ghost use Rattle.field_pairs.specs.Slot.{key_bytes};

use crate::slot::KEY_BYTES;

// Whether the bytes from `at` on begin with the key.
pub fn same_key(area: &[u8], at: usize, key: &[u8]) -> bool
    requires { (at + key_bytes ≤ length area.now) × (key_bytes ≤ length key.now) }
    ensures { SameKeyIs area.now at key.now result }
{
    &area[at..at + KEY_BYTES] == &key[..KEY_BYTES]
}
