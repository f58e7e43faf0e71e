// The layout of a slot of the work area, which holds one situation, and what is read and written of a slot as a whole.
ghost use Rattle.std.specs.Prelude.{◌≡◌, ◌<◌, ◌≤◌, length, set};
ghost use Rattle.field_pairs.specs.Slot.{key_bytes, struck_at, LeftAtIs};
ghost use Rattle.field_slots.specs.Key.{slot_with};

use field_pairs::pairs::PAIR_COUNT;
use terms_bytes::bytes::{copy, get};
use terms_bytes::limits::LONGEST_TERM;

// The first part, its length before it and filled with 0, and the second one in the same way.
pub const PART_BYTES: usize = 1 + LONGEST_TERM;

// The apart pairs as bits: where they begin, and how many bytes they take.
pub const BITS: usize = PART_BYTES + PART_BYTES;

pub const OCTETS: usize = PAIR_COUNT / 8;

// The bytes up to here say which situation it is.
pub const KEY_BYTES: usize = BITS + OCTETS;

// 0 while the situation is left, and 1 once it is struck out.
const STRUCK: usize = KEY_BYTES;

// The head of a bucket, two bytes.
pub const HEAD: usize = STRUCK + 1;

// The link of the chain in which the slot stands, two bytes.
pub const LINK: usize = HEAD + 2;

// Numbers of slots that are noted, two bytes each: where they begin, and how many there are.
pub const NOTES: usize = LINK + 2;

pub const NOTED: usize = 5;

pub const SLOT_BYTES: usize = 256;

// Writes the key of a situation into slot `i`; the situation is left.
pub fn hold(work: &mut [u8], i: usize, key: &[u8])
    requires { (struck_at i < length work.old) × (key_bytes ≤ length key.now) }
    ensures { work.new ≡ slot_with work.old i key.now }
{
    let at = SLOT_BYTES * i;
    copy(key, 0, KEY_BYTES, work, at);
    work[at + STRUCK] = 0;
}

// Whether situation `i` is left.
pub fn left_at(work: &[u8], i: usize) -> bool
    requires { struck_at i < length work.now }
    ensures { LeftAtIs work.now i result }
{
    get(work, SLOT_BYTES * i + STRUCK) == 0
}

// Strikes out situation `i`.
pub fn strike(work: &mut [u8], i: usize)
    requires { struck_at i < length work.old }
    ensures { work.new ≡ set work.old (struck_at i) 1 }
{
    work[SLOT_BYTES * i + STRUCK] = 1;
}
