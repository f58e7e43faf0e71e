// Finding a situation by its bucket: each bucket's slots are chained, the last one first.
ghost use Rattle.std.specs.Prelude.{◌≡◌, ◌+◌, ◌*◌, ◌<◌, ◌≤◌, length, take};
ghost use Rattle.field_slots.specs.Chains.{rounds_to, spread, WordIs, MixIs, RoundsIs, put_number, BucketIs, LinkIs, FindsIn};
ghost use Rattle.field_slots.specs.Key.{slot_with};
ghost use Rattle.field_pairs.specs.Slot.{key_bytes, slot_bytes};

use crate::find::same_key;
use crate::slot::{HEAD, KEY_BYTES, LINK, PART_BYTES, SLOT_BYTES, hold};
use terms_bytes::frame::size_at;

// The sixteen bytes in which the second part begins, and those in which the pairs do.
const SECOND_ROUND: usize = 7;

const PAIRS_ROUND: usize = 14;

// How many times sixteen bytes take in the pairs.
const PAIRS_ROUNDS: usize = (KEY_BYTES - 16 * PAIRS_ROUND) / 16;

// Four bytes as a number.
pub fn word(key: &[u8], at: usize) -> usize
    requires { at + 4 ≤ length key.now }
    ensures { WordIs key.now at result }
{
    key[at] as usize
        + 256 * (key[at + 1] as usize)
        + 65536 * (key[at + 2] as usize)
        + 16777216 * (key[at + 3] as usize)
}

// Takes sixteen bytes into the number, modulo the prime 4294967291, though it is not wholly reduced.
fn mix(h: usize, key: &[u8], at: usize) -> usize
    requires { (h < 25769803776) × (at + 16 ≤ length key.now) }
    ensures { MixIs h key.now at result }
{
    let x = h * 252097829
        + word(key, at) * 261828187
        + word(key, at + 4) * 141421387
        + word(key, at + 8) * 173205089
        + word(key, at + 12) * 223606807;
    x % 4294967296 + 5 * (x / 4294967296)
}

// Takes `count` times sixteen bytes into the number, from those of number `from` on.
fn mix_rounds(h: usize, key: &[u8], from: usize, count: usize) -> usize
    requires { (h < 25769803776) × (16 * (from + count) ≤ key_bytes) × (key_bytes ≤ length key.now) }
    ensures { RoundsIs h key.now from count result }
{
    let mut x = h;
    for i in 0..count {
        x = mix(x, key, 16 * (from + i));
    }
    x
}

// How many times sixteen bytes reach byte `n` of a part: at most 8, for no part is longer than 112.
fn rounds_to(n: usize) -> usize
    ensures { result ≡ rounds_to n }
{
    n % 128 / 16 + 1
}

// Takes a key into a number: of each part the bytes up to its end, for what follows is filling, and the pairs.
fn spread(key: &[u8]) -> usize
    requires { key_bytes ≤ length key.now }
    ensures { result ≡ spread key.now }
{
    let last = key[KEY_BYTES - 1] as usize;
    let first = mix_rounds(last, key, 0, rounds_to(key[0] as usize));
    let both = mix_rounds(
        first,
        key,
        SECOND_ROUND,
        rounds_to(key[PART_BYTES] as usize + 1),
    );
    mix_rounds(both, key, PAIRS_ROUND, PAIRS_ROUNDS)
}

// The bucket of the key that the bytes begin with.
fn bucket(capacity: usize, key: &[u8]) -> usize
    requires { (1 ≤ capacity) × (key_bytes ≤ length key.now) }
    ensures { BucketIs capacity (take key_bytes key.now) result }
{
    spread(key) % capacity
}

// Writes a number in two bytes.
pub fn put_number(work: &mut [u8], at: usize, n: usize)
    requires { (at + 1 < length work.old) × (n < 65536) }
    ensures { work.new ≡ put_number work.old at n }
{
    work[at] = (n / 256) as u8;
    work[at + 1] = (n % 256) as u8;
}

// Puts slot `i`, which has just got its key, at the head of its bucket.
fn link(work: &mut [u8], capacity: usize, i: usize)
    requires { (i < capacity) × (capacity ≤ 4096) × (slot_bytes * capacity ≤ length work.old) }
    ensures { LinkIs capacity work.old i work.new }
{
    let at = SLOT_BYTES * i;
    let head = SLOT_BYTES * bucket(capacity, &work[at..]) + HEAD;
    let last = size_at(work, head);
    put_number(work, at + LINK, last);
    put_number(work, head, i + 1);
}

// Writes the key into slot `i` and chains it.
pub fn put(work: &mut [u8], capacity: usize, i: usize, key: &[u8])
    requires { (i < capacity) × (capacity ≤ 4096) × (slot_bytes * capacity ≤ length work.old) × (key_bytes ≤ length key.now) }
    ensures { LinkIs capacity (slot_with work.old i key.now) i work.new }
{
    hold(work, i, key);
    link(work, capacity, i);
}

// The number of the slot that holds the key, among the first `count`: along the chain of its bucket. A link that leads on or past them ends the search.
// Each turn goes where the last link led, so that no range says the turns.
pub fn find_chained(work: &[u8], capacity: usize, count: usize, key: &[u8]) -> Option<usize>
    requires { (1 ≤ capacity) × (count ≤ capacity) × (slot_bytes * capacity ≤ length work.now) × (key_bytes ≤ length key.now) }
    ensures { FindsIn capacity work.now count key.now result }
{
    let head = SLOT_BYTES * bucket(capacity, key) + HEAD;
    let mut link = size_at(work, head);
    let mut left = count;
    while 0 < link {
        if left < link {
            return None;
        }
        left = link - 1;
        if same_key(work, SLOT_BYTES * left, key) {
            return Some(left);
        }
        link = size_at(work, SLOT_BYTES * left + LINK);
    }
    None
}
