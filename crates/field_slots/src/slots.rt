// A situation in the work area: its two parts, and its apart pairs as bits.
ghost use Rattle.std.specs.Prelude.{◌≡◌, ◌+◌, ◌<◌, ◌≤◌, length, replicate};
ghost use Rattle.std.proofs.lemmas.List.Edits.{sets};
ghost use Rattle.field_slots.specs.Key.{PartIs, FirstPartIs, SecondPartIs, ApartFlagsIs, BitIs, OctetIs, Packs, bits_of, Unpacks};
ghost use Rattle.field_pairs.specs.PairFlags.{pair_count};
ghost use Rattle.field_pairs.specs.Slot.{octets, key_bytes};
ghost use Rattle.field_slots.specs.Update.{kept_flags};

use crate::chains::word;
use crate::slot::{BITS, OCTETS, PART_BYTES};
use field_pairs::pairs::{PAIR_COUNT, pair_of};
use terms_bytes::bytes::get;

// The part whose length stands at `at`; nothing where it runs past the end.
pub fn part_at(area: &[u8], at: usize) -> &[u8]
    requires { at ≤ length area.now }
    ensures { PartIs area.now at result.now }
{
    let n = get(area, at) as usize;
    let from = at + 1;
    let end = from + n;
    if area.len() < end {
        return &area[0..0];
    }
    &area[from..end]
}

pub fn first_part(area: &[u8], at: usize) -> &[u8]
    requires { at + key_bytes ≤ length area.now }
    ensures { FirstPartIs area.now at result.now }
{
    part_at(area, at)
}

pub fn second_part(area: &[u8], at: usize) -> &[u8]
    requires { at + key_bytes ≤ length area.now }
    ensures { SecondPartIs area.now at result.now }
{
    part_at(area, at + PART_BYTES)
}

// Pair `i` as a bit, if both names are free.
fn kept_bit(flags: &[u8], free: &[u8], i: usize) -> u8
    requires { (i < pair_count) × (length flags.now ≡ pair_count) }
    ensures { BitIs (kept_flags flags.now free.now) i result }
{
    if flags[i] == 0 {
        return 0;
    }
    let p = pair_of(i);
    if get(free, p.first) == 0 {
        return 0;
    }
    if get(free, p.second) == 0 {
        return 0;
    }
    1
}

// Eight pairs in a byte, the lowest bit first, those of which both names are free. Most often none of them is apart.
fn octet(flags: &[u8], free: &[u8], k: usize) -> u8
    requires { (k < octets) × (length flags.now ≡ pair_count) }
    ensures { OctetIs (kept_flags flags.now free.now) k result }
{
    let i = 8 * k;
    if word(flags, i) + word(flags, i + 4) == 0 {
        return 0;
    }
    let low = kept_bit(flags, free, i)
        + 2 * kept_bit(flags, free, i + 1)
        + 4 * kept_bit(flags, free, i + 2)
        + 8 * kept_bit(flags, free, i + 3);
    let high = kept_bit(flags, free, i + 4)
        + 2 * kept_bit(flags, free, i + 5)
        + 4 * kept_bit(flags, free, i + 6)
        + 8 * kept_bit(flags, free, i + 7);
    low + 16 * high
}

// Writes the pairs of which both names are free as bits from `put` on.
pub fn pack(flags: &[u8], free: &[u8], out: &mut [u8], put: usize)
    requires { (length flags.now ≡ pair_count) × (put + octets ≤ length out.old) }
    ensures { Packs (kept_flags flags.now free.now) out.old put out.new }
{
    for k in 0..OCTETS {
        let b = octet(flags, free, k);
        out[put + k] = b;
    }
}

// Writes the bits of a byte as flags from `at` on.
fn unpack_octet(b: u8, at: usize, flags: &mut [u8])
    requires { at + 8 ≤ length flags.old }
    ensures { flags.new ≡ sets flags.old at (bits_of b) }
{
    flags[at] = b % 2;
    flags[at + 1] = b / 2 % 2;
    flags[at + 2] = b / 4 % 2;
    flags[at + 3] = b / 8 % 2;
    flags[at + 4] = b / 16 % 2;
    flags[at + 5] = b / 32 % 2;
    flags[at + 6] = b / 64 % 2;
    flags[at + 7] = b / 128 % 2;
}

// Reads the flags, none of which is set, from the bits at `at`.
fn unpack(area: &[u8], at: usize, flags: &mut [u8])
    requires { (at + octets ≤ length area.now) × (flags.old ≡ replicate pair_count 0) }
    ensures { Unpacks area.now at flags.new }
{
    for k in 0..OCTETS {
        let b = area[at + k];
        if b != 0 {
            unpack_octet(b, 8 * k, flags);
        }
    }
}

// The apart pairs of the situation at `at`.
pub fn apart_flags(area: &[u8], at: usize) -> [u8; PAIR_COUNT]
    requires { at + key_bytes ≤ length area.now }
    ensures { ApartFlagsIs area.now at result }
{
    let mut flags = [0u8; PAIR_COUNT];
    unpack(area, at + BITS, &mut flags);
    flags
}
