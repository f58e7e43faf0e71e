// The names of the bytes that a walk is at. A called body is walked in place, so its parameters stand for the names that its call gives; a table
// says which. Nothing is copied or shifted when a call is opened, and no name can be captured.
ghost use Rattle.std.specs.Prelude.{◌≡◌, ◌+◌, ◌≤◌, ◌<◌, length};
ghost use Rattle.terms.specs.Limits.{greatest_arity};
ghost use Rattle.terms_bytes.specs.NameTable.{table_names};
ghost use Rattle.steps_conditions.specs.Names.{most_binders, name_slots, turn, CalledIs, LevelsIs, UnchangedIs, FreeBytes, BoundBytes, TableIs};

use terms_bytes::bytes::get;
use terms_bytes::limits::{GREATEST_ARITY, LONGEST_TERM, TABLE_NAMES};

// A slot for each name that may stand free and for each binder.
pub const NAME_SLOTS: usize = TABLE_NAMES + GREATEST_ARITY + LONGEST_TERM;

// The slot of the outermost binder: TABLE_NAMES.
const FIRST_BINDER: u8 = TABLE_NAMES as u8;

// A binder by its index, counted from the innermost, as a binder by its level, counted from the outermost, and the other way round: binders are
// numbered from `from` on, and from `to` on in the answer. What is below `from` is a free name and stays.
fn turned(w: usize, from: usize, to: usize, binders: usize) -> usize
    requires { (to ≤ 128) × (binders ≤ 128) }
    ensures { result ≡ turn from to binders w }
{
    if w < from {
        return w;
    }
    let j = w - from;
    if j < binders {
        return to + (binders - 1 - j);
    }
    0
}

// The slot of the name byte `b` under so many binders.
pub fn slot_of(b: u8, binders: usize) -> usize
    requires { binders ≤ most_binders }
    ensures { result ≡ turn 128 table_names binders b }
{
    turned(b as usize, 128, TABLE_NAMES, binders)
}

// The table for the body of a call whose `count` names stand at `at`: each parameter stands for what the call's name stands for.
pub fn called(src: &[u8], at: usize, count: usize, binders: usize, names: &[u8]) -> [u8; NAME_SLOTS]
    requires { (count ≤ greatest_arity) × (binders ≤ most_binders) × (at ≤ 256) }
    ensures { CalledIs src.now at count binders names.now result }
{
    let mut inner = [0u8; NAME_SLOTS];
    for j in 0..count {
        let s = slot_of(get(src, at + j), binders);
        inner[TABLE_NAMES + j] = get(names, s);
    }
    inner
}

// The byte of the name in `slot` under `levels` restrictions: `turned` in bytes, of which the processor takes many at once.
fn byte_of(slot: u8, levels: u8) -> u8
    requires { levels ≤ 128 }
    ensures { result ≡ turn table_names 128 levels slot }
{
    if slot < FIRST_BINDER {
        return slot;
    }
    let j = slot - FIRST_BINDER;
    if j < levels {
        return 128 + (levels - 1 - j);
    }
    0
}

// Whether the bytes of names stay when `levels` restrictions are written around what has so many binders: a free name's byte is the same under any.
fn same_levels(binders: usize, levels: usize) -> bool
    ensures { LevelsIs binders levels result }
{
    if binders == 0 {
        return true;
    }
    levels == binders
}

// Whether each name stays as it is: the restrictions that are written change no byte, and each slot has itself.
pub fn unchanged(names: &[u8], binders: usize, levels: usize) -> bool
    requires { (binders ≤ most_binders) × (length names.now ≡ name_slots) }
    ensures { UnchangedIs names.now binders levels result }
{
    if !same_levels(binders, levels) {
        return false;
    }
    let mut same = true;
    for i in 0..TABLE_NAMES + binders {
        same = same & (names[i] == i as u8);
    }
    same
}

// The bytes of the free names.
fn free_bytes(names: &[u8], levels: u8, table: &mut [u8])
    requires { (levels ≤ 128) × (length names.now ≡ name_slots) × (length table.old ≡ name_slots) }
    ensures { FreeBytes names.now levels table.old table.new }
{
    for i in 0..TABLE_NAMES {
        let b = byte_of(names[i], levels);
        table[i] = b;
    }
}

// The bytes of the binders, from the innermost outward.
fn bound_bytes(names: &[u8], binders: usize, levels: u8, table: &mut [u8])
    requires { (binders ≤ most_binders) × (levels ≤ 128) × (length names.now ≡ name_slots) × (length table.old ≡ name_slots) }
    ensures { BoundBytes names.now binders levels table.old table.new }
{
    for j in 0..binders {
        let b = byte_of(names[TABLE_NAMES + (binders - 1 - j)], levels);
        table[TABLE_NAMES + j] = b;
    }
}

// The same names as a table for renaming, to terms under `levels` restrictions.
pub fn renaming(names: &[u8], binders: usize, levels: usize) -> [u8; NAME_SLOTS]
    requires { (binders ≤ most_binders) × (levels ≤ 128) × (length names.now ≡ name_slots) }
    ensures { TableIs names.now binders levels result }
{
    let mut table = [0u8; NAME_SLOTS];
    free_bytes(names, levels as u8, &mut table);
    bound_bytes(names, binders, levels as u8, &mut table);
    table
}
