// The results of a step and of its answer, written as the parts of a situation: document 01, "The field and the verdict".
ghost use Rattle.std.specs.Prelude.{◌≡◌, ◌+◌, ◌<◌, ◌≤◌, length};
ghost use Rattle.field_successors.specs.Leading.{PlacesResults, PlacesReceived, FreeOfParts, CompletesKey, SuccessorIs};
ghost use Rattle.field_successors.specs.Resulting.{CopiesResult, RewritesResult, ReceivesResult};
ghost use Rattle.field_pairs.specs.Slot.{key_bytes};
ghost use Rattle.terms.specs.Limits.{name_count};
ghost use Rattle.steps.specs.Limits.{step_bytes};

use field_distinctions::update::{keeps_pairs, updated};
use field_pairs::entries::{OBJECT, same_classes};
use field_pairs::names::{free_in_either, replacing};
use field_pairs::pairs::{PAIR_COUNT, none_apart};
use field_slots::slot::{BITS, KEY_BYTES, OCTETS, PART_BYTES};
use field_slots::slots::{pack, part_at};
use terms_bytes::bytes::{copy, get};
use terms_bytes::limits::NAME_COUNT;
use terms_renaming::rename::rename;

// Writes the step's result.
fn copy_result(area: &[u8], at: usize, slot: &mut [u8], put: usize)
    requires { (at + step_bytes ≤ length area.now) × (put + 113 ≤ length slot.old) }
    ensures { CopiesResult area.now at slot.old put slot.new }
{
    copy(area, at + OBJECT + 1, PART_BYTES, slot, put);
}

// Writes the other side's result, rewritten by the condition of the step at `at`. By its own condition it is rewritten already.
fn rewrite_result(
    area: &[u8],
    at: usize,
    others: &[u8],
    place: usize,
    arities: &[u8],
    slot: &mut [u8],
    put: usize,
)
    requires { (at + step_bytes ≤ length area.now) × (place + step_bytes ≤ length others.now) × (put + 113 ≤ length slot.old) }
    ensures { RewritesResult area.now at others.now place arities.now slot.old put slot.new }
{
    copy_result(others, place, slot, put);
    if same_classes(area, at, others, place) {
        return;
    }
    rename(
        others,
        place + OBJECT + 2,
        arities,
        &area[at..],
        slot,
        put + 1,
    );
}

// Writes both results, each on its side.
fn place_results(
    arities: &[u8],
    second: bool,
    area: &[u8],
    at: usize,
    others: &[u8],
    place: usize,
    key: &mut [u8],
)
    requires { (at + step_bytes ≤ length area.now) × (place + step_bytes ≤ length others.now) × (length key.old ≡ key_bytes) }
    ensures { PlacesResults arities.now second area.now at others.now place key.old key.new }
{
    if second {
        rewrite_result(area, at, others, place, arities, key, 0);
        copy_result(area, at, key, PART_BYTES);
        return;
    }
    copy_result(area, at, key, 0);
    rewrite_result(area, at, others, place, arities, key, PART_BYTES);
}

// Writes the step's result with `y` for `x`.
fn receive_result(area: &[u8], at: usize, arities: &[u8], x: u8, y: u8, slot: &mut [u8], put: usize)
    requires { (at + step_bytes ≤ length area.now) × (put + 113 ≤ length slot.old) }
    ensures { ReceivesResult area.now at arities.now x y slot.old put slot.new }
{
    copy_result(area, at, slot, put);
    if x == y {
        return;
    }
    let table = replacing(x, y);
    rename(area, at + OBJECT + 2, arities, &table, slot, put + 1);
}

// Writes both results, each on its side, with `name` for the object of the step.
fn place_received(
    arities: &[u8],
    second: bool,
    area: &[u8],
    at: usize,
    others: &[u8],
    place: usize,
    name: usize,
    key: &mut [u8],
)
    requires { (at + step_bytes ≤ length area.now) × (place + step_bytes ≤ length others.now) × (name < name_count) × (length key.old ≡ key_bytes) }
    ensures { PlacesReceived arities.now second area.now at others.now place name key.old key.new }
{
    let x = get(area, at + OBJECT);
    let y = name as u8;
    if second {
        receive_result(others, place, arities, x, y, key, 0);
        receive_result(area, at, arities, x, y, key, PART_BYTES);
        return;
    }
    receive_result(area, at, arities, x, y, key, 0);
    receive_result(others, place, arities, x, y, key, PART_BYTES);
}

// The names free in the two parts of a key.
fn free_of_parts(key: &[u8], arities: &[u8]) -> [u8; NAME_COUNT]
    requires { length key.now ≡ key_bytes }
    ensures { FreeOfParts key.now arities.now result }
{
    free_in_either(part_at(key, 0), part_at(key, PART_BYTES), arities)
}

// Puts the pairs behind the two parts of a key, those of which each name is free in at least one part.
pub fn complete(key: &mut [u8], arities: &[u8], apart: &[u8; PAIR_COUNT])
    requires { length key.old ≡ key_bytes }
    ensures { CompletesKey arities.now apart.now key.old key.new }
{
    if none_apart(apart) {
        copy(&[0u8; OCTETS], 0, OCTETS, key, BITS);
        return;
    }
    let free = free_of_parts(key, arities);
    pack(apart, &free, key, BITS);
}

// The step at `at` and the answer at `place` of the other side; `second`: the second side makes the step. Where all names differ (request 2026-02),
// `name` is put for the object of the step; else it is none of the names.
#[derive(Clone, Copy)]
pub struct Answering {
    pub second: bool,
    pub at: usize,
    pub place: usize,
    pub name: usize,
}

// The key of the situation that the answer leads to. Where all names differ, no pairs are apart.
pub fn successor(
    arities: &[u8],
    free: &[u8],
    apart: &[u8; PAIR_COUNT],
    area: &[u8],
    others: &[u8],
    answer: Answering,
) -> [u8; KEY_BYTES]
    requires { (answer.at + step_bytes ≤ length area.now) × (answer.place + step_bytes ≤ length others.now) }
    ensures { SuccessorIs arities.now free.now apart.now answer.second area.now answer.at others.now answer.place answer.name result }
{
    let second = answer.second;
    let at = answer.at;
    let place = answer.place;
    let name = answer.name;
    let mut key = [0u8; KEY_BYTES];
    if name < NAME_COUNT {
        place_received(arities, second, area, at, others, place, name, &mut key);
        complete(&mut key, arities, &[0u8; PAIR_COUNT]);
        return key;
    }
    place_results(arities, second, area, at, others, place, &mut key);
    if keeps_pairs(area, at) {
        complete(&mut key, arities, apart);
        return key;
    }
    let new = updated(apart, free, area, at);
    complete(&mut key, arities, &new);
    key
}
