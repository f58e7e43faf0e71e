// The situations that a step and its answers lead to are put among those known: document 01, "The field and the verdict".
ghost use Rattle.std.specs.Prelude.{[], ◌∷◌, ◌≡◌, ◌+◌, ◌*◌, ◌<◌, ◌≤◌, length};
ghost use Rattle.terms.specs.Limits.{name_count};
ghost use Rattle.steps.specs.Limits.{step_bytes};
ghost use Rattle.steps.specs.Listed.{names_from};
ghost use Rattle.field_growth.specs.Growing.{joined, AddedIs, AnswerTo, AnswersTo, FirstAnswerIs};
ghost use Rattle.field_growth.specs.Growing.{Underway, HasSteps, CanAsk, MoveIs, NamesAre, StepIs};
ghost use Rattle.field_pairs.specs.Slot.{key_bytes, slot_bytes};

use field_pairs::entries::{answers, same_header};
use field_pairs::names::is_received;
use field_pairs::pairs::{PAIR_COUNT, allowed};
use field_slots::chains::{find_chained, put};
use field_slots::notes::note_sole;
use field_slots::slot::{left_at, strike};
use field_successors::results::{Answering, successor};
use steps_conditions::condition::Condition;
use steps_entries::limits::STEP_BYTES;
use terms_bytes::limits::NAME_COUNT;

// Each function below answers the number of situations known, or none where a limit is passed: they outgrow the capacity.

// The slot that all situations looked at have: none was looked at, they have that of this number, or they have no such slot or it was not looked for.
#[derive(Clone, Copy)]
pub enum Led {
    Nowhere,
    To(usize),
    Several,
}

// The number of situations known, whether one that was looked at is left, that is, not struck out so far, and their slot.
#[derive(Clone, Copy)]
pub struct Added {
    pub known: usize,
    pub left: bool,
    pub led: Led,
}

fn join(a: Led, b: Led) -> Led
    ensures { result ≡ joined a b }
{
    match (a, b) {
        (Led::Nowhere, _) => b,
        (_, Led::Nowhere) => a,
        (Led::To(i), Led::To(j)) => { if i == j { a } else { Led::Several } }
        _ => Led::Several,
    }
}

// Puts the situation with this key behind the known ones if it is new.
fn add(work: &mut [u8], capacity: usize, known: usize, key: &[u8]) -> Option<Added>
    requires { (1 ≤ capacity) × (known ≤ capacity) × (capacity ≤ 4096) × (slot_bytes * capacity ≤ length work.old) × (key_bytes ≤ length key.now) }
    ensures { AddedIs capacity work.old known key.now result work.new }
{
    let place = find_chained(work, capacity, known, key);
    match place {
        Some(i) => Some(Added {
            known,
            left: left_at(work, i),
            led: Led::To(i),
        }),
        None => {
            if known == capacity {
                return None;
            }
            put(work, capacity, known, key);
            Some(Added {
                known: known + 1,
                left: true,
                led: Led::To(known),
            })
        }
    }
}

// A step that must be answered, of the second or the first side of the situation in slot `taken`: where it stands, how many steps the other side has,
// and from which of them on answers are looked for. Where all names differ (request 2026-02), `name` is the one received; else none of the names, as the
// theorems on what a step leads to have it.
#[derive(Clone, Copy)]
struct Asked {
    second: bool,
    taken: usize,
    at: usize,
    first: usize,
    count: usize,
    name: usize,
    capacity: usize,
}

// What the other side's step of number `first` leads to, if it is an answer. A step of the second side and an answer with the same header lead where
// the first side's step led, with the two exchanged: that situation is not looked for, and counts as left.
fn grow_answer(
    arities: &[u8],
    free: &[u8],
    apart: &[u8; PAIR_COUNT],
    area: &[u8],
    others: &[u8],
    asked: Asked,
    work: &mut [u8],
    known: usize,
) -> Option<Added>
    requires { CanAsk asked (length area.now) (length others.now) (length work.old) known × (asked.first < asked.count) }
    ensures { AnswerTo arities.now free.now apart.now asked area.now others.now work.old known result work.new }
{
    let at = asked.at;
    let first = asked.first;
    let place = STEP_BYTES * first;
    if !answers(area, at, others, place) {
        return Some(Added {
            known,
            left: false,
            led: Led::Nowhere,
        });
    }
    if asked.second && same_header(area, at, others, place) {
        return Some(Added {
            known,
            left: true,
            led: Led::Several,
        });
    }
    let answer = Answering {
        second: asked.second,
        at,
        place,
        name: asked.name,
    };
    let key = successor(arities, free, apart, area, others, answer);
    add(work, asked.capacity, known, &key)
}

// What every answer of the other side leads to, whether one of those situations is left, and their slot; none before `first` answers.
fn grow_answers(
    arities: &[u8],
    free: &[u8],
    apart: &[u8; PAIR_COUNT],
    area: &[u8],
    others: &[u8],
    asked: Asked,
    work: &mut [u8],
    known: usize,
) -> Option<Added>
    requires { CanAsk asked (length area.now) (length others.now) (length work.old) known }
    ensures { AnswersTo arities.now free.now apart.now asked area.now others.now work.old known result work.new }
{
    let count = asked.count;
    let mut so_far = known;
    let mut left = false;
    let mut led = Led::Nowhere;
    for j in asked.first..count {
        let next = Asked { first: j, ..asked };
        let added = grow_answer(arities, free, apart, area, others, next, work, so_far)?;
        so_far = added.known;
        left = left | added.left;
        led = join(led, added.led);
    }
    Some(Added {
        known: so_far,
        left,
        led,
    })
}

// The first of the other side's `count` steps that answers the one at `at`.
fn first_answer(area: &[u8], at: usize, others: &[u8], count: usize) -> Option<usize>
    requires { (at ≤ length area.now) × (step_bytes * count ≤ length others.now) }
    ensures { FirstAnswerIs area.now at others.now count result }
{
    for j in 0..count {
        if answers(area, at, others, STEP_BYTES * j) {
            return Some(j);
        }
    }
    None
}

// What the answers lead to, one move. Where all lead to situations that are struck out, none is ever left: the situation is struck out. Where all lead
// to one situation, that is noted.
fn grow_move(
    arities: &[u8],
    free: &[u8],
    apart: &[u8; PAIR_COUNT],
    area: &[u8],
    others: &[u8],
    asked: Asked,
    work: &mut [u8],
    known: usize,
) -> Option<usize>
    requires { CanAsk asked (length area.now) (length others.now) (length work.old) known }
    ensures { MoveIs arities.now free.now apart.now asked area.now others.now work.old known result work.new }
{
    let taken = asked.taken;
    let added = grow_answers(arities, free, apart, area, others, asked, work, known)?;
    if added.left {
        if let Led::To(slot) = added.led {
            note_sole(work, taken, slot + 1);
        }
        return Some(added.known);
    }
    strike(work, taken);
    Some(known)
}

// The move with the name, if the step receives it.
fn grow_name(
    arities: &[u8],
    free: &[u8],
    apart: &[u8; PAIR_COUNT],
    area: &[u8],
    others: &[u8],
    asked: Asked,
    work: &mut [u8],
    known: usize,
) -> Option<usize>
    requires { CanAsk asked (length area.now) (length others.now) (length work.old) known × (asked.name < name_count) }
    ensures { NamesAre arities.now free.now apart.now asked area.now others.now (asked.name ∷ []) work.old known result work.new }
{
    if !is_received(free, area, asked.at, asked.name) {
        return Some(known);
    }
    grow_move(arities, free, apart, area, others, asked, work, known)
}

// Where all names differ (request 2026-02): one move for each name that the step receives.
fn grow_names(
    arities: &[u8],
    free: &[u8],
    apart: &[u8; PAIR_COUNT],
    area: &[u8],
    others: &[u8],
    asked: Asked,
    work: &mut [u8],
    known: usize,
) -> Option<usize>
    requires { CanAsk asked (length area.now) (length others.now) (length work.old) known }
    ensures { NamesAre arities.now free.now apart.now asked area.now others.now (names_from 0 name_count) work.old known result work.new }
{
    let mut so_far = known;
    for name in 0..NAME_COUNT {
        let named = Asked { name, ..asked };
        so_far = grow_name(arities, free, apart, area, others, named, work, so_far)?;
    }
    Some(so_far)
}

// A step of the second or the first side of the situation in slot `taken`: where it stands, and how many steps the other side has; `differ`: all names
// differ.
#[derive(Clone, Copy)]
pub struct Step {
    pub differ: bool,
    pub second: bool,
    pub taken: usize,
    pub at: usize,
    pub count: usize,
    pub capacity: usize,
}

// What the step leads to, if it must be answered. Where no answer is there, the situation is struck out. All answers to a step without a condition have
// its header.
pub fn grow_step(
    arities: &[u8],
    free: &[u8],
    apart: &[u8; PAIR_COUNT],
    area: &[u8],
    others: &[u8],
    step: Step,
    work: &mut [u8],
    known: usize,
) -> Option<usize>
    requires { Underway step.taken known step.capacity (length work.old) × (step.at + step_bytes ≤ length area.now) × HasSteps step.count (length others.now) }
    ensures { StepIs arities.now free.now apart.now step area.now others.now work.old known result work.new }
{
    let differ = step.differ;
    let taken = step.taken;
    let at = step.at;
    let count = step.count;
    if !allowed(differ, apart, area, at) {
        return Some(known);
    }
    let Some(first) = first_answer(area, at, others, count) else {
        strike(work, taken);
        return Some(known);
    };
    if step.second && Condition::is_trivial(area, at) {
        return Some(known);
    }
    let asked = Asked {
        second: step.second,
        taken,
        at,
        first,
        count,
        name: NAME_COUNT,
        capacity: step.capacity,
    };
    if differ {
        return grow_names(arities, free, apart, area, others, asked, work, known);
    }
    grow_move(arities, free, apart, area, others, asked, work, known)
}
