// Tests over listed steps, each an entry of a list: the list, and where the entry begins.
ghost use Rattle.std.specs.Prelude.{◌+◌, ◌≤◌, length};
ghost use Rattle.steps.specs.Limits.{step_bytes};
ghost use Rattle.field_pairs.specs.Entry.{SameClassesIs, SameHeaderIs, BindsIs, AnswersIs};

use steps_conditions::condition::Condition;
use steps_entries::listed::alike;
use terms_bytes::bytes::get;
use terms_bytes::limits::NAME_COUNT;

// Where an entry has its action: behind the classes.
pub const KIND: usize = NAME_COUNT;

pub const CHANNEL: usize = NAME_COUNT + 1;

pub const OBJECT: usize = NAME_COUNT + 2;

const ACTION_END: usize = NAME_COUNT + 3;

// Whether the conditions of two steps are the same.
pub fn same_classes(area: &[u8], at: usize, others: &[u8], place: usize) -> bool
    requires { (at + step_bytes ≤ length area.now) × (place + step_bytes ≤ length others.now) }
    ensures { SameClassesIs area.now at others.now place result }
{
    alike(area, at, others, place, NAME_COUNT)
}

// Whether condition and action of two steps are the same.
pub fn same_header(area: &[u8], at: usize, others: &[u8], place: usize) -> bool
    requires { (at + step_bytes ≤ length area.now) × (place + step_bytes ≤ length others.now) }
    ensures { SameHeaderIs area.now at others.now place result }
{
    alike(area, at, others, place, ACTION_END)
}

// Whether the step receives or extrudes a name.
pub fn binds(area: &[u8], at: usize) -> bool
    requires { at ≤ length area.now }
    ensures { BindsIs area.now at result }
{
    let kind = get(area, at + KIND);
    kind == 1 || kind == 3
}

// Whether the step at `place` of the other side's list answers the one at `at`: Definition 13.
pub fn answers(area: &[u8], at: usize, others: &[u8], place: usize) -> bool
    requires { (at ≤ length area.now) × (place ≤ length others.now) }
    ensures { AnswersIs area.now at others.now place result }
{
    if area.len() - at < ACTION_END {
        return false;
    }
    if others.len() - place < ACTION_END {
        return false;
    }
    if area[at + KIND] != others[place + KIND] {
        return false;
    }
    let channel = others[place + CHANNEL] as usize;
    if area[at + CHANNEL] as usize != Condition::class_of(area, at, channel) {
        return false;
    }
    let object = others[place + OBJECT] as usize;
    if area[at + OBJECT] as usize != Condition::class_of(area, at, object) {
        return false;
    }
    Condition::implies(area, at, others, place)
}
