// What is to be written of a term, and of the two sides of a parallel.
ghost use Rattle.std.specs.Prelude.{◌≡◌, true, false, ◌+◌, ◌≤◌, ◌<◌, length, get_or};
ghost use Rattle.terms.specs.Limits.{greatest_arity, longest_term};
ghost use Rattle.steps_plans.specs.Beside.{AloneIs};
ghost use Rattle.steps_conditions.specs.Names.{most_binders, name_slots};
ghost use Rattle.steps_plans.specs.Plans.{most_restrictions, numbered, resting, visibly, beneath, sending, closing, inside, SplitIs, meeting_plan, PlanIs};
ghost use Rattle.steps_tallies.specs.Tally.{EndsInside, TallyIs, BodiesTallied};

use crate::beside::component_of;
use steps_passing::names::unchanged;
use steps_passing::pass::{Branch, OUTPUT, Passed, middle_of, pass};
use steps_tallies::tally::{number_at, visible_at};
use terms_bytes::bytes::get;
use terms_bytes::limits::TABLE_NAMES;

// What is to be written of a term.
#[derive(Clone, Copy)]
pub struct Task {
    // what the name received or extruded is written as, by its slot
    pub new: u8,
    // the restrictions written around
    pub levels: usize,
    // the calls that may still be opened
    pub calls: usize,
    // the term itself, which makes no step
    pub still: bool,
    // or the result of its silent, or visible, candidate of this number
    pub silently: bool,
    pub number: usize,
}

// Where a term is read and written: its place, the binders around it in the bytes at hand, and the place of its first byte in the area.
#[derive(Clone, Copy)]
pub struct Cursor {
    pub at: usize,
    pub binders: usize,
    pub put: usize,
}

// What is to be written of the sides of a parallel: within a new restriction or not, and where the right side stands.
#[derive(Clone, Copy)]
pub struct Plan {
    pub close: bool,
    pub middle: usize,
    pub left: Task,
    pub right: Task,
}

// The numbers of the two sides of a communication.
#[derive(Clone, Copy)]
pub struct Numbers {
    pub left: usize,
    pub right: usize,
}

// The component of the parallel at `at` that steps alone, where no name changes; or the parallel itself.
pub fn alone(
    src: &[u8],
    tally: &[u32],
    at: usize,
    binders: usize,
    task: Task,
    names: &[u8],
) -> Branch
    requires { (at ≤ length src.now) × (length src.now ≤ longest_term) × EndsInside src.now tally.now × (binders ≤ most_binders) × (length names.now ≡ name_slots) }
    ensures { AloneIs src.now tally.now at binders names.now task result }
{
    if unchanged(names, binders, task.levels) {
        return component_of(src, tally, at, task.silently, task.number);
    }
    Branch {
        at,
        number: task.number,
    }
}

// Another number.
pub fn with_number(task: Task, n: usize) -> Task
    ensures { result ≡ numbered n task }
{
    Task { number: n, ..task }
}

// The term itself.
fn rest(task: Task) -> Task
    ensures { result ≡ resting task }
{
    Task {
        still: true,
        number: 0,
        ..task
    }
}

// One side of a communication.
fn side(task: Task, n: usize) -> Task
    ensures { result ≡ visibly n task }
{
    Task {
        still: false,
        silently: false,
        number: n,
        ..task
    }
}

// Beneath a restriction that is written: [Res].
pub fn restrict(task: Task) -> Task
    requires { task.levels ≤ most_restrictions }
    ensures { result ≡ beneath task }
{
    Task {
        levels: task.levels + 1,
        ..task
    }
}

// The name in a slot is received: [Com].
fn receive(task: Task, names: &[u8], slot: usize) -> Task
    ensures { result ≡ sending (get_or names.now slot 0) task }
{
    let received = get(names, slot);
    Task {
        new: received,
        ..task
    }
}

// The name received or extruded is that of a new restriction: [Close].
pub fn close(task: Task) -> Task
    requires { task.levels ≤ most_restrictions }
    ensures { result ≡ closing task }
{
    Task {
        new: (TABLE_NAMES + task.levels) as u8,
        levels: task.levels + 1,
        ..task
    }
}

// In the body of a call: [Con].
pub fn enter(task: Task) -> Task
    requires { 0 < task.calls }
    ensures { result ≡ inside task }
{
    Task {
        calls: task.calls - 1,
        ..task
    }
}

// The numbers of the sides of the communication number `j`, where the right side has `n` visible candidates.
fn split(j: usize, n: usize) -> Numbers
    ensures { SplitIs j n result }
{
    if n == 0 {
        return Numbers { left: 0, right: 0 };
    }
    Numbers {
        left: j / n,
        right: j % n,
    }
}

// The sides of a communication whose actions are those of `x` and `z`.
fn meet(task: Task, names: &[u8], middle: usize, n: Numbers, x: Passed, z: Passed) -> Plan
    requires { task.levels ≤ most_restrictions }
    ensures { result ≡ meeting_plan names.now task middle n x z }
{
    let left = side(task, n.left);
    let right = side(task, n.right);
    if x.kind == OUTPUT {
        return Plan {
            close: false,
            middle,
            left,
            right: receive(right, names, x.object),
        };
    }
    if z.kind == OUTPUT {
        return Plan {
            close: false,
            middle,
            left: receive(left, names, z.object),
            right,
        };
    }
    Plan {
        close: true,
        middle,
        left: close(left),
        right: close(right),
    }
}

// What is to be written of the sides of the parallel at `at`.
pub fn plan_of(
    question: &[u8],
    bodies: &[u32],
    src: &[u8],
    tally: &[u32],
    at: usize,
    binders: usize,
    task: Task,
    names: &[u8],
) -> Plan
    requires { (length src.now ≤ longest_term) × (at < length src.now) × (binders ≤ at + greatest_arity) × (task.levels ≤ most_restrictions) × (task.still ≡ false) × (task.calls ≤ 1) × TallyIs question.now src.now task.calls tally.now × BodiesTallied question.now bodies.now }
    ensures { PlanIs question.now src.now at binders names.now task result }
{
    let calls = task.calls;
    let silently = task.silently;
    let number = task.number;
    let middle = middle_of(src, tally, at);
    let left = number_at(tally, at + 1, silently);
    if number < left {
        return Plan {
            close: false,
            middle,
            left: task,
            right: rest(task),
        };
    }
    let i = number - left;
    let right = number_at(tally, middle, silently);
    if i < right {
        return Plan {
            close: false,
            middle,
            left: rest(task),
            right: with_number(task, i),
        };
    }
    let n = split(i - right, visible_at(tally, middle));
    let x = pass(question, bodies, src, tally, at + 1, binders, calls, n.left);
    let z = pass(
        question, bodies, src, tally, middle, binders, calls, n.right,
    );
    meet(task, names, middle, n, x, z)
}
