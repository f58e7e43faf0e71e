// The bytes of a candidate's result, written in place from left to right. A table says what each name of the bytes at hand is written as, so
// that nothing is renamed afterwards: action and result are rewritten by the condition. There is one table for a part: what is
// within a binder has the binder's slot to itself. The body of a call has a table of its own.
ghost use Rattle.std.specs.Prelude.{◌≡◌, false, ◌+◌, ◌≤◌, ◌<◌, length, get_or};
ghost use Rattle.terms.specs.Limits.{greatest_arity, longest_term};
ghost use Rattle.steps_conditions.specs.Names.{Kept};
ghost use Rattle.steps_results.specs.Results.{ExtrudedIs, Writing};
ghost use Rattle.steps_plans.specs.Plans.{WriteIs, Room};
ghost use Rattle.steps_tallies.specs.Tally.{TallyIs, BodiesTallied};

use steps_passing::names::called;
use steps_passing::pass::{branch_of, opens, pass};
use steps_plans::beside::copy_behind;
use steps_plans::pieces::{open_pair, store, write_prefix, write_term};
use steps_plans::plan::{Cursor, Task, alone, enter, plan_of, restrict, with_number};
use steps_tallies::bodies::{body_at, call_at};
use steps_tallies::tally::body_tally;
use terms_bytes::bytes::{copy, get, room};
use terms_bytes::limits::TABLE_NAMES;
use terms_bytes::tags::{CHOICE, MATCH, PARALLEL, RESTRICTION};

// The parallel at `at`: both sides.
#[cycle(write_write_beside_write_call_write_parallel_write_restriction)]
fn write_parallel(
    question: &[u8],
    bodies: &[u32],
    src: &[u8],
    tally: &[u32],
    cursor: Cursor,
    task: Task,
    names: &mut [u8],
    out: &mut [u8],
) -> usize
    requires { (cursor.at < length src.now) × (get_or src.now cursor.at 0 ≡ 7) × (task.still ≡ false) × Writing question.now bodies.now src.now tally.now cursor.at cursor.binders names.old task out.old cursor.put }
    ensures { WriteIs question.now src.now cursor.at cursor.binders names.old task out.old cursor.put result out.new × Kept cursor.binders names.old names.new }
{
    let at = cursor.at;
    let binders = cursor.binders;
    let put = cursor.put;
    let plan = plan_of(question, bodies, src, tally, at, binders, task, names);
    let e = open_pair(out, put, plan.close);
    if out.len() < e {
        return e;
    }
    let left = plan.left;
    let next = at + 1;
    let one = Cursor {
        at: next,
        put: e,
        ..cursor
    };
    let m = write(question, bodies, src, tally, one, left, names, out);
    if out.len() < m {
        return m;
    }
    let right = plan.right;
    let other = Cursor {
        at: plan.middle,
        put: m,
        ..cursor
    };
    write(question, bodies, src, tally, other, right, names, out)
}

// The parallel at `at`. Where a component of it steps alone and no name changes, what stands beside the component is copied: [Par].
#[cycle(write_write_beside_write_call_write_parallel_write_restriction)]
fn write_beside(
    question: &[u8],
    bodies: &[u32],
    src: &[u8],
    tally: &[u32],
    cursor: Cursor,
    task: Task,
    names: &mut [u8],
    out: &mut [u8],
) -> usize
    requires { (cursor.at < length src.now) × (get_or src.now cursor.at 0 ≡ 7) × (task.still ≡ false) × Writing question.now bodies.now src.now tally.now cursor.at cursor.binders names.old task out.old cursor.put }
    ensures { WriteIs question.now src.now cursor.at cursor.binders names.old task out.old cursor.put result out.new × Kept cursor.binders names.old names.new }
{
    let at = cursor.at;
    let binders = cursor.binders;
    let put = cursor.put;
    let c = alone(src, tally, at, binders, task, names);
    let b = c.at;
    if b <= at {
        return write_parallel(question, bodies, src, tally, cursor, task, names, out);
    }
    let n = b - at;
    if !room(out.len(), put, n) {
        return out.len() + 1;
    }
    copy(src, at, n, out, put);
    let stepping = with_number(task, c.number);
    let behind = put + n;
    let component = Cursor {
        at: b,
        put: behind,
        ..cursor
    };
    let e = write(
        question, bodies, src, tally, component, stepping, names, out,
    );
    copy_behind(src, tally, at, b, out, e)
}

// Whether the name of the restriction at `at` is extruded: [Open]. A silent action sends no name.
fn extruded(
    question: &[u8],
    bodies: &[u32],
    src: &[u8],
    tally: &[u32],
    at: usize,
    binders: usize,
    task: Task,
) -> bool
    requires { (at < length src.now) × (length src.now ≤ longest_term) × (binders ≤ at + greatest_arity) × (task.calls ≤ 1) × TallyIs question.now src.now task.calls tally.now × BodiesTallied question.now bodies.now }
    ensures { ExtrudedIs question.now src.now at binders task result }
{
    if task.silently {
        return false;
    }
    let calls = task.calls;
    let number = task.number;
    let p = pass(
        question,
        bodies,
        src,
        tally,
        at + 1,
        binders + 1,
        calls,
        number,
    );
    opens(p.kind, p.object, binders)
}

// The restriction at `at`. It is written unless its name is extruded: [Open].
#[cycle(write_write_beside_write_call_write_parallel_write_restriction)]
fn write_restriction(
    question: &[u8],
    bodies: &[u32],
    src: &[u8],
    tally: &[u32],
    cursor: Cursor,
    task: Task,
    names: &mut [u8],
    out: &mut [u8],
) -> usize
    requires { (cursor.at < length src.now) × (get_or src.now cursor.at 0 ≡ 8) × (task.still ≡ false) × Writing question.now bodies.now src.now tally.now cursor.at cursor.binders names.old task out.old cursor.put }
    ensures { WriteIs question.now src.now cursor.at cursor.binders names.old task out.old cursor.put result out.new × Kept cursor.binders names.old names.new }
{
    let at = cursor.at;
    let binders = cursor.binders;
    let put = cursor.put;
    let next = at + 1;
    let inner = binders + 1;
    if extruded(question, bodies, src, tally, at, binders, task) {
        names[TABLE_NAMES + binders] = task.new;
        let opened = Cursor {
            at: next,
            binders: inner,
            ..cursor
        };
        return write(question, bodies, src, tally, opened, task, names, out);
    }
    let e = store(out, put, RESTRICTION);
    if out.len() < e {
        return e;
    }
    names[TABLE_NAMES + binders] = (TABLE_NAMES + task.levels) as u8;
    let beneath = restrict(task);
    let body = Cursor {
        at: next,
        binders: inner,
        put: e,
    };
    write(question, bodies, src, tally, body, beneath, names, out)
}

// The call at `at`: its body, with a table for the call's names.
#[cycle(write_write_beside_write_call_write_parallel_write_restriction)]
fn write_call(
    question: &[u8],
    bodies: &[u32],
    src: &[u8],
    cursor: Cursor,
    task: Task,
    names: &[u8],
    out: &mut [u8],
) -> usize
    requires { (cursor.at < length src.now) × (8 < get_or src.now cursor.at 0) × (task.still ≡ false) × (task.calls ≤ 1) × (length src.now ≤ longest_term) × (cursor.binders ≤ cursor.at + greatest_arity) × Room task.calls task.levels cursor.at out.old cursor.put × BodiesTallied question.now bodies.now }
    ensures { WriteIs question.now src.now cursor.at cursor.binders names.now task out.old cursor.put result out.new }
{
    let at = cursor.at;
    let binders = cursor.binders;
    let put = cursor.put;
    let Ok(o) = call_at(question, bodies, src, at, task.calls) else {
        return out.len() + 1;
    };
    let n = o.arity;
    let inner = enter(task);
    let body = body_at(question, o.place);
    let numbers = body_tally(bodies, o.definition);
    let mut given = called(src, at + 2, n, binders, names);
    let first = Cursor {
        at: 0,
        binders: n,
        put,
    };
    write(
        question, bodies, body, numbers, first, inner, &mut given, out,
    )
}

// What the task asks for of the term at the cursor. The answer is where the bytes end, or past the end of `out` where there is no room.
#[cycle(write_write_beside_write_call_write_parallel_write_restriction)]
pub fn write(
    question: &[u8],
    bodies: &[u32],
    src: &[u8],
    tally: &[u32],
    cursor: Cursor,
    task: Task,
    names: &mut [u8],
    out: &mut [u8],
) -> usize
    requires { Writing question.now bodies.now src.now tally.now cursor.at cursor.binders names.old task out.old cursor.put }
    ensures { WriteIs question.now src.now cursor.at cursor.binders names.old task out.old cursor.put result out.new × Kept cursor.binders names.old names.new }
{
    let at = cursor.at;
    let binders = cursor.binders;
    let put = cursor.put;
    if src.len() <= at {
        return out.len() + 1;
    }
    if task.still {
        return write_term(question, src, tally, cursor, task.levels, names, out);
    }
    let t = get(src, at);
    if t < MATCH {
        return write_prefix(question, src, tally, cursor, task, names, out);
    }
    if t == MATCH {
        let next = at + 3;
        let beneath = Cursor { at: next, ..cursor };
        return write(question, bodies, src, tally, beneath, task, names, out);
    }
    if t == CHOICE {
        let b = branch_of(src, tally, at, task.silently, task.number);
        let n = b.number;
        let taken = with_number(task, n);
        let branch = Cursor { at: b.at, ..cursor };
        return write(question, bodies, src, tally, branch, taken, names, out);
    }
    if t == PARALLEL {
        return write_beside(question, bodies, src, tally, cursor, task, names, out);
    }
    if t == RESTRICTION {
        return write_restriction(question, bodies, src, tally, cursor, task, names, out);
    }
    write_call(question, bodies, src, cursor, task, names, out)
}
