// The steps of a part, put into the list on one walk of its parallels and restrictions: at each component its own candidates, and at each parallel,
// after both sides, their communications.
ghost use Rattle.std.specs.Prelude.{◌≡◌, true, ℕ, ◌+◌, ◌*◌, ◌≤◌, ◌<◌, length, get_or};
ghost use Rattle.steps_rows.specs.Rows.{row_bytes, most_rows, UnconditionalIs};
ghost use Rattle.steps_splicing.specs.Collecting.{counted, Few};
ghost use Rattle.steps_splicing.specs.Ready.{Inside};
ghost use Rattle.steps_placing.specs.Putting.{CanPut};
ghost use Rattle.steps_walk.specs.Walking.{most_number, row_opens, row_object, TakeRowIs, TakeRowsIs, TakeSilentIs, FewWalked, walked_or, WalkIs};

use steps_communications::meet::{Node, SideRows, meet};
use steps_entries::listed::ActionBytes;
use steps_labels::label::{Scope, restrictions_at};
use steps_passing::pass::middle_of;
use steps_placing::candidate::take_candidate;
use steps_placing::put::{SILENT, Step, put_classed, put_placed};
use steps_rows::rows::{
    MATCHED, MOST_ROWS, REPEATED, ROW_BYTES, RowBranch, scan_component, unconditional,
};
use steps_splicing::splice::{Position, Selection, own_names};
use steps_tallies::tally::silent_at;
use terms_bytes::bytes::get;
use terms_bytes::limits::{GREATEST_ARITY, NAME_COUNT};
use terms_bytes::tags::PARALLEL;

// How many rows are filled, and how many steps the list has.
#[derive(Clone, Copy)]
pub struct Walked {
    pub rows: usize,
    pub count: usize,
}

// The rows of a component, from `first` up to `last`, and how many steps the list has.
#[derive(Clone, Copy)]
struct OwnRows {
    first: usize,
    last: usize,
    count: usize,
}

// One of them, by its number from `first` on.
#[derive(Clone, Copy)]
struct OwnRow {
    first: usize,
    number: usize,
    count: usize,
}

// [Open]: whether the row of an output sends a name that is restricted.
fn row_opens(kind: u8, object: u8) -> bool
    ensures { result ≡ row_opens kind object }
{
    kind == 2 && NAME_COUNT <= object as usize
}

// The object byte of an action: an output's own, and else the new name.
fn row_object(kind: u8, object: u8, x: u8) -> u8
    ensures { result ≡ row_object kind object x }
{
    if kind == 2 { object } else { x }
}

// Puts a visible candidate of a component into the list by its row. One that adds no step is passed over; one beneath a match of free names is found by
// its number.
fn take_row(
    question: &[u8],
    bodies: &[u32],
    part: &[u8],
    tally: &[u32],
    node: Node,
    rows: &[u8],
    own: OwnRow,
    area: &mut [u8],
) -> Option<usize>
    requires { CanPut question.now bodies.now part.now tally.now area.old own.count × Inside part.now node.at node.depth × (own.first + own.number ≤ most_rows) }
    ensures few { Few result }
    ensures is { TakeRowIs question.now part.now node.at node.depth rows.now own.first own.number node.x area.old own.count (counted result) area.new }
{
    let count = own.count;
    let x = node.x;
    let i = own.first + own.number;
    let row = ROW_BYTES * i;
    let kind = get(rows, row);
    let channel = get(rows, row + 1);
    let object = get(rows, row + 2);
    if kind == REPEATED {
        return Some(count);
    }
    if NAME_COUNT <= channel as usize {
        return Some(count);
    }
    let whole = Selection {
        silently: false,
        number: i,
        x,
    };
    if MATCHED <= kind {
        return take_candidate(question, bodies, part, tally, whole, area, count);
    }
    if row_opens(kind, object) {
        // No name is merged with another.
        let class = own_names();
        let extruding = ActionBytes {
            kind: 3,
            channel,
            object: x,
        };
        let opened = Step {
            candidate: whole,
            action: extruding,
        };
        return put_classed(question, bodies, part, tally, opened, &class, area, count);
    }
    let action = ActionBytes {
        kind,
        channel,
        object: row_object(kind, object, x),
    };
    let candidate = Selection {
        silently: false,
        number: own.number,
        x,
    };
    let step = Step { candidate, action };
    let place = Position {
        at: node.at,
        depth: node.depth,
        first: own.first,
    };
    put_placed(question, bodies, part, tally, place, step, area, count)
}

// Puts all visible candidates of a component into the list by their rows.
fn take_rows(
    question: &[u8],
    bodies: &[u32],
    part: &[u8],
    tally: &[u32],
    node: Node,
    rows: &[u8],
    own: OwnRows,
    area: &mut [u8],
) -> Option<usize>
    requires { CanPut question.now bodies.now part.now tally.now area.old own.count × Inside part.now node.at node.depth × (own.first ≤ own.last) × (own.last ≤ most_rows + 1) }
    ensures few { Few result }
    ensures is { TakeRowsIs question.now part.now node.at node.depth rows.now own.first own.last node.x area.old own.count (counted result) area.new }
{
    let first = own.first;
    let last = own.last;
    let number = last - first;
    let mut n = own.count;
    for j in 0..number {
        let one = OwnRow {
            first,
            number: j,
            count: n,
        };
        n = take_row(question, bodies, part, tally, node, rows, one, area)?;
    }
    Some(n)
}

// Puts the silent candidates of a component into the list, where they have no condition.
fn take_unconditional(
    question: &[u8],
    bodies: &[u32],
    part: &[u8],
    tally: &[u32],
    node: Node,
    area: &mut [u8],
    count: usize,
) -> Option<usize>
    requires { CanPut question.now bodies.now part.now tally.now area.old count × Inside part.now node.at node.depth × (node.number ≤ node.at * most_number) × UnconditionalIs question.now part.now node.at 1 true }
    ensures few { Few result }
    ensures is { TakeSilentIs question.now part.now node.at node.depth node.number node.x area.old count (counted result) area.new }
{
    let at = node.at;
    let number = silent_at(tally, at);
    let mut n = count;
    for j in 0..number {
        let candidate = Selection {
            silently: true,
            number: j,
            x: node.x,
        };
        let step = Step {
            candidate,
            action: SILENT,
        };
        let place = Position {
            at,
            depth: node.depth,
            first: node.number,
        };
        n = put_placed(question, bodies, part, tally, place, step, area, n)?;
    }
    Some(n)
}

// Puts the silent candidates of a component into the list by their numbers in the part.
fn take_numbered(
    question: &[u8],
    bodies: &[u32],
    part: &[u8],
    tally: &[u32],
    node: Node,
    area: &mut [u8],
    count: usize,
) -> Option<usize>
    requires { CanPut question.now bodies.now part.now tally.now area.old count × (node.at < length part.now) × (node.number ≤ node.at * most_number) }
    ensures few { Few result }
    ensures is { TakeSilentIs question.now part.now node.at node.depth node.number node.x area.old count (counted result) area.new }
{
    let first = node.number;
    let number = silent_at(tally, node.at);
    let mut n = count;
    for j in 0..number {
        let i = first + j;
        let candidate = Selection {
            silently: true,
            number: i,
            x: node.x,
        };
        n = take_candidate(question, bodies, part, tally, candidate, area, n)?;
    }
    Some(n)
}

// Puts the silent candidates of a component into the list.
fn take_silent(
    question: &[u8],
    bodies: &[u32],
    part: &[u8],
    tally: &[u32],
    node: Node,
    area: &mut [u8],
    count: usize,
) -> Option<usize>
    requires { CanPut question.now bodies.now part.now tally.now area.old count × Inside part.now node.at node.depth × (node.number ≤ node.at * most_number) }
    ensures few { Few result }
    ensures is { TakeSilentIs question.now part.now node.at node.depth node.number node.x area.old count (counted result) area.new }
{
    if unconditional(question, bodies, part, tally, node.at, 1) {
        return take_unconditional(question, bodies, part, tally, node, area, count);
    }
    take_numbered(question, bodies, part, tally, node, area, count)
}

// A component: its visible candidates and their rows, and its silent ones.
fn component(
    question: &[u8],
    bodies: &[u32],
    part: &[u8],
    tally: &[u32],
    node: Node,
    rows: &mut [u8],
    walked: Walked,
    area: &mut [u8],
) -> Option<Walked>
    requires { CanPut question.now bodies.now part.now tally.now area.old walked.count × Inside part.now node.at node.depth × (node.number ≤ node.at * most_number) × (walked.rows ≤ most_rows + 1) × (row_bytes * most_rows ≤ length rows.old) × (get_or part.now node.at 0 ≡ 7 → ⊥) × (get_or part.now node.at 0 ≡ 8 → ⊥) }
    ensures few { FewWalked result }
    ensures is { WalkIs question.now part.now node.at node.depth node.number node.x rows.old walked.rows rows.new area.old walked.count (walked_or walked.rows result) area.new }
{
    let at = node.at;
    let depth = node.depth;
    let n = walked.rows;
    let none = [0u8; GREATEST_ARITY];
    let scope = Scope {
        at,
        inner: depth,
        depth,
        calls: 1,
    };
    let branch = RowBranch {
        root: at,
        asked: false,
        row: n,
    };
    let last = scan_component(question, bodies, part, tally, scope, &none, rows, branch);
    let own = OwnRows {
        first: n,
        last,
        count: walked.count,
    };
    let visible = take_rows(question, bodies, part, tally, node, rows, own, area)?;
    let all = take_silent(question, bodies, part, tally, node, area, visible)?;
    Some(Walked {
        rows: last,
        count: all,
    })
}

// A parallel: its sides, and then their communications.
#[cycle(walk_walk_parallel)]
fn walk_parallel(
    question: &[u8],
    bodies: &[u32],
    part: &[u8],
    tally: &[u32],
    node: Node,
    rows: &mut [u8],
    walked: Walked,
    area: &mut [u8],
) -> Option<Walked>
    requires { CanPut question.now bodies.now part.now tally.now area.old walked.count × Inside part.now node.at node.depth × (node.number ≤ node.at * most_number) × (walked.rows ≤ most_rows + 1) × (row_bytes * most_rows ≤ length rows.old) × (get_or part.now node.at 0 ≡ 7) }
    ensures few { FewWalked result }
    ensures is { WalkIs question.now part.now node.at node.depth node.number node.x rows.old walked.rows rows.new area.old walked.count (walked_or walked.rows result) area.new }
{
    let at = node.at;
    let number = node.number;
    let middle = middle_of(part, tally, at);
    let next = at + 1;
    let one = Node {
        at: next,
        depth: node.depth,
        number,
        x: node.x,
    };
    let left = walk(question, bodies, part, tally, one, rows, walked, area)?;
    let before = silent_at(tally, next);
    let further = number + before;
    let other = Node {
        at: middle,
        depth: node.depth,
        number: further,
        x: node.x,
    };
    let right = walk(question, bodies, part, tally, other, rows, left, area)?;
    // No part that is accepted has so many.
    if MOST_ROWS < right.rows {
        return Some(right);
    }
    let silent = before + silent_at(tally, middle);
    let sides = SideRows {
        first: walked.rows,
        middle: left.rows,
        last: right.rows,
        before: silent,
        count: right.count,
    };
    let all = meet(question, bodies, part, tally, node, rows, sides, area)?;
    Some(Walked {
        rows: right.rows,
        count: all,
    })
}

// A term of the part: its candidates, of which the visible ones are put into the rows behind those that are filled. Where a limit is passed the walk
// ends, and answers none.
#[cycle(walk_walk_parallel)]
pub fn walk(
    question: &[u8],
    bodies: &[u32],
    part: &[u8],
    tally: &[u32],
    node: Node,
    rows: &mut [u8],
    walked: Walked,
    area: &mut [u8],
) -> Option<Walked>
    requires { CanPut question.now bodies.now part.now tally.now area.old walked.count × (node.depth ≤ node.at) × (node.number ≤ node.at * most_number) × (walked.rows ≤ most_rows + 1) × (row_bytes * most_rows ≤ length rows.old) }
    ensures few { FewWalked result }
    ensures is { WalkIs question.now part.now node.at node.depth node.number node.x rows.old walked.rows rows.new area.old walked.count (walked_or walked.rows result) area.new }
{
    // Restrictions that stand one within the other are passed at once: only the sides of parallels are walked by recursion.
    let at = node.at;
    let k = restrictions_at(part, at);
    let place = at + k;
    let under = node.depth + k;
    if part.len() <= place {
        return Some(walked);
    }
    let inner = Node {
        at: place,
        depth: under,
        number: node.number,
        x: node.x,
    };
    if part[place] == PARALLEL {
        return walk_parallel(question, bodies, part, tally, inner, rows, walked, area);
    }
    component(question, bodies, part, tally, inner, rows, walked, area)
}
