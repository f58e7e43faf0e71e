// The result of a step that one component of a part makes, or two that communicate: the bytes around stay, and only their own results are written.
ghost use Rattle.std.specs.Prelude.{◌≡◌, ◌≤◌, length};
ghost use Rattle.terms.specs.Limits.{longest_term};
ghost use Rattle.steps_splicing.specs.Locating.{HoleIs, MetResultIs};
ghost use Rattle.steps_splicing.specs.PlacedResults.{OwnTable, PlacedResultIs, ended, InRoom};
ghost use Rattle.steps_splicing.specs.Ready.{Tallied, Inside, FoundIn};

use crate::locate::Located;
use steps_passing::names::NAME_SLOTS;
use steps_plans::plan::{Cursor, Task};
use steps_results::result::write;
use steps_tallies::tally::end_at;
use terms_bytes::bytes::{copy, room};
use terms_bytes::limits::{LONGEST_TERM, TABLE_NAMES};

// A term of a part: where it stands, how many restrictions are around it, and the number in the part of its first candidate, visible or silent.
#[derive(Clone, Copy)]
pub struct Position {
    pub at: usize,
    pub depth: usize,
    pub first: usize,
}

// A candidate of a term: the silent or the visible one of this number, where `x` is the new name.
#[derive(Clone, Copy)]
pub struct Selection {
    pub silently: bool,
    pub number: usize,
    pub x: u8,
}

// Where the bytes that stay go on in the part, and where they are written to.
#[derive(Clone, Copy)]
struct Seam {
    from: usize,
    put: usize,
}

// The table where each name stands for itself, the new one and those of all binders among them.
pub fn own_names() -> [u8; NAME_SLOTS]
    ensures { OwnTable result }
{
    let mut names = [0u8; NAME_SLOTS];
    for i in 0..NAME_SLOTS {
        names[i] = i as u8;
    }
    names
}

// The part with the result of a term's candidate in the term's place. The answer is where the bytes end, if there is room for them.
pub fn write_placed(
    question: &[u8],
    bodies: &[u32],
    part: &[u8],
    tally: &[u32],
    place: Position,
    candidate: Selection,
    out: &mut [u8],
) -> Option<usize>
    requires { Tallied question.now bodies.now part.now tally.now × Inside part.now place.at place.depth × (length out.old ≡ longest_term) }
    ensures room { InRoom result }
    ensures is { PlacedResultIs question.now part.now place.at place.depth candidate.silently candidate.number candidate.x out.old (ended result) out.new }
{
    let at = place.at;
    let depth = place.depth;
    let task = Task {
        new: candidate.x,
        levels: depth,
        calls: 1,
        still: false,
        silently: candidate.silently,
        number: candidate.number,
    };
    let mut names = own_names();
    copy(part, 0, at, out, 0);
    let cursor = Cursor {
        at,
        binders: depth,
        put: at,
    };
    let put = write(question, bodies, part, tally, cursor, task, &mut names, out);
    let end = end_at(tally, at);
    let n = part.len() - end;
    if !room(LONGEST_TERM, put, n) {
        return None;
    }
    copy(part, end, n, out, put);
    Some(put + n)
}

// The part's bytes from a seam up to a component, and the result of its candidate, where `new` is received. The answer is where the bytes end, if
// there is room for them.
fn write_hole(
    question: &[u8],
    bodies: &[u32],
    part: &[u8],
    tally: &[u32],
    seam: Seam,
    hole: Located,
    new: u8,
    out: &mut [u8],
) -> Option<usize>
    requires { Tallied question.now bodies.now part.now tally.now × FoundIn part.now hole × (length out.old ≡ longest_term) × (seam.put ≤ longest_term) }
    ensures room { InRoom result }
    ensures is { HoleIs question.now part.now seam.from hole new out.old seam.put (ended result) out.new }
{
    let from = seam.from;
    let put = seam.put;
    let at = hole.at;
    let levels = hole.depth;
    if at < from {
        return None;
    }
    let n = at - from;
    if !room(LONGEST_TERM, put, n) {
        return None;
    }
    let e = put + n;
    if e < levels {
        return None;
    }
    copy(part, from, n, out, put);
    let task = Task {
        new,
        levels,
        calls: 1,
        still: false,
        silently: false,
        number: hole.number,
    };
    let mut names = own_names();
    let cursor = Cursor {
        at,
        binders: levels,
        put: e,
    };
    let end = write(question, bodies, part, tally, cursor, task, &mut names, out);
    if LONGEST_TERM < end { None } else { Some(end) }
}

// The part with the results of two components that communicate in their places: [Com]. The answer is as above.
pub fn write_met(
    question: &[u8],
    bodies: &[u32],
    part: &[u8],
    tally: &[u32],
    left: Located,
    right: Located,
    new: u8,
    out: &mut [u8],
) -> Option<usize>
    requires { Tallied question.now bodies.now part.now tally.now × FoundIn part.now left × FoundIn part.now right × (length out.old ≡ longest_term) }
    ensures room { InRoom result }
    ensures is { MetResultIs question.now part.now left right new out.old (ended result) out.new }
{
    let start = Seam { from: 0, put: 0 };
    let m = write_hole(question, bodies, part, tally, start, left, new, out)?;
    let from = end_at(tally, left.at);
    let between = Seam { from, put: m };
    let e = write_hole(question, bodies, part, tally, between, right, new, out)?;
    let end = end_at(tally, right.at);
    if part.len() < end {
        return None;
    }
    let n = part.len() - end;
    if !room(LONGEST_TERM, e, n) {
        return None;
    }
    copy(part, end, n, out, e);
    Some(e + n)
}
