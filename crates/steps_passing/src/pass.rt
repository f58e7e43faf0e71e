// What the action of a visible candidate does as far as a result depends on it, by the candidate's number. A walk straight down to it: a tally
// says on which side it stands. No result is written and no condition is kept.
ghost use Rattle.std.specs.Prelude.{◌≡◌, false, ◌+◌, ◌-◌, ◌≤◌, ◌<◌, length, get_or};
ghost use Rattle.terms.specs.Limits.{greatest_arity, longest_term};
ghost use Rattle.terms_bytes.specs.NameTable.{table_names};
ghost use Rattle.steps_passing.specs.Branching.{BranchIs, SourceIs};
ghost use Rattle.steps_conditions.specs.Names.{most_binders};
ghost use Rattle.steps_passing.specs.Passing.{nothing_sent, PrefixIs, opens_at, leaving_at, returned_at, PassIs, MiddleIs};
ghost use Rattle.steps_tallies.specs.Tally.{EndsInside, TallyIs, BodiesTallied};

use crate::names::slot_of;
use steps_tallies::bodies::{body_at, call_at};
use steps_tallies::tally::{body_tally, end_at, number_at, visible_at};
use terms_bytes::bytes::get;
use terms_bytes::limits::TABLE_NAMES;
use terms_bytes::tags::{CHOICE, INPUT, MATCH, PARALLEL, RESTRICTION};

// Kinds of actions.
const SILENT: usize = 0;

pub const OUTPUT: usize = 2;

const NEW_OUTPUT: usize = 3;

// What a candidate's action does, and the slot of the name that a free output sends.
#[derive(Clone, Copy)]
pub struct Passed {
    pub kind: usize,
    pub object: usize,
}

// A silent action; also the answer where there is no candidate.
fn silent() -> Passed
    ensures { result ≡ nothing_sent }
{
    Passed {
        kind: SILENT,
        object: 0,
    }
}

// Whether the name of the innermost of `binders + 1` binders is sent: [Open], if that is a restriction.
#[tactic(auto, unfolding(crate::specs::Passing::opens_at))]
pub fn opens(kind: usize, object: usize, binders: usize) -> bool
    requires { binders ≤ most_binders }
    ensures { result ≡ opens_at binders kind object }
{
    kind == OUTPUT && object == TABLE_NAMES + binders
}

// The innermost of `binders + 1` binders, a restriction, is left.
fn leaving(p: Passed, binders: usize) -> Passed
    requires { binders ≤ most_binders }
    ensures { result ≡ leaving_at binders p }
{
    let kind = p.kind;
    let object = p.object;
    if opens(kind, object, binders) {
        return Passed {
            kind: NEW_OUTPUT,
            object,
        };
    }
    p
}

// The parameter in a slot, counted from the first.
fn parameter(slot: usize) -> usize
    ensures { result ≡ slot - table_names }
{
    if slot < TABLE_NAMES {
        return 0;
    }
    slot - TABLE_NAMES
}

// The body of a call whose names stand at `at` is left.
fn returned(p: Passed, src: &[u8], at: usize, binders: usize) -> Passed
    requires { (binders ≤ most_binders) × (at ≤ 256) × (p.object < 256) }
    ensures { result ≡ returned_at src.now at binders p }
{
    let j = parameter(p.object);
    Passed {
        kind: p.kind,
        object: slot_of(get(src, at + j), binders),
    }
}

// Inaction and the prefixes.
fn pass_prefix(src: &[u8], at: usize, binders: usize) -> Passed
    requires { (at < length src.now) × (get_or src.now at 0 < 5) × (binders ≤ most_binders) }
    ensures { PrefixIs src.now at binders result }
{
    let t = get(src, at);
    if t < INPUT {
        return silent();
    }
    let object = slot_of(get(src, at + 2), binders);
    let kind = t as usize - 1;
    Passed { kind, object }
}

// Where the right side of the choice or parallel at `at` stands.
pub fn middle_of(src: &[u8], tally: &[u32], at: usize) -> usize
    requires { (at < length src.now) × (length src.now ≤ longest_term) }
    ensures { MiddleIs src.now tally.now at result }
{
    let left = at + 1;
    if src.len() <= left {
        return left;
    }
    end_at(tally, left)
}

// A term beneath another, and the number of a candidate there.
#[derive(Clone, Copy)]
pub struct Branch {
    pub at: usize,
    pub number: usize,
}

// The branch of the choice at `at` that has the choice's candidate of this number: down from choice to choice.
pub fn branch_of(src: &[u8], tally: &[u32], at: usize, silently: bool, number: usize) -> Branch
    requires { (length src.now ≤ longest_term) × EndsInside src.now tally.now }
    ensures { BranchIs src.now tally.now at silently number result }
{
    let mut b = at;
    let mut n = number;
    // no range: where the walk goes on is computed each turn
    while b < src.len() {
        if src[b] != CHOICE {
            return Branch { at: b, number: n };
        }
        let left = number_at(tally, b + 1, silently);
        if n < left {
            b += 1;
        } else {
            n -= left;
            b = middle_of(src, tally, b);
        }
    }
    Branch { at: b, number: n }
}

// From the term at `at` down to the one whose visible candidate has the action of this one: a match, a choice and a parallel keep it.
fn source_of(src: &[u8], tally: &[u32], at: usize, number: usize) -> Branch
    requires { (length src.now ≤ longest_term) × EndsInside src.now tally.now }
    ensures { SourceIs src.now tally.now at number result }
{
    let mut b = at;
    let mut n = number;
    // no range: where the walk goes on is computed each turn
    while b < src.len() {
        let t = src[b];
        if t < MATCH {
            return Branch { at: b, number: n };
        }
        if PARALLEL < t {
            return Branch { at: b, number: n };
        }
        if t == MATCH {
            b += 3;
        } else {
            let left = visible_at(tally, b + 1);
            if n < left {
                b += 1;
            } else {
                n -= left;
                b = middle_of(src, tally, b);
            }
        }
    }
    Branch { at: b, number: n }
}

// The call at `at`: a candidate of the body.
#[cycle(pass_pass_call)]
fn pass_call(
    question: &[u8],
    bodies: &[u32],
    src: &[u8],
    at: usize,
    binders: usize,
    calls: usize,
    i: usize,
) -> Passed
    requires { (at < length src.now) × (8 < get_or src.now at 0) × (length src.now ≤ longest_term) × (binders ≤ at + greatest_arity) × (calls ≤ 1) × BodiesTallied question.now bodies.now }
    ensures { PassIs question.now src.now at binders calls false i result }
{
    let Ok(o) = call_at(question, bodies, src, at, calls) else {
        return silent();
    };
    let n = o.arity;
    let body = body_at(question, o.place);
    let numbers = body_tally(bodies, o.definition);
    let p = pass(question, bodies, body, numbers, 0, n, calls - 1, i);
    returned(p, src, at + 2, binders)
}

// The visible candidate number `i` of the term at `at`, where so many calls may be opened one within the other.
#[cycle(pass_pass_call)]
pub fn pass(
    question: &[u8],
    bodies: &[u32],
    src: &[u8],
    tally: &[u32],
    at: usize,
    binders: usize,
    calls: usize,
    i: usize,
) -> Passed
    requires { (length src.now ≤ longest_term) × (binders ≤ at + greatest_arity) × (calls ≤ 1) × TallyIs question.now src.now calls tally.now × BodiesTallied question.now bodies.now }
    ensures { PassIs question.now src.now at binders calls false i result }
{
    let source = source_of(src, tally, at, i);
    let b = source.at;
    let n = source.number;
    if src.len() <= b {
        return silent();
    }
    let t = src[b];
    if t < MATCH {
        return pass_prefix(src, b, binders);
    }
    if t == RESTRICTION {
        let p = pass(question, bodies, src, tally, b + 1, binders + 1, calls, n);
        return leaving(p, binders);
    }
    pass_call(question, bodies, src, b, binders, calls, n)
}
