// The label of a term's candidate by its number: a recursive walk of the term's bytes beneath restriction, choice, parallel, match and call, in the
// order of specs/Raw. A called body is walked in place, its parameters standing for the slots of the call's names.
ghost use Rattle.std.specs.Prelude.{◌≡◌, ◌+◌, ◌≤◌, ◌<◌, length, get_or};
ghost use Rattle.terms.specs.Limits.{name_count, greatest_arity, longest_term};
ghost use Rattle.steps_labels.specs.LabelWalk.{slot_at, ArgumentsIs, prefix_action, PrefixLabelIs, RestrictionsIs, LeavesIs, past_of, OutsideOfIs, Within, NthIs, MeetingIs, single_origin, OriginIs};
ghost use Rattle.steps_conditions.specs.Slots.{slot_count};
ghost use Rattle.steps_tallies.specs.Tally.{EndsInside, TallyIs, BodiesTallied};

use steps_conditions::action::{Action, Label, NEW_NAME};
use steps_conditions::rules::{communication, matching, restricted};
use steps_passing::pass::middle_of;
use steps_tallies::bodies::{body_at, call_at};
use steps_tallies::tally::{body_tally, number_at, visible_at};
use terms_bytes::bytes::get;
use terms_bytes::limits::{GREATEST_ARITY, NAME_COUNT};
use terms_bytes::tags::{CHOICE, INPUT, MATCH, OUTPUT, PARALLEL, RESTRICTION, SILENT};

// A term of the bytes at hand: where it stands, how many of their restrictions are around it and how many in all, and how many calls may be opened
// one within the other.
#[derive(Clone, Copy)]
pub struct Scope {
    pub at: usize,
    pub inner: usize,
    pub depth: usize,
    pub calls: usize,
}

// The slot of the name byte `b` beneath `inner` restrictions of the bytes at hand, `depth` in all.
pub fn slot(b: u8, args: &[u8], inner: usize, depth: usize) -> u8
    requires { (inner ≤ depth) × (name_count + depth ≤ slot_count) }
    ensures { result ≡ slot_at args.now inner depth b }
{
    if b < 128 {
        return b;
    }
    let k = b as usize - 128;
    if k < inner {
        return (NAME_COUNT + (depth - 1 - k)) as u8;
    }
    get(args, k - inner)
}

// The slots of a call's `count` names, which stand at `at`: the last parameter is the innermost.
pub fn arguments(
    src: &[u8],
    at: usize,
    count: usize,
    args: &[u8],
    inner: usize,
    depth: usize,
) -> [u8; GREATEST_ARITY]
    requires { (at + count ≤ length src.now) × (count ≤ greatest_arity) × (inner ≤ depth) × (name_count + depth ≤ slot_count) }
    ensures { ArgumentsIs src.now at count args.now inner depth result }
{
    let mut slots = [0u8; GREATEST_ARITY];
    for j in 0..count {
        let v = slot(src[at + (count - 1 - j)], args, inner, depth);
        slots[j] = v;
    }
    slots
}

// The action of a prefix by its first byte and its names.
fn prefix_action(t: u8, a: u8, b: u8) -> Action
    ensures { result ≡ prefix_action t a b }
{
    if t == SILENT {
        return Action::Silent;
    }
    if t == INPUT {
        return Action::Input(a, NEW_NAME);
    }
    if t == OUTPUT {
        return Action::Output(a, b);
    }
    Action::NewOutput(a, NEW_NAME)
}

// The one step of the prefix at `at`.
fn nth_prefix(src: &[u8], at: usize, args: &[u8], inner: usize, depth: usize) -> Label
    requires { (at < length src.now) × (inner ≤ depth) × (name_count + depth ≤ slot_count) }
    ensures { PrefixLabelIs src.now at args.now inner depth result }
{
    let t = get(src, at);
    let a = slot(get(src, at + 1), args, inner, depth);
    let b = slot(get(src, at + 2), args, inner, depth);
    Label::found(prefix_action(t, a, b))
}

// How many restrictions stand at `at`, one within the other.
pub fn restrictions_at(src: &[u8], at: usize) -> usize
    ensures { RestrictionsIs src.now at result }
{
    for k in at..src.len() {
        if src[k] != RESTRICTION {
            return k - at;
        }
    }
    src.len().saturating_sub(at)
}

// The restrictions at `depth` and above it, `count` in all, are left from within.
fn leave(label: Option<Label>, depth: usize, count: usize) -> Option<Label>
    requires { name_count + depth + count ≤ slot_count }
    ensures { LeavesIs label depth count result }
{
    let mut out = label;
    for left in (0..count).rev() {
        out = restricted(out, depth + left);
    }
    out
}

// How far the term beneath a match or beneath `count` restrictions stands behind the first byte `t`: 0 where neither stands.
fn past(t: u8, count: usize) -> usize
    ensures { result ≡ past_of t count }
{
    if t == MATCH {
        return 3;
    }
    count
}

// The label outside the `count` restrictions at `at`, or outside the match there if there are none.
fn outside_of(
    label: Option<Label>,
    src: &[u8],
    at: usize,
    count: usize,
    args: &[u8],
    inner: usize,
    depth: usize,
) -> Option<Label>
    requires { (inner ≤ depth) × (at < length src.now) × (name_count + depth + count ≤ slot_count) }
    ensures { OutsideOfIs src.now at count args.now inner depth label result }
{
    if count == 0 {
        let a = slot(get(src, at + 1), args, inner, depth);
        let b = slot(get(src, at + 2), args, inner, depth);
        return matching(label, a, b);
    }
    leave(label, depth, count)
}

// Where a candidate is found beneath choices and parallels, and its number there: at a term of another form, or among the communications of a
// parallel, whose right side stands at `middle`.
#[derive(Clone, Copy)]
pub struct Origin {
    pub at: usize,
    pub number: usize,
    pub middle: Option<usize>,
}

// At the one term at `at`.
fn single(at: usize, number: usize) -> Origin
    ensures { result ≡ single_origin at number }
{
    Origin {
        at,
        number,
        middle: None,
    }
}

// From the term at `at` down to where its candidate number `i` is found: no label is held on the way. The left side's candidates come first,
// then the right side's, and then the communications.
fn origin_of(src: &[u8], tally: &[u32], at: usize, i: usize, silent: bool) -> Origin
    requires { (length src.now ≤ longest_term) × EndsInside src.now tally.now }
    ensures { OriginIs src.now tally.now at i silent result }
{
    let mut b = at;
    let mut n = i;
    // no range: where the walk goes on is computed each turn
    while b < src.len() {
        let t = src[b];
        if t < CHOICE {
            return single(b, n);
        }
        if PARALLEL < t {
            return single(b, n);
        }
        let left = number_at(tally, b + 1, silent);
        if n < left {
            b += 1;
        } else {
            n -= left;
            let middle = middle_of(src, tally, b);
            let right = number_at(tally, middle, silent);
            if right <= n {
                return Origin {
                    at: b,
                    number: n - right,
                    middle: Some(middle),
                };
            }
            b = middle;
        }
    }
    single(b, n)
}

// The communications of the two sides of a parallel: their numbers are those of the left side's visible candidates times the number of the right
// side's, and those.
#[cycle(nth_nth_call_nth_meeting)]
fn nth_meeting(
    question: &[u8],
    bodies: &[u32],
    src: &[u8],
    tally: &[u32],
    scope: Scope,
    middle: usize,
    i: usize,
    args: &[u8],
) -> Option<Label>
    requires { (scope.at < length src.now) × (scope.at < middle) × Within src.now scope.at scope.inner scope.depth scope.calls × TallyIs question.now src.now scope.calls tally.now × BodiesTallied question.now bodies.now }
    ensures { MeetingIs question.now src.now scope.at middle i args.now scope.inner scope.depth scope.calls result }
{
    let n = visible_at(tally, middle);
    if n == 0 {
        return None;
    }
    let next = scope.at + 1;
    let left = Scope { at: next, ..scope };
    let p = nth(question, bodies, src, tally, left, i / n, false, args);
    let right = Scope {
        at: middle,
        ..scope
    };
    let q = nth(question, bodies, src, tally, right, i % n, false, args);
    communication(p, q)
}

// A call: the candidates of the body, while calls are left to open.
#[cycle(nth_nth_call_nth_meeting)]
fn nth_call(
    question: &[u8],
    bodies: &[u32],
    src: &[u8],
    scope: Scope,
    i: usize,
    silent: bool,
    args: &[u8],
) -> Option<Label>
    requires { (scope.at < length src.now) × (8 < get_or src.now scope.at 0) × Within src.now scope.at scope.inner scope.depth scope.calls × BodiesTallied question.now bodies.now }
    ensures { NthIs question.now src.now scope.at i silent args.now scope.inner scope.depth scope.calls result }
{
    let at = scope.at;
    let depth = scope.depth;
    let calls = scope.calls;
    let Ok(o) = call_at(question, bodies, src, at, calls) else {
        return None;
    };
    if src.len() < o.end {
        return None;
    }
    let given = arguments(src, at + 2, o.arity, args, scope.inner, depth);
    let body = body_at(question, o.place);
    let within = body_tally(bodies, o.definition);
    let left = calls - 1;
    let inside = Scope {
        at: 0,
        inner: 0,
        depth,
        calls: left,
    };
    nth(question, bodies, body, within, inside, i, silent, &given)
}

// The i-th candidate, silent or visible, of a term; `args` has the slots of the parameters.
#[cycle(nth_nth_call_nth_meeting)]
pub fn nth(
    question: &[u8],
    bodies: &[u32],
    src: &[u8],
    tally: &[u32],
    scope: Scope,
    i: usize,
    silent: bool,
    args: &[u8],
) -> Option<Label>
    requires { Within src.now scope.at scope.inner scope.depth scope.calls × TallyIs question.now src.now scope.calls tally.now × BodiesTallied question.now bodies.now }
    ensures { NthIs question.now src.now scope.at i silent args.now scope.inner scope.depth scope.calls result }
{
    let inner = scope.inner;
    let depth = scope.depth;
    let calls = scope.calls;
    let p = origin_of(src, tally, scope.at, i, silent);
    let b = p.at;
    let n = p.number;
    let found = Scope { at: b, ..scope };
    if let Some(middle) = p.middle {
        return nth_meeting(question, bodies, src, tally, found, middle, n, args);
    }
    if src.len() <= b {
        return None;
    }
    let t = src[b];
    if t < MATCH {
        return Some(nth_prefix(src, b, args, inner, depth));
    }
    if RESTRICTION < t {
        return nth_call(question, bodies, src, found, n, silent, args);
    }
    let k = restrictions_at(src, b);
    let next = b + past(t, k);
    let innermost = inner + k;
    let deeper = depth + k;
    let beneath = Scope {
        at: next,
        inner: innermost,
        depth: deeper,
        calls,
    };
    let label = nth(question, bodies, src, tally, beneath, n, silent, args);
    outside_of(label, src, b, k, args, inner, depth)
}
