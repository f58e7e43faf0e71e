// The visible candidates of a term in a table of rows, found on one walk of the term's bytes beneath restriction, choice, parallel, match and call,
// in the order of steps' specs/Raw. And whether the term's silent candidates have no condition.
ghost use Rattle.std.specs.Prelude.{true, false, ◌≡◌, ℕ, ◌+◌, ◌-◌, ◌*◌, ◌≤◌, ◌<◌, length, get_or};
ghost use Rattle.terms.specs.Limits.{name_count, longest_term};
ghost use Rattle.steps_labels.specs.LabelWalk.{Within};
ghost use Rattle.steps_conditions.specs.Slots.{slot_count};
ghost use Rattle.steps_tallies.specs.Tally.{EndsInside, TallyIs, EndsTallied, BodiesTallied};
ghost use Rattle.steps_rows.specs.Rows.{HasRows, PutRowIs, prefix_kind, PrefixRowIs, PutRepeatedIs, behind_root, root_of, ScanIs, UnconditionalIs};
ghost use Rattle.steps_equal_branches.specs.BranchRows.{is_trivial, is_failing, behind_piece, RepeatedIs};

use steps_equal_branches::same::same_branch;
use steps_labels::label::{Scope, arguments, slot};
use steps_passing::pass::middle_of;
use steps_tallies::bodies::{arities_of, body_at, call_at};
use steps_tallies::tally::{body_tally, end_at, silent_at, visible_at};
use terms_bytes::bytes::get;
use terms_bytes::limits::NAME_COUNT;
use terms_bytes::tags::{CALL, CHOICE, INPUT, MATCH, OUTPUT, RESTRICTION};

// What a candidate does (1 input, 2 output, 3 new-name output; 4 more beneath a match of free names; 4 if it adds no step), its channel and its
// object; the fourth byte is not used.
pub const ROW_BYTES: usize = 4;

// The kind of a row whose candidate adds no step: it is equal to an earlier one, or beneath a match that fails.
pub const REPEATED: u8 = 4;

// Added to the kind of a row whose candidate stands beneath a match of two free names: the row does not say its condition.
pub const MATCHED: u8 = 4;

// No part has more visible candidates.
pub const MOST_ROWS: usize = 1056;

// The bytes of so many rows.
pub const TABLE_OF_ROWS: usize = 4224;

// A branch of a choice whose rows are put: where the choice begins, whether a match of two free names stands above the branch, and the number of its
// first row.
#[derive(Clone, Copy)]
pub struct RowBranch {
    pub root: usize,
    pub asked: bool,
    pub row: usize,
}

// Puts one row, while there is room, and answers the number behind it.
fn put_row(rows: &mut [u8], n: usize, kind: u8, channel: u8, object: u8) -> usize
    requires { HasRows rows.old n }
    ensures { PutRowIs kind channel object n rows.old result rows.new }
{
    if MOST_ROWS <= n {
        return MOST_ROWS + 1;
    }
    let at = ROW_BYTES * n;
    rows[at] = kind;
    rows[at + 1] = channel;
    rows[at + 2] = object;
    n + 1
}

// Puts so many rows of candidates that add no step.
fn put_repeated(rows: &mut [u8], n: usize, count: usize) -> usize
    requires { HasRows rows.old n }
    ensures { PutRepeatedIs count n rows.old result rows.new }
{
    let mut m = n;
    for i in 0..count {
        m = put_row(rows, m, REPEATED, 0, 0);
    }
    m
}

// The kind of the row of a visible prefix, by its first byte.
fn prefix_kind(t: u8, asked: bool) -> u8
    requires { (1 < t) × (t < 5) }
    ensures { result ≡ prefix_kind t asked }
{
    if asked { t - 1 + MATCHED } else { t - 1 }
}

// The row of the visible prefix at `at`.
fn scan_prefix(
    src: &[u8],
    at: usize,
    asked: bool,
    args: &[u8],
    inner: usize,
    depth: usize,
    rows: &mut [u8],
    n: usize,
) -> usize
    requires { (at < length src.now) × (1 < get_or src.now at 0) × (get_or src.now at 0 < 5) × (inner ≤ depth) × (name_count + depth ≤ slot_count) × HasRows rows.old n }
    ensures { PrefixRowIs src.now at asked args.now inner depth n rows.old result rows.new }
{
    let t = get(src, at);
    let kind = prefix_kind(t, asked);
    let channel = slot(get(src, at + 1), args, inner, depth);
    if t == OUTPUT {
        let object = slot(get(src, at + 2), args, inner, depth);
        return put_row(rows, n, kind, channel, object);
    }
    put_row(rows, n, kind, channel, 0)
}

// Where the choice of a side at `at` begins: the sides of a choice belong to its own, and any other side stands alone.
fn root_of(t: u8, root: usize, at: usize) -> usize
    ensures { result ≡ root_of t root at }
{
    if t == CHOICE { root } else { at }
}

// Where a choice that begins at `root` begins for what stands at `next`, behind its byte or match at `at`: the first of them is no branch, and is not
// looked at again.
fn behind_root(root: usize, at: usize, next: usize) -> usize
    ensures { result ≡ behind_root root at next }
{
    if root == at { next } else { root }
}

// Whether a match of a name with itself stands at `at`: it asks nothing.
fn is_trivial(src: &[u8], at: usize, args: &[u8], inner: usize, depth: usize) -> bool
    requires { (at < length src.now) × (inner ≤ depth) × (name_count + depth ≤ slot_count) }
    ensures { result ≡ is_trivial src.now args.now inner depth at }
{
    if src[at] != MATCH {
        return false;
    }
    let u = slot(get(src, at + 1), args, inner, depth);
    let v = slot(get(src, at + 2), args, inner, depth);
    u == v
}

// Whether a match of a restricted name with another stands at `at`: the restriction blocks every candidate beneath it, and every communication with
// one.
fn is_failing(src: &[u8], at: usize, args: &[u8], inner: usize, depth: usize) -> bool
    requires { (at < length src.now) × (inner ≤ depth) × (name_count + depth ≤ slot_count) }
    ensures { result ≡ is_failing src.now args.now inner depth at }
{
    if src[at] != MATCH {
        return false;
    }
    let u = slot(get(src, at + 1), args, inner, depth);
    let v = slot(get(src, at + 2), args, inner, depth);
    if u == v {
        return false;
    }
    if NAME_COUNT <= u as usize {
        return true;
    }
    NAME_COUNT <= v as usize
}

// The place behind the piece of a choice at `p`: a byte 06, a match of a name with itself, or a branch.
fn behind_piece(
    src: &[u8],
    tally: &[u32],
    args: &[u8],
    inner: usize,
    depth: usize,
    p: usize,
) -> usize
    requires { (p < length src.now) × (inner ≤ depth) × (name_count + depth ≤ slot_count) }
    ensures { result ≡ behind_piece src.now tally.now args.now inner depth p }
{
    if src[p] == CHOICE {
        return p + 1;
    }
    if is_trivial(src, p, args, inner, depth) {
        return p + 3;
    }
    end_at(tally, p)
}

// Whether the terms at `p` and at `at` begin with the same bytes as far as no renaming changes them: the first, and a call's number.
fn begin_alike(src: &[u8], p: usize, at: usize) -> bool
    requires { (p < at) × (at ≤ length src.now + 3) }
{
    let t = get(src, at);
    get(src, p) == t && (t != CALL || get(src, p + 1) == get(src, at + 1))
}

// Whether the branches at `p` and at `at` may be the same: they begin alike, and what follows a prefix does. Most that differ differ here. A match of
// a name with itself is no branch.
fn may_be_same(src: &[u8], p: usize, at: usize, args: &[u8], inner: usize, depth: usize) -> bool
    requires { (p < at) × (at < length src.now) × (inner ≤ depth) × (name_count + depth ≤ slot_count) }
    ensures { result ≡ true → (get_or src.now p 0 ≡ get_or src.now at 0) × (is_trivial src.now args.now inner depth p ≡ false) }
{
    let t = src[at];
    if src[p] != t {
        return false;
    }
    if t == OUTPUT {
        return begin_alike(src, p + 3, at + 3);
    }
    if t < MATCH {
        return begin_alike(src, p + 2, at + 2);
    }
    !is_trivial(src, p, args, inner, depth)
}

// Whether the term at `at` is equal to an earlier branch of its choice, which begins at `root`: by the slots of their names, and its matches
// make the same condition.
fn is_repeated(
    question: &[u8],
    src: &[u8],
    tally: &[u32],
    root: usize,
    at: usize,
    args: &[u8],
    inner: usize,
    depth: usize,
) -> bool
    requires { (at < length src.now) × EndsInside src.now tally.now × (inner ≤ depth) × (name_count + depth + (length src.now - at) ≤ slot_count) }
    ensures { EndsTallied question.now src.now tally.now → RepeatedIs question.now src.now args.now inner depth root at result }
{
    let mut p = root;
    // A piece's length says where the next begins, so no range or iterator walks them.
    while p < at {
        if may_be_same(src, p, at, args, inner, depth) {
            if same_branch(src, p, at, arities_of(question), args, inner, depth) {
                return true;
            }
        }
        p = behind_piece(src, tally, args, inner, depth, p);
    }
    false
}

// Whether the candidates of the term at `at` add no step: it is a match that fails, or equal to an earlier branch of its choice.
fn adds_nothing(
    question: &[u8],
    src: &[u8],
    tally: &[u32],
    root: usize,
    at: usize,
    args: &[u8],
    inner: usize,
    depth: usize,
) -> bool
    requires { (at < length src.now) × EndsInside src.now tally.now × (inner ≤ depth) × (name_count + depth + (length src.now - at) ≤ slot_count) }
    ensures { EndsTallied question.now src.now tally.now → RepeatedIs question.now src.now args.now inner depth root at result }
{
    if is_failing(src, at, args, inner, depth) {
        return true;
    }
    is_repeated(question, src, tally, root, at, args, inner, depth)
}

// A call: the rows of the body, while calls are left to open.
#[cycle(scan_scan_call)]
fn scan_call(
    question: &[u8],
    bodies: &[u32],
    src: &[u8],
    scope: Scope,
    args: &[u8],
    rows: &mut [u8],
    branch: RowBranch,
) -> usize
    requires { (scope.at < length src.now) × (8 < get_or src.now scope.at 0) × Within src.now scope.at scope.inner scope.depth scope.calls × BodiesTallied question.now bodies.now × HasRows rows.old branch.row }
    ensures { ScanIs question.now src.now branch.root scope.at branch.asked args.now scope.inner scope.depth scope.calls branch.row rows.old result rows.new }
{
    let at = scope.at;
    let depth = scope.depth;
    let calls = scope.calls;
    let n = branch.row;
    let Ok(o) = call_at(question, bodies, src, at, calls) else {
        return n;
    };
    if src.len() < o.end {
        return n;
    }
    let given = arguments(src, at + 2, o.arity, args, scope.inner, depth);
    let body = body_at(question, o.place);
    let within = body_tally(bodies, o.definition);
    let left = calls - 1;
    let inside = Scope {
        at: 0,
        inner: 0,
        depth,
        calls: left,
    };
    let own = RowBranch {
        root: 0,
        asked: branch.asked,
        row: n,
    };
    scan(question, bodies, body, within, inside, &given, rows, own)
}

// Puts the visible candidates of a term into the rows, and answers the number behind the last; `args` has the slots of the parameters. Beneath a match
// of two free names the rows say so; one of a name with itself is passed by.
#[cycle(scan_scan_call)]
pub fn scan(
    question: &[u8],
    bodies: &[u32],
    src: &[u8],
    tally: &[u32],
    scope: Scope,
    args: &[u8],
    rows: &mut [u8],
    branch: RowBranch,
) -> usize
    requires { Within src.now scope.at scope.inner scope.depth scope.calls × TallyIs question.now src.now scope.calls tally.now × BodiesTallied question.now bodies.now × HasRows rows.old branch.row }
    ensures { ScanIs question.now src.now branch.root scope.at branch.asked args.now scope.inner scope.depth scope.calls branch.row rows.old result rows.new }
{
    let at = scope.at;
    let inner = scope.inner;
    let depth = scope.depth;
    let calls = scope.calls;
    let root = branch.root;
    let asked = branch.asked;
    let n = branch.row;
    if src.len() <= at {
        return n;
    }
    let t = src[at];
    if t < INPUT {
        return n;
    }
    if is_trivial(src, at, args, inner, depth) {
        let next = at + 3;
        let behind = Scope {
            at: next,
            inner,
            depth,
            calls,
        };
        let same = RowBranch {
            root: behind_root(root, at, next),
            asked,
            row: n,
        };
        return scan(question, bodies, src, tally, behind, args, rows, same);
    }
    if t != CHOICE {
        if adds_nothing(question, src, tally, root, at, args, inner, depth) {
            return put_repeated(rows, n, visible_at(tally, at));
        }
    }
    if t < MATCH {
        return scan_prefix(src, at, asked, args, inner, depth, rows, n);
    }
    if t == MATCH {
        let matched = at + 3;
        let beneath = Scope {
            at: matched,
            inner,
            depth,
            calls,
        };
        let alone = RowBranch {
            root: matched,
            asked: true,
            row: n,
        };
        return scan(question, bodies, src, tally, beneath, args, rows, alone);
    }
    if t == RESTRICTION {
        let bound = at + 1;
        let innermost = inner + 1;
        let deeper = depth + 1;
        let beneath = Scope {
            at: bound,
            inner: innermost,
            depth: deeper,
            calls,
        };
        let alone = RowBranch {
            root: bound,
            asked,
            row: n,
        };
        return scan(question, bodies, src, tally, beneath, args, rows, alone);
    }
    if RESTRICTION < t {
        return scan_call(question, bodies, src, scope, args, rows, branch);
    }
    let middle = middle_of(src, tally, at);
    let first = at + 1;
    let begins = behind_root(root, at, first);
    let left_root = root_of(t, begins, first);
    let left = Scope {
        at: first,
        inner,
        depth,
        calls,
    };
    let left_branch = RowBranch {
        root: left_root,
        asked,
        row: n,
    };
    let m = scan(question, bodies, src, tally, left, args, rows, left_branch);
    let right_root = root_of(t, begins, middle);
    let right = Scope {
        at: middle,
        inner,
        depth,
        calls,
    };
    let right_branch = RowBranch {
        root: right_root,
        asked,
        row: m,
    };
    scan(
        question,
        bodies,
        src,
        tally,
        right,
        args,
        rows,
        right_branch,
    )
}

// The call at `at`: the body, while calls are left to open.
#[cycle(unconditional_unconditional_call)]
fn unconditional_call(question: &[u8], bodies: &[u32], src: &[u8], at: usize, calls: usize) -> bool
    requires { (at < length src.now) × (8 < get_or src.now at 0) × (calls ≤ 1) × BodiesTallied question.now bodies.now }
    ensures { UnconditionalIs question.now src.now at calls result }
{
    let Ok(o) = call_at(question, bodies, src, at, calls) else {
        return true;
    };
    let body = body_at(question, o.place);
    let within = body_tally(bodies, o.definition);
    unconditional(question, bodies, body, within, 0, calls - 1)
}

// Whether the silent candidates of the term at `at` have no condition: neither a match nor a parallel stands above a silent prefix.
#[cycle(unconditional_unconditional_call)]
pub fn unconditional(
    question: &[u8],
    bodies: &[u32],
    src: &[u8],
    tally: &[u32],
    at: usize,
    calls: usize,
) -> bool
    requires { (length src.now ≤ longest_term) × (calls ≤ 1) × TallyIs question.now src.now calls tally.now × BodiesTallied question.now bodies.now }
    ensures { UnconditionalIs question.now src.now at calls result }
{
    if src.len() <= at {
        return true;
    }
    if silent_at(tally, at) == 0 {
        return true;
    }
    let t = src[at];
    if t < MATCH {
        return true;
    }
    if t == RESTRICTION {
        return unconditional(question, bodies, src, tally, at + 1, calls);
    }
    if RESTRICTION < t {
        return unconditional_call(question, bodies, src, at, calls);
    }
    if t != CHOICE {
        return false;
    }
    let middle = middle_of(src, tally, at);
    if !unconditional(question, bodies, src, tally, at + 1, calls) {
        return false;
    }
    unconditional(question, bodies, src, tally, middle, calls)
}

// The rows of a component of a part. Most components are calls, which are opened at once: they are no branches of a choice.
pub fn scan_component(
    question: &[u8],
    bodies: &[u32],
    src: &[u8],
    tally: &[u32],
    scope: Scope,
    args: &[u8],
    rows: &mut [u8],
    branch: RowBranch,
) -> usize
    requires { (scope.at < length src.now) × Within src.now scope.at scope.inner scope.depth scope.calls × TallyIs question.now src.now scope.calls tally.now × BodiesTallied question.now bodies.now × HasRows rows.old branch.row }
    ensures { ScanIs question.now src.now branch.root scope.at branch.asked args.now scope.inner scope.depth scope.calls branch.row rows.old result rows.new }
{
    let at = scope.at;
    if src[at] == CALL {
        return scan_call(question, bodies, src, scope, args, rows, branch);
    }
    scan(question, bodies, src, tally, scope, args, rows, branch)
}
