// Whether two terms that stand in the same bytes are one once their names are read: a walk of both at once. Names are compared by their slots, so
// two parameters that stand for one name are the same; a name bound within has a slot of its own. The matches above two branches are compared by the
// conditions that they make.
ghost use Rattle.std.specs.Prelude.{◌≡◌, true, ◌+◌, ◌-◌, ◌*◌, ◌≤◌, ◌<◌, length};
ghost use Rattle.terms.specs.Limits.{name_count};
ghost use Rattle.steps_conditions.specs.Slots.{slot_count, HasSlotClasses};
ghost use Rattle.steps_equal_branches.specs.Same.{SameNames, SameFront, Positive, length_or_none, SameIs, ChainIs, chain, Equivalent, HoldsIs, SameBranchIs};

use steps_conditions::condition::Condition;
use steps_entries::listed::alike;
use steps_labels::label::slot;
use terms_bytes::bytes::{get, room};
use terms_bytes::shape::shape_at;
use terms_bytes::tags::MATCH;

// Whether the `n` name bytes at `p` and those at `at` stand for the same names.
fn same_names(
    src: &[u8],
    p: usize,
    at: usize,
    n: usize,
    args: &[u8],
    inner: usize,
    depth: usize,
) -> bool
    requires { (p + n ≤ length src.now) × (at + n ≤ length src.now) × (inner ≤ depth) × (name_count + depth ≤ slot_count) }
    ensures { result ≡ true → SameNames src.now args.now inner depth p at n }
{
    for j in 0..n {
        let u = slot(src[p + j], args, inner, depth);
        let v = slot(src[at + j], args, inner, depth);
        if u != v {
            return false;
        }
    }
    true
}

// Whether `fixed` bytes and the `names` name bytes behind them are the same at `p` and at `at`.
fn same_front(
    src: &[u8],
    p: usize,
    at: usize,
    fixed: usize,
    names: usize,
    args: &[u8],
    inner: usize,
    depth: usize,
) -> bool
    requires { (p < at) × (fixed + names < 512) × (inner ≤ depth) × (name_count + depth ≤ slot_count) }
    ensures { result ≡ true → SameFront src.now args.now inner depth p at fixed names }
{
    if !room(src.len(), at, fixed + names) {
        return false;
    }
    if !alike(src, p, src, at, fixed) {
        return false;
    }
    same_names(src, p + fixed, at + fixed, names, args, inner, depth)
}

// The length of the term at `at`, which stands beneath `inner` binders of these bytes and `depth` in all, if the term at `p` is the same.
fn same_term(
    src: &[u8],
    p: usize,
    at: usize,
    arities: &[u8],
    args: &[u8],
    inner: usize,
    depth: usize,
) -> Option<usize>
    requires { (p < at) × (inner ≤ depth) × (name_count + depth + (length src.now - at) ≤ slot_count) }
    ensures some { Positive result }
    ensures is { SameIs src.now p at arities.now args.now inner depth (length_or_none result) }
{
    if src.len() <= at {
        return None;
    }
    let h = shape_at(src, at, arities);
    let fixed = h.fixed;
    let names = h.names;
    let subterms = h.subterms;
    if !same_front(src, p, at, fixed, names, args, inner, depth) {
        return None;
    }
    let n = fixed + names;
    if subterms == 0 {
        return Some(n);
    }
    let i = inner + h.binds;
    let d = depth + h.binds;
    let e = same_term(src, p + n, at + n, arities, args, i, d)?;
    let m = n + e;
    if subterms == 1 {
        return Some(m);
    }
    let f = same_term(src, p + m, at + m, arities, args, i, d)?;
    Some(m + f)
}

// The number of matches that stand one beneath the other from `at` on.
fn chain_length(src: &[u8], at: usize) -> usize
    ensures { ChainIs src.now at result }
{
    let mut n = 0;
    let mut q = at;
    // A match's first byte is looked at only where the one above it is a match: `step_by` and `take_while` say it no shorter.
    while q < src.len() {
        if src[q] != MATCH {
            return n;
        }
        n += 1;
        q += 3;
    }
    n
}

// The condition that the `n` matches from `p` on make.
fn chain_condition(
    src: &[u8],
    p: usize,
    n: usize,
    args: &[u8],
    inner: usize,
    depth: usize,
) -> Condition
    requires { (p + 3 * n ≤ length src.now + 2) × (inner ≤ depth) × (name_count + depth ≤ slot_count) }
    ensures { HasSlotClasses result.class (chain src.now args.now inner depth p n) }
{
    let mut c = Condition::empty();
    for j in 0..n {
        let q = p + 3 * j;
        let u = slot(get(src, q + 1), args, inner, depth);
        let v = slot(get(src, q + 2), args, inner, depth);
        c = c.merge(u, v);
    }
    c
}

// Whether the condition `c` makes the `n` matches from `p` on true.
fn chain_holds(
    c: Condition,
    src: &[u8],
    p: usize,
    n: usize,
    args: &[u8],
    inner: usize,
    depth: usize,
) -> bool
    requires { (p + 3 * n ≤ length src.now + 2) × (inner ≤ depth) × (name_count + depth ≤ slot_count) }
    ensures { result ≡ true → HoldsIs c.class src.now args.now inner depth p n }
{
    let class = c.class;
    for j in 0..n {
        let q = p + 3 * j;
        let u = slot(get(src, q + 1), args, inner, depth);
        let v = slot(get(src, q + 2), args, inner, depth);
        if Condition::respects(&class, 0, u as usize, v as usize) {
            return false;
        }
    }
    true
}

// Whether the `m` matches from `p` on and the `n` from `at` on make the same condition.
fn same_condition(
    src: &[u8],
    p: usize,
    m: usize,
    at: usize,
    n: usize,
    args: &[u8],
    inner: usize,
    depth: usize,
) -> bool
    requires { (p + 3 * m ≤ length src.now + 2) × (at + 3 * n ≤ length src.now + 2) × (inner ≤ depth) × (name_count + depth ≤ slot_count) }
    ensures { result ≡ true → Equivalent (chain src.now args.now inner depth p m) (chain src.now args.now inner depth at n) }
{
    let first = chain_condition(src, p, m, args, inner, depth);
    if !chain_holds(first, src, at, n, args, inner, depth) {
        return false;
    }
    let second = chain_condition(src, at, n, args, inner, depth);
    chain_holds(second, src, p, m, args, inner, depth)
}

// Whether the branch at `at` adds no step to the one at `p`: they are the same, but that their matches may make one condition in different ways.
pub fn same_branch(
    src: &[u8],
    p: usize,
    at: usize,
    arities: &[u8],
    args: &[u8],
    inner: usize,
    depth: usize,
) -> bool
    requires { (p < at) × (inner ≤ depth) × (name_count + depth + (length src.now - at) ≤ slot_count) }
    ensures { SameBranchIs src.now p at arities.now args.now inner depth result }
{
    let m = chain_length(src, p);
    let n = chain_length(src, at);
    let behind = p + 3 * m;
    let end = at + 3 * n;
    if end <= behind {
        return false;
    }
    // what stands beneath differs more often than the conditions, and takes less to compare
    let Some(k) = same_term(src, behind, end, arities, args, inner, depth) else {
        return false;
    };
    if n == 0 {
        return m == 0;
    }
    same_condition(src, p, m, at, n, args, inner, depth)
}
