// Whether a term is tidied already, in one walk from front to front.
ghost use Rattle.std.specs.Prelude.{cond, [], ◌∷◌, ◌≡◌, ◌<◌, ◌≤◌, eqb, length, get_or};
ghost use Rattle.terms_tidying.specs.TidiedTerms.{KeepsBytes, FrontOf, NextFrontIs, FollowIs, IsTidiedIs};

use terms_bytes::bytes::{get, room};
use terms_bytes::shape::Front;
use terms_bytes::tags::{CALL, CHOICE, INACTION, INPUT, NEW_OUTPUT, PARALLEL, RESTRICTION, SILENT};
use terms_restrictions::occurs::occurs;

// How many binders have a byte; no term of a question is longer.
const BINDERS: usize = 128;

// Uses the name `b` beneath `depth` binders: if a restriction's, that waits no more. An index counts outward, `waits` from outside.
fn use_name(b: u8, depth: usize, waits: &mut [u8])
    requires { depth ≤ length waits.old }
    ensures { KeepsBytes depth (b ∷ []) waits.old waits.new }
{
    if b < 128 {
        return;
    }
    let inner = b as usize - 128;
    if depth <= inner {
        return;
    }
    waits[depth - 1 - inner] = 0;
}

// The same of several names.
fn use_names(names: &[u8], depth: usize, waits: &mut [u8])
    requires { depth ≤ length waits.old }
    ensures { KeepsBytes depth names.now waits.old waits.new }
{
    for x in names {
        use_name(*x, depth, waits);
    }
}

fn front(len: usize, binds: usize, subterms: usize) -> Front
    ensures { FrontOf len binds subterms result }
{
    Front {
        len,
        binds,
        subterms,
    }
}

// The call at `at`, whose names are used.
fn use_call(src: &[u8], at: usize, arities: &[u8], depth: usize, waits: &mut [u8]) -> Option<Front>
    requires { (at < length src.now) × (get_or src.now at 0 ≡ 9) × (depth ≤ length waits.old) }
    ensures { NextFrontIs src.now at arities.now depth waits.old result waits.new }
{
    let k = get(src, at + 1) as usize;
    let n = get(arities, k) as usize;
    if !room(src.len(), at, 2 + n) {
        return None;
    }
    use_names(&src[at + 2..at + (2 + n)], depth, waits);
    Some(front(2 + n, 0, 0))
}

// The front of the term at `at`, whose names are used. The tests are its own: by `shape_at` the walk takes 1.4 times the instructions.
fn next_front(
    src: &[u8],
    at: usize,
    arities: &[u8],
    depth: usize,
    waits: &mut [u8],
) -> Option<Front>
    requires { (at < length src.now) × (depth ≤ length waits.old) }
    ensures { NextFrontIs src.now at arities.now depth waits.old result waits.new }
{
    let t = get(src, at);
    if t == INACTION {
        return Some(front(1, 0, 0));
    }
    if t == SILENT {
        return Some(front(1, 0, 1));
    }
    if t == CHOICE {
        return Some(front(1, 0, 2));
    }
    if t == PARALLEL {
        return Some(front(1, 0, 2));
    }
    if t == RESTRICTION {
        return Some(front(1, 1, 1));
    }
    if t == CALL {
        return use_call(src, at, arities, depth, waits);
    }
    if CALL < t {
        return None;
    }
    use_name(get(src, at + 1), depth, waits);
    if t == INPUT {
        return Some(front(2, 1, 1));
    }
    if t == NEW_OUTPUT {
        return Some(front(2, 1, 1));
    }
    use_name(get(src, at + 2), depth, waits);
    Some(front(3, 0, 1))
}

// How many binders stand around a term, and how many second subterms are still to come behind it.
#[derive(Clone, Copy)]
pub struct Place {
    pub depth: usize,
    pub pending: usize,
}

// The place of the next term, behind a front that has `depth` binders around its subterms. `depths` is the stack of the second subterms'.
fn follow(subterms: usize, depth: usize, pending: usize, depths: &mut [u8]) -> Place
    requires { (depth < 256) × (pending < length depths.old) }
    ensures { FollowIs subterms depth pending depths.old result depths.new }
{
    if subterms == 1 {
        return Place { depth, pending };
    }
    if subterms == 2 {
        depths[pending] = depth as u8;
        return Place {
            depth,
            pending: pending + 1,
        };
    }
    if pending == 0 {
        return Place { depth, pending };
    }
    let below = pending - 1;
    Place {
        depth: get(depths, below) as usize,
        pending: below,
    }
}

// 1 where a restriction begins.
fn waiting(t: u8) -> u8
    ensures { result ≡ cond (eqb t 8) 1 0 }
{
    if t == RESTRICTION { 1 } else { 0 }
}

// Whether the name of each restriction of the term that `src` is is used. One that waits at the depth of a further front has come to its end.
fn all_used(src: &[u8], arities: &[u8]) -> bool
    requires { length src.now ≤ 128 }
    ensures { IsTidiedIs src.now arities.now result }
{
    let mut waits = [0u8; BINDERS];
    let mut depths = [0u8; BINDERS];
    let mut depth = 0;
    let mut pending = 0;
    let mut at = 0;
    // The step is the front's length, so no range or iterator takes it.
    while at < src.len() {
        if BINDERS <= depth {
            return false;
        }
        let Some(h) = next_front(src, at, arities, depth, &mut waits) else {
            return false;
        };
        if waits[depth] == 1 {
            return false;
        }
        waits[depth] = waiting(src[at]);
        let p = follow(h.subterms, depth + h.binds, pending, &mut depths);
        depth = p.depth;
        pending = p.pending;
        at += h.len;
    }
    !occurs(&waits, 1)
}

// Whether no restriction of the term that `src` is binds nothing. Most terms have none.
pub fn is_tidied(src: &[u8], arities: &[u8]) -> bool
    ensures { IsTidiedIs src.now arities.now result }
{
    if !occurs(src, RESTRICTION) {
        return true;
    }
    if BINDERS < src.len() {
        return false;
    }
    all_used(src, arities)
}
