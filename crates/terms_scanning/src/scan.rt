// The grammar walk: checks 7, 8, 16 and 9 in one pass over a term's bytes from left to right, the first fault deciding. It gathers what checks 10
// and 11 will ask of the term, so that no later check walks again. Calls are counted in edition two: the number of names stands before them.
ghost use Rattle.std.specs.Prelude.{◌≡◌, ◌+◌, ◌≤◌};
ghost use Rattle.terms_bytes.specs.Counted.{edition_from};
ghost use Rattle.terms_scanning.specs.Scanning.{name_allowed, NamesIs, CallIs, FrontIs, passing, combined, ScanIs, scanned_whole, whole_answer};

use terms_bytes::answer::Refusal;
use terms_bytes::bytes::get;
use terms_bytes::shape::shape_at;
use terms_bytes::tags::{CALL, NEW_OUTPUT, PARALLEL, RESTRICTION, SILENT};

// What checks 10 and 11 ask of a term: no parallel in it; parallels beneath nothing but parallels and restrictions; every call beneath a prefix.
#[derive(Clone, Copy)]
pub struct Control {
    pub sequential: bool,
    pub outermost: bool,
    pub guarded: bool,
}

// Whether `b` is a name under `depth` binders, where `free` names may stand free.
#[tactic(auto, unfolding(crate::specs::Scanning::name_allowed))]
fn is_name(b: u8, depth: usize, free: usize) -> bool
    ensures { result ≡ name_allowed free depth b }
{
    let n = b as usize;
    n < free || (128 <= n && n - 128 < depth)
}

// The `count` names that begin at `from`; answers where they end.
fn scan_names(
    src: &[u8],
    from: usize,
    count: usize,
    depth: usize,
    free: usize,
) -> Result<usize, Refusal>
    ensures { NamesIs free depth count src.now from result }
{
    for i in 0..count {
        if src.len() <= from + i {
            return Err(Refusal::Grammar);
        }
        if !is_name(src[from + i], depth, free) {
            return Err(Refusal::UnknownName);
        }
    }
    Ok(from + count)
}

// A call from its definition's number on, which stands at `at`: in edition two the number of names, which must be the arity, then the names.
fn scan_call(
    src: &[u8],
    at: usize,
    depth: usize,
    free: usize,
    arities: &[u8],
    counted: bool,
) -> Result<usize, Refusal>
    ensures { CallIs (edition_from counted) free arities.now depth src.now at result }
{
    if src.len() <= at {
        return Err(Refusal::Grammar);
    }
    let k = get(src, at) as usize;
    if arities.len() <= k {
        return Err(Refusal::UnknownDefinition);
    }
    let names = get(arities, k);
    if counted {
        if src.len() <= at + 1 {
            return Err(Refusal::Grammar);
        }
        if get(src, at + 1) != names {
            return Err(Refusal::NameCount);
        }
        return scan_names(src, at + 2, names as usize, depth, free);
    }
    scan_names(src, at + 1, names as usize, depth, free)
}

// The first byte of a term, and what stands behind it before the subterms: a call's number and its names, or names.
fn scan_front(
    src: &[u8],
    at: usize,
    depth: usize,
    free: usize,
    arities: &[u8],
    counted: bool,
) -> Result<usize, Refusal>
    ensures { FrontIs (edition_from counted) free arities.now depth src.now at result }
{
    if src.len() <= at {
        return Err(Refusal::Grammar);
    }
    let t = get(src, at);
    if CALL < t {
        return Err(Refusal::Grammar);
    }
    if t == CALL {
        return scan_call(src, at + 1, depth, free, arities, counted);
    }
    let h = shape_at(src, at, arities);
    let names = h.names;
    scan_names(src, at + 1, names, depth, free)
}

// The tests of a subterm that is not there.
pub fn passed() -> Control
    ensures { result ≡ passing }
{
    Control {
        sequential: true,
        outermost: true,
        guarded: true,
    }
}

// The tests of a term from its first byte and those of its subterms.
fn combine(t: u8, p: Control, q: Control) -> Control
    ensures { result ≡ combined t p q }
{
    let s = p.sequential & q.sequential;
    let o = p.outermost & q.outermost;
    let g = p.guarded & q.guarded;
    match t {
        SILENT..=NEW_OUTPUT => Control {
            sequential: s,
            outermost: s,
            guarded: true,
        },
        PARALLEL => Control {
            sequential: false,
            outermost: o,
            guarded: g,
        },
        RESTRICTION => Control {
            sequential: s,
            outermost: o,
            guarded: g,
        },
        CALL => Control {
            sequential: s,
            outermost: s,
            guarded: false,
        },
        _ => Control {
            sequential: s,
            outermost: s,
            guarded: g,
        },
    }
}

// The term at `at`: where it ends, and what checks 10 and 11 ask of it.
fn scan_term(
    src: &[u8],
    at: usize,
    depth: usize,
    free: usize,
    arities: &[u8],
    counted: bool,
) -> Result<(usize, Control), Refusal>
    requires { depth ≤ at + 255 }
    ensures { ScanIs (edition_from counted) free arities.now depth src.now at result }
{
    let n = scan_front(src, at, depth, free, arities, counted)?;
    let h = shape_at(src, at, arities);
    let subterms = h.subterms;
    let deeper = depth + h.binds;
    let t = get(src, at);
    if subterms == 0 {
        return Ok((n, combine(t, passed(), passed())));
    }
    let (e, p) = scan_term(src, n, deeper, free, arities, counted)?;
    if subterms == 1 {
        return Ok((e, combine(t, p, passed())));
    }
    let (last, q) = scan_term(src, e, deeper, free, arities, counted)?;
    Ok((last, combine(t, p, q)))
}

// A whole body or part: nothing may follow its term.
pub fn scan_whole(
    src: &[u8],
    depth: usize,
    free: usize,
    arities: &[u8],
    counted: bool,
) -> Result<Control, Refusal>
    requires { depth ≤ 255 }
    ensures { scanned_whole (edition_from counted) free arities.now depth src.now ≡ whole_answer result }
{
    let (e, c) = scan_term(src, 0, depth, free, arities, counted)?;
    if e < src.len() {
        return Err(Refusal::Grammar);
    }
    Ok(c)
}
