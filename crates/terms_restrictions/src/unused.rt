// Whether a term uses the name of a binder around it.
ghost use Rattle.std.specs.Prelude.{◌≡◌, ◌≤◌, length};
ghost use Rattle.calculus.specs.Distinction.{among};
ghost use Rattle.terms_restrictions.specs.Unused.{UnusedFrontIs, UnusedToIs, BindsNothingIs};

use terms_bytes::bytes::{get, room};
use terms_bytes::shape::{Front, shape_at};
use terms_bytes::tags::RESTRICTION;

// Whether one of the name bytes is `b`, which may be past any.
fn has_byte(names: &[u8], b: usize) -> bool
    ensures { result ≡ among names.now b }
{
    names.iter().any(|x| *x as usize == b)
}

// The front of the term at `at`, if it is all there and the name of the binder number `inner` outward doesn't stand in it.
fn unused_front(src: &[u8], at: usize, arities: &[u8], inner: usize) -> Option<Front>
    requires { inner ≤ at }
    ensures { UnusedFrontIs src.now at arities.now inner result }
{
    if src.len() <= at {
        return None;
    }
    let h = shape_at(src, at, arities);
    let fixed = h.fixed;
    let n = fixed + h.names;
    if !room(src.len(), at, n) {
        return None;
    }
    if has_byte(&src[at + fixed..at + n], 128 + inner) {
        return None;
    }
    Some(Front {
        len: n,
        binds: h.binds,
        subterms: h.subterms,
    })
}

// Where the term at `at` ends, if the name of the binder number `inner` outward is not free in it. A call's names count.
pub fn unused_to(src: &[u8], at: usize, arities: &[u8], inner: usize) -> Option<usize>
    requires { (inner ≤ at) × (at ≤ length src.now) }
    ensures { UnusedToIs src.now at arities.now inner result }
{
    let h = unused_front(src, at, arities, inner)?;
    let n = h.len;
    let subterms = h.subterms;
    if subterms == 0 {
        return Some(at + n);
    }
    let deeper = inner + h.binds;
    let e = unused_to(src, at + n, arities, deeper)?;
    if subterms == 1 {
        return Some(e);
    }
    unused_to(src, e, arities, deeper)
}

// Whether a restriction stands at `at` whose name is not free beneath it.
pub fn binds_nothing(src: &[u8], at: usize, arities: &[u8]) -> bool
    ensures { BindsNothingIs src.now at arities.now result }
{
    if src.len() <= at {
        return false;
    }
    if get(src, at) != RESTRICTION {
        return false;
    }
    unused_to(src, at + 1, arities, 0).is_some()
}
