// The front of a term: its first byte and its own names.
ghost use Rattle.steps_tallies.specs.Fronts.{FrontIs};

use terms_bytes::bytes::room;
use terms_bytes::shape::shape_at;

// The first byte of a term, and where its own names end.
#[derive(Clone, Copy)]
pub struct TermFront {
    pub tag: u8,
    pub next: usize,
}

// The front of the term at `at`, if there is one.
pub fn front_at(src: &[u8], at: usize, arities: &[u8]) -> Option<TermFront>
    ensures { FrontIs src.now at arities.now result }
{
    if src.len() <= at {
        return None;
    }
    let h = shape_at(src, at, arities);
    let n = h.fixed + h.names;
    if !room(src.len(), at, n) {
        return None;
    }
    Some(TermFront {
        tag: src[at],
        next: at + n,
    })
}
