// The shape of a term by its first byte: document 01, the table of bytes. What it keeps, how many names and subterms it has.
ghost use Rattle.std.specs.Prelude.{◌≡◌, ◌<◌, length};
ghost use Rattle.terms_bytes.specs.Shape.{names_behind, binders_at, subterms_at, ShapeIs};

use crate::bytes::get;
use crate::tags::{
    CALL, CHOICE, INACTION, INPUT, MATCH, NEW_OUTPUT, OUTPUT, PARALLEL, RESTRICTION, SILENT,
};

#[derive(Clone, Copy)]
pub struct Shape {
    // the bytes that no renaming changes: the first, and a call's number
    pub fixed: usize,
    // the names behind those
    pub names: usize,
    // the binders before the subterms
    pub binds: usize,
    // the subterms
    pub subterms: usize,
}

// What a walk needs to know of a front that it has passed.
#[derive(Clone, Copy)]
pub struct Front {
    // its bytes
    pub len: usize,
    // the binders before the subterms
    pub binds: usize,
    // the subterms
    pub subterms: usize,
}

// How many names stand behind the first byte, unless it is a call's. Tests take less than a table, which would be made anew at each call.
fn names_of(t: u8) -> usize
    ensures { result ≡ names_behind t }
{
    match t {
        INPUT | NEW_OUTPUT => 1,
        OUTPUT | MATCH => 2,
        _ => 0,
    }
}

#[tactic(auto, unfolding(crate::specs::Shape::binders_at))]
fn binders_of(t: u8) -> usize
    ensures { result ≡ binders_at t }
{
    match t {
        INPUT | NEW_OUTPUT | RESTRICTION => 1,
        _ => 0,
    }
}

#[tactic(auto, unfolding(crate::specs::Shape::subterms_at))]
fn subterm_count(t: u8) -> usize
    ensures { result ≡ subterms_at t }
{
    match t {
        INACTION => 0,
        CHOICE | PARALLEL => 2,
        SILENT..=RESTRICTION => 1,
        _ => 0,
    }
}

// The shape of what begins at `at`.
pub fn shape_at(src: &[u8], at: usize, arities: &[u8]) -> Shape
    requires { at < length src.now }
    ensures { ShapeIs src.now at arities.now result }
{
    let t = get(src, at);
    if t == CALL {
        let k = get(src, at + 1) as usize;
        let n = get(arities, k) as usize;
        return Shape {
            fixed: 2,
            names: n,
            binds: 0,
            subterms: 0,
        };
    }
    Shape {
        fixed: 1,
        names: names_of(t),
        binds: binders_of(t),
        subterms: subterm_count(t),
    }
}
