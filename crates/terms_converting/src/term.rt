// A term copied from one edition to the other, from front to front: document 02, request 2026-05.
ghost use Rattle.std.specs.Prelude.{◌≡◌, ◌∷◌, ◌++◌, ◌+◌, ◌<◌, ◌≤◌, length};
ghost use Rattle.terms_bytes.proofs.Stores.{span};
ghost use Rattle.terms_converting.specs.Converting.{RunIs, ConvertsFront, ConvertsTerm};

use terms_bytes::bytes::{copy, get, room};
use terms_bytes::shape::shape_at;
use terms_bytes::tags::CALL;

// Where the next front stands, and where its copy goes.
#[derive(Clone, Copy)]
pub struct Copied {
    pub at: usize,
    pub to: usize,
}

// A front that is no call: its bytes.
fn plain_front(src: &[u8], at: usize, n: usize, out: &mut [u8], to: usize) -> Copied
    requires { (at < length src.now) × (n < 512) }
    ensures { RunIs src.now at n (span src.now at n) out.old to result out.new }
{
    if !room(src.len(), at, n) {
        return Copied { at: src.len(), to };
    }
    if !room(out.len(), to, n) {
        return Copied { at: src.len(), to };
    }
    copy(src, at, n, out, to);
    Copied {
        at: at + n,
        to: to + n,
    }
}

// The front of a call of edition two: the number of names is left out.
fn call_down(src: &[u8], at: usize, count: u8, out: &mut [u8], to: usize) -> Copied
    requires { at < length src.now }
    ensures { RunIs src.now at (3 + count) (span src.now at 2 ++ span src.now (at + 3) count) out.old to result out.new }
{
    let names = count as usize;
    if !room(src.len(), at, 3 + names) {
        return Copied { at: src.len(), to };
    }
    if !room(out.len(), to, 2 + names) {
        return Copied { at: src.len(), to };
    }
    copy(src, at, 2, out, to);
    copy(src, at + 3, names, out, to + 2);
    Copied {
        at: at + (3 + names),
        to: to + (2 + names),
    }
}

// The front of a call of edition one: the number of names is put in.
fn call_up(src: &[u8], at: usize, count: u8, out: &mut [u8], to: usize) -> Copied
    requires { at < length src.now }
    ensures { RunIs src.now at (2 + count) (span src.now at 2 ++ (count ∷ span src.now (at + 2) count)) out.old to result out.new }
{
    let names = count as usize;
    if !room(src.len(), at, 2 + names) {
        return Copied { at: src.len(), to };
    }
    if !room(out.len(), to, 3 + names) {
        return Copied { at: src.len(), to };
    }
    copy(src, at, 2, out, to);
    out[to + 2] = count;
    copy(src, at + 2, names, out, to + 3);
    Copied {
        at: at + (2 + names),
        to: to + (3 + names),
    }
}

// Copies the front of the term at `at`.
fn convert_front(
    src: &[u8],
    at: usize,
    arities: &[u8],
    counted: bool,
    out: &mut [u8],
    to: usize,
) -> Copied
    requires { at < length src.now }
    ensures { ConvertsFront src.now at arities.now counted out.old to result out.new }
{
    if get(src, at) == CALL {
        let count = get(arities, get(src, at + 1) as usize);
        if counted {
            return call_down(src, at, count, out, to);
        }
        return call_up(src, at, count, out, to);
    }
    let h = shape_at(src, at, arities);
    let names = h.names;
    plain_front(src, at, 1 + names, out, to)
}

// Copies the term that `src` is to `put`, from edition two to one if it is counted, else from one to two; answers where the copy ends. A term's bytes are
// fronts, one behind the other, however deep.
pub fn convert_term(src: &[u8], arities: &[u8], counted: bool, out: &mut [u8], put: usize) -> usize
    ensures { ConvertsTerm src.now arities.now counted out.old put result out.new }
{
    let mut at = 0;
    let mut to = put;
    // The step is the front's length, so no range or iterator takes it.
    while at < src.len() {
        let c = convert_front(src, at, arities, counted, out, to);
        at = c.at;
        to = c.to;
    }
    to
}
