// The free names of a part. A term's bytes are its fronts in order, and a free name has the same byte beneath any binders, so one loop finds them.
ghost use Rattle.std.specs.Prelude.{◌≡◌, set};
ghost use Rattle.terms_renaming.specs.FreeFlags.{marks, MarksFreeOf, FreeFlagsOf, IsFreeOf};

use terms_bytes::bytes::{get, room};
use terms_bytes::limits::NAME_COUNT;
use terms_bytes::shape::shape_at;

// Sets the flag of one name byte; a binder's byte has none.
fn mark(flags: &mut [u8], b: u8)
    ensures { flags.new ≡ set flags.old b 1 }
{
    let n = b as usize;
    if n < flags.len() {
        flags[n] = 1;
    }
}

// Sets the flags of the name bytes.
fn mark_names(names: &[u8], flags: &mut [u8])
    ensures { flags.new ≡ marks flags.old names.now }
{
    for x in names {
        mark(flags, *x);
    }
}

// Sets the flags of the names that are free in the part; the others stay, so that several parts can be gone through.
pub fn mark_free(part: &[u8], arities: &[u8], flags: &mut [u8])
    ensures { MarksFreeOf part.now arities.now flags.old flags.new }
{
    let mut at = 0;
    // The step is the front's length, so no range or iterator takes it.
    while at < part.len() {
        let h = shape_at(part, at, arities);
        let fixed = h.fixed;
        let n = fixed + h.names;
        if !room(part.len(), at, n) {
            return;
        }
        mark_names(&part[at + fixed..at + n], flags);
        at += n;
    }
}

// One flag a name: whether it is free in the part.
fn free_names(part: &[u8], arities: &[u8]) -> [u8; NAME_COUNT]
    ensures { FreeFlagsOf part.now arities.now result }
{
    let mut flags = [0u8; NAME_COUNT];
    mark_free(part, arities, &mut flags);
    flags
}

// Whether `x` is free in the part; what is no name is not.
pub fn is_free(part: &[u8], arities: &[u8], x: usize) -> bool
    ensures { IsFreeOf part.now arities.now x result }
{
    x < NAME_COUNT && get(&free_names(part, arities), x) == 1
}
