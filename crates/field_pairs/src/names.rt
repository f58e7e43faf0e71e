// The names of a situation: those free in at least one part, the new name, and those that a step receives; and a name put for another.
ghost use Rattle.std.specs.Prelude.{◌≡◌, ℕ, ◌<◌, ◌≤◌, length, get_or};
ghost use Rattle.calculus.specs.Term.{put};
ghost use Rattle.terms.specs.Limits.{name_count};
ghost use Rattle.field_pairs.specs.NameFlags.{FreeInEitherIs, NewNameIs, ReceivedIs};

use crate::entries::{KIND, OBJECT};
use terms_bytes::bytes::get;
use terms_bytes::limits::NAME_COUNT;
use terms_renaming::free::mark_free;

// One flag a name: whether it is free in at least one of two parts.
pub fn free_in_either(first: &[u8], second: &[u8], arities: &[u8]) -> [u8; NAME_COUNT]
    ensures { FreeInEitherIs first.now second.now arities.now result }
{
    let mut flags = [0u8; NAME_COUNT];
    mark_free(first, arities, &mut flags);
    mark_free(second, arities, &mut flags);
    flags
}

// The smallest name that is not free, and the one behind all names where all of them are: no Option, for the definition of the new name answers so.
pub fn new_name(free: &[u8]) -> usize
    ensures { NewNameIs free.now result }
{
    for n in 0..NAME_COUNT {
        if get(free, n) == 0 {
            return n;
        }
    }
    NAME_COUNT
}

// Where all names differ (request 2026-02): whether `name` is put for the object of the step at `at`. An input receives each free name and the new
// one, which is its object; any other step keeps its object.
pub fn is_received(free: &[u8], area: &[u8], at: usize, name: usize) -> bool
    requires { (name < name_count) × (at ≤ length area.now) }
    ensures { ReceivedIs free.now area.now at name result }
{
    if get(area, at + OBJECT) as usize == name {
        return true;
    }
    if get(area, at + KIND) != 1 {
        return false;
    }
    get(free, name) != 0
}

// The name `n`, and `x` for `y`.
fn replaced(y: u8, x: u8, n: u8) -> u8
    ensures { result ≡ put y x n }
{
    if n == y { x } else { n }
}

// The table that puts `x` for `y`.
pub fn replacing(y: u8, x: u8) -> [u8; NAME_COUNT]
    ensures { (n : ℕ) → n < name_count → get_or result n 0 ≡ put y x n }
{
    let mut table = [0u8; NAME_COUNT];
    for i in 0..NAME_COUNT {
        table[i] = replaced(y, x, i as u8);
    }
    table
}
