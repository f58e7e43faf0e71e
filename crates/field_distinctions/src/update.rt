// The apart pairs after a step: Definition 15.
ghost use Rattle.std.specs.Prelude.{◌≡◌, ◌<◌, ◌≤◌, length};
ghost use Rattle.terms.specs.Limits.{name_count};
ghost use Rattle.field_pairs.specs.PairFlags.{pair_count};
ghost use Rattle.field_slots.specs.Update.{AddsIfFree, AddsRow, AddsExtruded, AddsRewritten, RewritesPairs, UpdatedIs, KeepsPairs};

use field_pairs::entries::{KIND, OBJECT};
use field_pairs::pairs::{PAIR_COUNT, mark_pair, none_apart, pair_of};
use steps_conditions::condition::Condition;
use terms_bytes::bytes::{copy, get};
use terms_bytes::limits::NAME_COUNT;

// Holds `x` and `n` apart if `n` is free.
fn mark_if_free(flags: &mut [u8], free: &[u8], x: usize, n: usize)
    requires { (length flags.old ≡ pair_count) × (n < name_count) }
    ensures { AddsIfFree flags.old free.now x n flags.new }
{
    if get(free, n) == 0 {
        return;
    }
    mark_pair(flags, x, n);
}

// Holds `x` apart from each free name.
fn mark_row(flags: &mut [u8], free: &[u8], x: usize)
    requires { length flags.old ≡ pair_count }
    ensures { AddsRow flags.old free.now x flags.new }
{
    for n in (0..NAME_COUNT).rev() {
        mark_if_free(flags, free, x, n);
    }
}

// An extruded name is apart from the names free before the step; a received one is not.
fn mark_extruded(flags: &mut [u8], free: &[u8], area: &[u8], at: usize)
    requires { (length flags.old ≡ pair_count) × (at ≤ length area.now) }
    ensures { AddsExtruded flags.old free.now area.now at flags.new }
{
    if get(area, at + KIND) != 3 {
        return;
    }
    let x = get(area, at + OBJECT) as usize;
    mark_row(flags, free, x);
}

// Puts pair `k`, rewritten by the step's condition, to the new ones.
fn mark_rewritten(flags: &[u8], k: usize, area: &[u8], at: usize, new: &mut [u8])
    requires { (length new.old ≡ pair_count) × (k < pair_count) × (at ≤ length area.now) }
    ensures { AddsRewritten flags.now k area.now at new.old new.new }
{
    if get(flags, k) == 0 {
        return;
    }
    let p = pair_of(k);
    let a = Condition::class_of(area, at, p.first);
    let b = Condition::class_of(area, at, p.second);
    mark_pair(new, a, b);
}

// The pairs, rewritten by the step's condition.
fn rewrite(flags: &[u8], area: &[u8], at: usize, new: &mut [u8])
    requires { (length new.old ≡ pair_count) × (at ≤ length area.now) }
    ensures { RewritesPairs flags.now area.now at new.old new.new }
{
    for k in (0..PAIR_COUNT).rev() {
        mark_rewritten(flags, k, area, at, new);
    }
}

// Whether the step at `at` leaves the apart pairs as they are: it extrudes no name and merges none.
pub fn keeps_pairs(area: &[u8], at: usize) -> bool
    requires { at ≤ length area.now }
    ensures { KeepsPairs area.now at result }
{
    if get(area, at + KIND) == 3 {
        return false;
    }
    Condition::is_trivial(area, at)
}

// The apart pairs after the step at `at`; `free` are the names free before it.
pub fn updated(apart: &[u8; PAIR_COUNT], free: &[u8], area: &[u8], at: usize) -> [u8; PAIR_COUNT]
    requires { at ≤ length area.now }
    ensures { UpdatedIs apart.now free.now area.now at result }
{
    let mut more = [0u8; PAIR_COUNT];
    copy(apart, 0, PAIR_COUNT, &mut more, 0);
    mark_extruded(&mut more, free, area, at);
    if Condition::is_trivial(area, at) {
        return more;
    }
    if none_apart(&more) {
        return more;
    }
    let mut new = [0u8; PAIR_COUNT];
    rewrite(&more, area, at, &mut new);
    new
}
