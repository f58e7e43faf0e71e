// Sets of apart pairs as one flag a pair of names, in the order 0-1, 0-2 up to 14-15.
ghost use Rattle.std.specs.Prelude.{◌≡◌, ◌<◌, ◌≤◌, length};
ghost use Rattle.terms.specs.Limits.{name_count};
ghost use Rattle.field_pairs.specs.PairFlags.{pair_count, PairOfIs, NumberIs, AddsPair, NoneApartIs, HeldIs, MergesIs, PermittedIs, AllowedIs};

use steps_conditions::condition::Condition;
use terms_bytes::bytes::get;
use terms_bytes::limits::NAME_COUNT;

pub const PAIR_COUNT: usize = NAME_COUNT * LAST_NAME / 2;

const LAST_NAME: usize = NAME_COUNT - 1;

// The number of the first pair whose smaller name is the index, wide enough for 496 pairs of 32 names.
const ROWS: [u16; NAME_COUNT] = [
    0, 15, 29, 42, 54, 65, 75, 84, 92, 99, 105, 110, 114, 117, 119, 120,
];

// The names of a pair, the smaller one first. What takes two names in either order, as `mark_pair`, takes them one by one.
#[derive(Clone, Copy)]
pub struct Pair {
    pub first: usize,
    pub second: usize,
}

// The names of pair `k`. The pairs of each smaller name stand together, and of each next name there is one less: to go along them takes less than a
// table, which would be made anew at each call.
pub fn pair_of(k: usize) -> Pair
    requires { k < pair_count }
    ensures { PairOfIs k result }
{
    let mut a = 0;
    let mut left = k;
    while LAST_NAME - a <= left {
        left -= LAST_NAME - a;
        a += 1;
    }
    Pair {
        first: a,
        second: a + 1 + left,
    }
}

// The number of the pair of `a` and `b`.
fn number(a: usize, b: usize) -> usize
    requires { (a < b) × (b < name_count) }
    ensures { NumberIs a b result }
{
    ROWS[a] as usize + (b - a - 1)
}

// Puts the pair, its smaller name first, to those that the flags say. What is no pair of two names has no flag.
fn mark_ordered(flags: &mut [u8], a: usize, b: usize)
    requires { (length flags.old ≡ pair_count) × (a ≤ b) }
    ensures { AddsPair flags.old a b flags.new }
{
    if a == b {
        return;
    }
    if NAME_COUNT <= b {
        return;
    }
    let k = number(a, b);
    flags[k] = 1;
}

// Puts the pair to those that the flags say.
pub fn mark_pair(flags: &mut [u8], a: usize, b: usize)
    requires { length flags.old ≡ pair_count }
    ensures { AddsPair flags.old a b flags.new }
{
    if b < a {
        mark_ordered(flags, b, a);
        return;
    }
    mark_ordered(flags, a, b);
}

// Whether no pair is apart.
pub fn none_apart(flags: &[u8]) -> bool
    ensures { NoneApartIs flags.now result }
{
    if flags.len() < PAIR_COUNT {
        return false;
    }
    let mut none = true;
    for k in 0..PAIR_COUNT {
        if flags[k] != 0 {
            none = false;
        }
    }
    none
}

// Whether the flags say that two different names are apart.
fn held_apart(flags: &[u8], a: usize, b: usize) -> bool
    requires { (a < name_count) × (b < name_count) }
    ensures { HeldIs flags.now a b result }
{
    if a < b {
        return get(flags, number(a, b)) != 0;
    }
    if b < a {
        return get(flags, number(b, a)) != 0;
    }
    false
}

// Whether the step's condition merges `n` with a name that is apart from it.
fn merges_apart(apart: &[u8], area: &[u8], at: usize, n: usize) -> bool
    requires { (n < name_count) × (at ≤ length area.now) }
    ensures { MergesIs apart.now area.now at n result }
{
    for m in 0..NAME_COUNT {
        if !Condition::respects(area, at, m, n) && held_apart(apart, m, n) {
            return true;
        }
    }
    false
}

// Whether the step's condition respects the apart pairs. Of two names that it merges, one at least has another class than itself: those are few.
pub fn permitted(apart: &[u8], area: &[u8], at: usize) -> bool
    requires { at ≤ length area.now }
    ensures { PermittedIs apart.now area.now at result }
{
    if Condition::is_trivial(area, at) || none_apart(apart) {
        return true;
    }
    for n in 0..NAME_COUNT {
        if Condition::class_of(area, at, n) != n && merges_apart(apart, area, at, n) {
            return false;
        }
    }
    true
}

// Whether the step must be answered: its condition respects the apart pairs or, where all names differ (request 2026-02), merges no names.
pub fn allowed(differ: bool, apart: &[u8; PAIR_COUNT], area: &[u8], at: usize) -> bool
    requires { at ≤ length area.now }
    ensures { AllowedIs differ apart.now area.now at result }
{
    if differ {
        Condition::is_trivial(area, at)
    } else {
        permitted(apart, area, at)
    }
}
