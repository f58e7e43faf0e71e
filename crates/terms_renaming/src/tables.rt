// Tables for the renaming routine, one function for each renaming.
ghost use Rattle.std.specs.Prelude.{◌≡◌, ℕ, ◌<◌, get_or};
ghost use Rattle.calculus.specs.Cond.{join};
ghost use Rattle.terms.specs.Limits.{name_count};

use terms_bytes::limits::NAME_COUNT;

// What becomes of the name `n` where `a` and `b` are merged: the larger of the two becomes the smaller.
pub fn merged_name(a: u8, b: u8, n: u8) -> u8
    ensures { result ≡ join a b n }
{
    if n == a.max(b) { a.min(b) } else { n }
}

// The table that merges `a` and `b` in a part, which stands under no binder.
pub fn merging(a: u8, b: u8) -> [u8; NAME_COUNT]
    ensures { (n : ℕ) → n < name_count → get_or result n 0 ≡ join a b n }
{
    let mut table = [0u8; NAME_COUNT];
    for i in 0..NAME_COUNT {
        let n = merged_name(a, b, i as u8);
        table[i] = n;
    }
    table
}
