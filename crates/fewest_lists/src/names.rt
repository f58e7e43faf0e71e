// The given names: check 18 of document 02.
ghost use Rattle.std.specs.Prelude.{◌≡◌, ◌≤◌, length, drop};
ghost use Rattle.calculus.specs.Distinction.{among};
ghost use Rattle.fewest.specs.Apart.{names_given};

use terms_bytes::limits::NAME_COUNT;

const MOST_NAMES: usize = 4;

// Whether `n` is one of the names from `at` on.
pub fn has_name(names: &[u8], at: usize, n: u8) -> bool
    requires { at ≤ length names.now }
    ensures { result ≡ among (drop at names.now) n }
{
    names[at..].contains(&n)
}

// Whether check 18 passes: at most four names, all of them names, none twice.
pub fn names_given(names: &[u8]) -> bool
    ensures { result ≡ names_given names.now }
{
    if MOST_NAMES < names.len() {
        return false;
    }
    for (i, &n) in names.iter().enumerate() {
        if NAME_COUNT <= n as usize {
            return false;
        }
        if has_name(names, i + 1, n) {
            return false;
        }
    }
    true
}
