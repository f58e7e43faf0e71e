// Whether a byte stands among others.
ghost use Rattle.std.specs.Prelude.{◌≡◌};
ghost use Rattle.calculus.specs.Distinction.{among};

// Whether one of the bytes is `b`. All are looked at, so that many are compared at once.
pub fn occurs(src: &[u8], b: u8) -> bool
    ensures { result ≡ among src.now b }
{
    let mut found = false;
    for x in src {
        found |= *x == b;
    }
    found
}
