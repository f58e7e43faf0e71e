// What tells the number of the check that turned an operation back.
#![tactic(auto)]

ghost use Rattle.std.specs.Prelude.{◌≡◌, ℕ};
ghost use Rattle.terms_bytes.specs.Refusals.{number_of};

use terms_bytes::answer::Refusal;

pub trait CheckNumber {
    ghost told: { Self → ℕ };

    fn number(self) -> u8
        ensures { result ≡ told self };
}

impl CheckNumber for Refusal {
    ghost told = { number_of };

    fn number(self) -> u8 {
        Refusal::number(self)
    }
}

// Any number, also one that no check of this repository has.
impl CheckNumber for u8 {
    ghost told = { λ k. k };

    fn number(self) -> u8 {
        self
    }
}
