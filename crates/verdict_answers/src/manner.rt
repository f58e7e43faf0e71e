// How a question is judged.
ghost use Rattle.std.specs.Prelude.{◌≡◌};
ghost use Rattle.verdict.specs.Verdict.{differs};
ghost use Rattle.verdict_answers.specs.Manners.{manner_of};

// By open bisimilarity, or, where all names differ, by late or by early bisimilarity.
#[derive(Clone, Copy)]
pub enum Manner {
    Open,
    Late,
    Early,
}

// Whether all names differ.
pub fn names_differ(manner: Manner) -> bool
    ensures { result ≡ differs (manner_of manner) }
{
    match manner {
        Manner::Open => false,
        Manner::Late => true,
        Manner::Early => true,
    }
}
