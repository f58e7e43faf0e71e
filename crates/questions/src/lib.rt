// The questions that a program reads: the first byte of its input is their number, and each stands behind its length in two bytes, as the fields of a
// question do.
#![tactic(auto)]

ghost use Rattle.std.specs.Prelude.{◌≡◌};
ghost use Rattle.std.specs.Iterator.{YieldsFirstRef, at_most};
ghost use Rattle.terms_bytes.specs.FieldPlaces.{field_at};
ghost use Rattle.questions.specs.Questions.{questions_from, questions_of, question_place};

use terms_bytes::bytes::get;
use terms_bytes::frame::{after_field, field_at};

// No more of standard input is read.
pub const MOST_INPUT: u64 = 65536;

// So many questions of the input, of which the first begins at `at` with its length. A question is nothing where it runs past the end.
#[derive(Drop)]
pub struct Questions<'a> {
    input: &'a [u8],
    at: usize,
    count: usize,
}

// The questions of the input, in order.
pub fn questions_in(input: &[u8]) -> Questions<'_>
    ensures { questions_from result.input.now result.at result.count ≡ questions_of input.now }
{
    Questions {
        input,
        at: 1,
        count: get(input, 0) as usize,
    }
}

impl<'a> Iterator for Questions<'a> {
    type Item = &'a [u8];

    ghost next_gives = { YieldsFirstRef (λ s. questions_from s.input.now s.at s.count) };

    ghost remaining = { λ s. at_most s.count };

    fn next(&mut self) -> Option<&'a [u8]> {
        if self.count == 0 {
            return None;
        }
        let question = field_at(self.input, self.at);
        self.at = after_field(self.input, self.at);
        self.count -= 1;
        Some(question)
    }
}

// Question `k` of the input, from 0, also one behind those that the first byte counts; nothing where it runs past the end. Who wants one after the other
// takes `questions_in`, which passes each once and ends with those counted.
pub fn question_at(input: &[u8], k: usize) -> &[u8]
    ensures { result.now ≡ field_at input.now (question_place input.now k) }
{
    let mut at = 1;
    for i in 0..k {
        at = after_field(input, at);
    }
    field_at(input, at)
}

#[cfg(test)]
mod tests {
    use super::*;

    // Two questions are counted, the second of which is empty; behind them stand another and one that runs past the end.
    #[test]
    fn questions_at_their_places(rt: HostRuntime) {
        let input = [2, 0, 1, 5, 0, 0, 0, 2, 6, 7, 0, 9, 8];
        assert_eq!(rt; question_at(&input, 0), [5].as_slice());
        assert_eq!(rt; question_at(&input, 1), [].as_slice());
        assert_eq!(rt;
            question_at(&input, 2),
            [6, 7].as_slice(),
            "behind those counted"
        );
        assert_eq!(rt; question_at(&input, 3), [].as_slice(), "past the end");
        assert_eq!(rt; question_at(&input, 4), [].as_slice());
        assert_eq!(rt; question_at(&[], 0), [].as_slice());
    }

    #[test]
    fn counted_as_passed(rt: HostRuntime) {
        let input = [3, 0, 1, 5, 0, 0, 0, 2, 6, 7, 0, 1, 8];
        let mut passed = questions_in(&input);
        for k in 0..3 {
            assert_eq!(rt; passed.next(), Some(question_at(&input, k)), "question {k}");
        }
        assert_eq!(rt; passed.next(), None);
    }
}
