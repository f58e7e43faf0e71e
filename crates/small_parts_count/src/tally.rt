// Pairs of words judged and counted by their verdict.
ghost use Rattle.std.specs.Prelude.{◌≡◌};
ghost use Rattle.small_parts.specs.Census.{verdict_on};
ghost use Rattle.small_parts_words.specs.Words.{word_of};
ghost use Rattle.small_parts_count.specs.Tallies.{plus_of, added, tallied, none, row_of, word_pairs, Room, Few, MayAdd, MayTallyRow, MayTallyPairs};
ghost use Rattle.verdict_judge.specs.Judging.{judged_answer};

use small_parts_words::question::{FRAME, question_about};
use terms_bytes::answer::Refusal;
use verdict_judge::judge::{Verdict, judge};

pub const CAPACITY: u64 = 186;

// The numbers of pairs that are the same, different and unsettled.
#[derive(Clone, Copy, Debug, PartialEq, Eq)]
pub struct Tally {
    pub same: usize,
    pub different: usize,
    pub unsettled: usize,
}

// The verdict on two words as parts.
fn judge_words(
    size: usize,
    first: usize,
    second: usize,
    work: &mut [u8],
) -> Result<Verdict, Refusal>
    requires { Room size work.old }
    ensures { judged_answer result ≡ verdict_on (word_of size first) (word_of size second) }
{
    let question = question_about(size, first, second);
    judge(&question[..2 * size + FRAME], CAPACITY, work)
}

// More pairs of each kind.
fn plus(tally: Tally, same: usize, different: usize, unsettled: usize) -> Tally
    requires { MayAdd tally same different unsettled }
    ensures { result ≡ plus_of tally same different unsettled }
{
    Tally {
        same: tally.same + same,
        different: tally.different + different,
        unsettled: tally.unsettled + unsettled,
    }
}

// One more pair with this verdict.
fn add(tally: Tally, judged: Result<Verdict, Refusal>) -> Tally
    requires { Few tally }
    ensures { result ≡ added tally (judged_answer judged) }
{
    let Ok(verdict) = judged else {
        return tally;
    };
    match verdict {
        Verdict::Unsettled => plus(tally, 0, 0, 1),
        Verdict::Same(_) => plus(tally, 1, 0, 0),
        Verdict::Different(_) => plus(tally, 0, 1, 0),
    }
}

// The pairs of the word kept at `row` with every word that is kept.
fn tally_row(size: usize, row: usize, kept: &[usize], work: &mut [u8], before: Tally) -> Tally
    requires { MayTallyRow size row kept.now work.old before }
    ensures { result ≡ tallied before (row_of size row kept.now) }
{
    let mut tally = before;
    for j in 0..kept.len() {
        tally = add(tally, judge_words(size, kept[row], kept[j], work));
    }
    tally
}

// All ordered pairs of the words that are kept.
pub fn tally_pairs(size: usize, kept: &[usize], work: &mut [u8]) -> Tally
    requires { MayTallyPairs size kept.now work.old }
    ensures { result ≡ tallied none (word_pairs size kept.now kept.now) }
{
    let mut tally = Tally {
        same: 0,
        different: 0,
        unsettled: 0,
    };
    for i in 0..kept.len() {
        tally = tally_row(size, i, kept, work, tally);
    }
    tally
}
