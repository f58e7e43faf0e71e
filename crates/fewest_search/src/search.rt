// Every choice is judged, the smaller ones first: adding a pair can enlarge the field, so that none tells of another whether it is settled.
ghost use Rattle.std.specs.Prelude.{length};
ghost use Rattle.terms_bytes.specs.Writing.{IsAccepted};
ghost use Rattle.fewest_search.specs.Searching.{Allowed, ListJudged, NextIs, SearchedIs, SizesIs};

use fewest_lists::best::{Undecided, with_pair, with_same};
use fewest_lists::lists::write_question;
use field_pairs::pairs::PAIR_COUNT;
use terms_bytes::answer::Refusal;
use terms_bytes::limits::LONGEST_QUESTION;
use verdict_judge::judge::{Verdict, judge};

// Judges the accepted question under the pairs that the flags say.
fn judge_list(
    question: &[u8],
    flags: [u8; PAIR_COUNT],
    capacity: u64,
    work: &mut [u8],
) -> Result<Verdict, Refusal>
    requires { IsAccepted question.now × Allowed capacity (length work.old) }
    ensures { ListJudged question.now flags capacity work.old result work.new }
{
    let mut asked = [0u8; LONGEST_QUESTION];
    let end = write_question(question, &flags, &mut asked);
    judge(&asked[..end], capacity, work)
}

// What is known once one more list is judged.
fn judge_next(
    question: &[u8],
    flags: [u8; PAIR_COUNT],
    best: Option<[u8; PAIR_COUNT]>,
    capacity: u64,
    work: &mut [u8],
) -> Result<Option<[u8; PAIR_COUNT]>, Undecided>
    requires { IsAccepted question.now × Allowed capacity (length work.old) }
    ensures { NextIs question.now flags best capacity work.old result work.new }
{
    let judged = judge_list(question, flags, capacity, work);
    // no check turns the question back under other pairs
    let Ok(verdict) = judged else {
        return Ok(best);
    };
    match verdict {
        Verdict::Unsettled => Err(Undecided),
        Verdict::Same(_) => Ok(with_same(best, flags)),
        Verdict::Different(_) => Ok(best),
    }
}

// Judges the choices of `size` of the pairs from `at` on, besides those that the flags say already: first those with the pair at `at`. Nothing is
// judged once a list was unsettled.
fn search(
    question: &[u8],
    pairs: &[u8],
    at: usize,
    size: usize,
    flags: [u8; PAIR_COUNT],
    best: Option<[u8; PAIR_COUNT]>,
    capacity: u64,
    work: &mut [u8],
) -> Result<Option<[u8; PAIR_COUNT]>, Undecided>
    requires { IsAccepted question.now × Allowed capacity (length work.old) }
    ensures { SearchedIs question.now pairs.now at size flags best capacity work.old result work.new }
{
    if size == 0 {
        return judge_next(question, flags, best, capacity, work);
    }
    if pairs.len() <= at {
        return Ok(best);
    }
    let more = with_pair(flags, pairs, at);
    let next = search(
        question,
        pairs,
        at + 2,
        size - 1,
        more,
        best,
        capacity,
        work,
    )?;
    search(question, pairs, at + 2, size, flags, next, capacity, work)
}

// Judges all choices of the pairs.
pub fn search_sizes(
    question: &[u8],
    pairs: &[u8],
    flags: [u8; PAIR_COUNT],
    capacity: u64,
    work: &mut [u8],
) -> Result<Option<[u8; PAIR_COUNT]>, Undecided>
    requires { IsAccepted question.now × Allowed capacity (length work.old) }
    ensures { SizesIs question.now pairs.now flags capacity work.old result work.new }
{
    let mut best = judge_next(question, flags, None, capacity, work)?;
    for size in 0..pairs.len() / 2 {
        best = search(question, pairs, 0, size + 1, flags, best, capacity, work)?;
    }
    Ok(best)
}
