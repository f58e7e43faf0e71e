// The fewest pairs to hold apart: checks 1 and 2, those of check, 18 and 15, then the search.
ghost use Rattle.std.specs.Prelude.{◌≡◌, ◌≤◌, length};
ghost use Rattle.terms.specs.Limits.{longest_apart};
ghost use Rattle.terms_bytes.specs.Writing.{IsAccepted};
ghost use Rattle.fewest.specs.Apart.{apart_of};
ghost use Rattle.fewest_search.specs.Searching.{Allowed, FoundIs, CheckedIs, ApartDoes};

use crate::search::search_sizes;
use fewest_lists::best::{Choice, Undecided, tell};
use fewest_lists::lists::{apart_flags, open_flags, write_pairs};
use fewest_lists::names::names_given;
use field_pairs::pairs::PAIR_COUNT;
use terms_bytes::answer::Refusal;
use terms_bytes::frame::{after_field, definitions, field_at, field_place};
use terms_bytes::limits::LONGEST_APART;
use terms_checks::check::check;
use verdict_capacity::capacity::capacity_check;

// The search over an accepted question and allowed names.
fn find(
    question: &[u8],
    capacity: u64,
    names: &[u8],
    work: &mut [u8],
) -> Result<Option<[u8; PAIR_COUNT]>, Undecided>
    requires { IsAccepted question.now × Allowed capacity (length work.old) }
    ensures { FoundIs question.now capacity names.now work.old result work.new }
{
    let first = field_place(question, definitions(question));
    let second = after_field(question, first);
    let flags = apart_flags(field_at(question, after_field(question, second)));
    let choosable = open_flags(names, &flags);
    let mut pairs = [0u8; LONGEST_APART];
    let end = write_pairs(&choosable, &mut pairs, 0);
    search_sizes(question, &pairs[..end], flags, capacity, work)
}

// Checks 18 and 15, then the search.
fn apart_accepted(
    question: &[u8],
    capacity: u64,
    names: &[u8],
    work: &mut [u8],
    area: &mut [u8],
) -> Result<Choice, Refusal>
    requires { IsAccepted question.now × Allowed capacity (length work.old) }
    ensures { CheckedIs question.now capacity names.now work.old area.old result work.new area.new }
{
    if !names_given(names) {
        return Err(Refusal::ChosenNames);
    }
    if area.len() < LONGEST_APART {
        return Err(Refusal::ResultArea);
    }
    let best = find(question, capacity, names, work);
    Ok(tell(best, area))
}

// Finds the fewest pairs of the names that, held apart besides, make the parts the same.
pub fn apart(
    question: &[u8],
    capacity: u64,
    names: &[u8],
    work: &mut [u8],
    area: &mut [u8],
) -> Result<Choice, Refusal>
    ensures { ApartDoes (apart_of question.now capacity names.now (length work.old) (length area.old)) capacity work.old area.old result work.new area.new }
{
    capacity_check(capacity, work.len())?;
    check(question)?;
    apart_accepted(question, capacity, names, work, area)
}
