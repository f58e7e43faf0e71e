// The number that an operation answers: kind × 2^32 + number.
ghost use Rattle.std.specs.Prelude.{◌≡◌};
ghost use Rattle.verdict.specs.Outcome.{code_of, gave, turned_back, unsettled_outcome, same_of, different_of, none_outcome, of_number, of_verdict, Small};
ghost use Rattle.exchange_codes.specs.ByNumber.{checked_answer_by, written_answer_by, of_steps_by, judged_answer_by, apart_outcome_by};

use check_numbers::CheckNumber;
use fewest_lists::best::Choice;
use verdict_judge::judge::Verdict;

// What an answer's kind adds to its number: kind × 2^32.
const RESULT: u64 = 0;

const REFUSED: u64 = 1 << 32;

const UNSETTLED: u64 = 2 << 32;

const SAME: u64 = 3 << 32;

const DIFFERENT: u64 = 4 << 32;

const NONE: u64 = 5 << 32;

fn refusal<E: CheckNumber>(refusal: E) -> u64
    ensures { result ≡ code_of (turned_back (E.told refusal)) }
{
    REFUSED + refusal.number() as u64
}

// The result `n`.
fn given(n: usize) -> u64
    ensures { result ≡ code_of (gave n) }
{
    RESULT + n as u64
}

fn unsettled() -> u64
    ensures { result ≡ code_of unsettled_outcome }
{
    UNSETTLED
}

fn same(n: usize) -> u64
    requires { Small (same_of n) }
    ensures { result ≡ code_of (same_of n) }
{
    SAME + n as u64
}

fn different(n: usize) -> u64
    requires { Small (different_of n) }
    ensures { result ≡ code_of (different_of n) }
{
    DIFFERENT + n as u64
}

fn none() -> u64
    ensures { result ≡ code_of none_outcome }
{
    NONE
}

// These conversions are no `From<..> for u64`: `Result` is not this repository's type, and `judged_code` asks for a small number.
pub fn checked_code<E: CheckNumber>(answer: Result<(), E>) -> u64
    ensures { result ≡ code_of (of_number (checked_answer_by E.told answer)) }
{
    match answer {
        Ok(()) => given(0),
        Err(k) => refusal(k),
    }
}

pub fn written_code<E: CheckNumber>(answer: Result<usize, E>) -> u64
    ensures { result ≡ code_of (of_number (written_answer_by E.told answer)) }
{
    match answer {
        Ok(n) => given(n),
        Err(k) => refusal(k),
    }
}

pub fn listed_code<E: CheckNumber>(answer: Result<Option<usize>, E>) -> u64
    ensures { result ≡ code_of (of_steps_by E.told answer) }
{
    match answer {
        Ok(listed) => match listed {
            None => unsettled(),
            Some(n) => given(n),
        },
        Err(k) => refusal(k),
    }
}

pub fn judged_code<E: CheckNumber>(answer: Result<Verdict, E>) -> u64
    requires { Small (of_verdict (judged_answer_by E.told answer)) }
    ensures { result ≡ code_of (of_verdict (judged_answer_by E.told answer)) }
{
    match answer {
        Ok(verdict) => match verdict {
            Verdict::Unsettled => unsettled(),
            Verdict::Same(n) => same(n),
            Verdict::Different(n) => different(n),
        },
        Err(k) => refusal(k),
    }
}

pub fn apart_code<E: CheckNumber>(answer: Result<Choice, E>) -> u64
    ensures { result ≡ code_of (apart_outcome_by E.told answer) }
{
    match answer {
        Ok(choice) => match choice {
            Choice::Unsettled => unsettled(),
            Choice::NoChoice => none(),
            Choice::Length(n) => given(n),
        },
        Err(k) => refusal(k),
    }
}
