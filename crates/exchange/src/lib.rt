// The operations as a service calls them: byte slices and numbers in, one number out, kind × 2^32 + number.
#![tactic(auto)]

ghost use Rattle.fewest.specs.Apart.{ApartIs};
ghost use Rattle.terms.specs.Edition.{one, two};
ghost use Rattle.verdict.specs.Promises.{CheckIs, StepsIs, MergeIs, BesideIs, ConvertIs, JudgeIs, LateIs, EarlyIs};

use exchange_codes::codes::{apart_code, checked_code, judged_code, listed_code, written_code};

// Checks a question.
#[unsafe(no_mangle)]
pub extern "C" fn exchange_check(question: &[u8]) -> u64
    ensures { CheckIs question.now result }
{
    checked_code(terms_checks::check::check(question))
}

// Lists the steps of one side of the question, for the new name, into the area.
#[unsafe(no_mangle)]
pub extern "C" fn exchange_steps(question: &[u8], side: u64, name: u64, area: &mut [u8]) -> u64
    ensures { StepsIs question.now side name area.old result area.new }
{
    listed_code(steps_lister::operation::steps(question, side, name, area))
}

// Writes the question with two names merged into the area.
#[unsafe(no_mangle)]
pub extern "C" fn exchange_merge(question: &[u8], a: u64, b: u64, area: &mut [u8]) -> u64
    ensures { MergeIs question.now a b area.old result area.new }
{
    written_code(terms_merging::merge::merge(question, a, b, area))
}

// Writes the question with a third part beside both sides into the area.
#[unsafe(no_mangle)]
pub extern "C" fn exchange_beside(question: &[u8], third: &[u8], area: &mut [u8]) -> u64
    ensures { BesideIs question.now third.now area.old result area.new }
{
    written_code(terms_beside::beside::beside(question, third, area))
}

// Writes the question, which must be of edition two, in edition one into the area.
#[unsafe(no_mangle)]
pub extern "C" fn exchange_convert_down(question: &[u8], area: &mut [u8]) -> u64
    ensures { ConvertIs one question.now area.old result area.new }
{
    written_code(terms_converting::question::convert(question, true, area))
}

// Writes the question, which must be of edition one, in edition two into the area.
#[unsafe(no_mangle)]
pub extern "C" fn exchange_convert_up(question: &[u8], area: &mut [u8]) -> u64
    ensures { ConvertIs two question.now area.old result area.new }
{
    written_code(terms_converting::question::convert(question, false, area))
}

// Judges the question within the capacity.
#[unsafe(no_mangle)]
pub extern "C" fn exchange_judge(question: &[u8], capacity: u64, work: &mut [u8]) -> u64
    ensures { JudgeIs question.now capacity work.old result work.new }
{
    judged_code(verdict_judge::judge::judge(question, capacity, work))
}

// The late verdict, where all names differ.
#[unsafe(no_mangle)]
pub extern "C" fn exchange_late(question: &[u8], capacity: u64, work: &mut [u8]) -> u64
    ensures { LateIs question.now capacity work.old result work.new }
{
    judged_code(verdict_judge::judge::judge_late(question, capacity, work))
}

// The early verdict.
#[unsafe(no_mangle)]
pub extern "C" fn exchange_early(question: &[u8], capacity: u64, work: &mut [u8]) -> u64
    ensures { EarlyIs question.now capacity work.old result work.new }
{
    judged_code(verdict_judge::judge::judge_early(question, capacity, work))
}

// Writes the question's apart list, enlarged by the fewest pairs of the names that make the parts the same, into the area.
#[unsafe(no_mangle)]
pub extern "C" fn exchange_apart(
    question: &[u8],
    capacity: u64,
    names: &[u8],
    work: &mut [u8],
    area: &mut [u8],
) -> u64
    ensures { ApartIs question.now capacity names.now work.old area.old result work.new area.new }
{
    apart_code(fewest_search::apart::apart(question, capacity, names, work, area))
}
