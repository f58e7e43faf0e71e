// Judging: checks 1 and 2, those of check, then the verdict.
ghost use Rattle.std.specs.Prelude.{true, ◌*◌, ◌≤◌, length};
ghost use Rattle.verdict.specs.Judge.{slot_bytes, greatest_capacity};
ghost use Rattle.late_early.specs.LateEarly.{late, early};
ghost use Rattle.verdict.specs.Verdict.{openly, named};
ghost use Rattle.verdict_answers.specs.Manners.{manner_of};
ghost use Rattle.terms_bytes.specs.Writing.{IsAccepted, Plain};
ghost use Rattle.steps_tallies.specs.Tally.{BodiesTidied};
ghost use Rattle.terms_converting.specs.Questions.{AcceptedFrom};
ghost use Rattle.verdict_judge.specs.Judging.{DecidesIs, AcceptedIs, OwnIs, JudgedIs};

use field_exploration::explore::{Extent, explore};
use field_kept_lists::list_area::LIST_AREA;
use field_slots::slot::SLOT_BYTES;
use steps_lister::list::{SCRATCH_NUMBERS, SCRATCH_ROWS};
use steps_tallies::tally::body_tallies;
use terms_bytes::answer::Refusal;
use terms_bytes::limits::LONGEST_QUESTION;
use terms_checks::check::{check, is_counted};
use terms_converting::question::convert_question;
use terms_tidied::question::{has_tidied_bodies, tidy_bodies};
use verdict_answers::answered::Search;
use verdict_answers::manner::{Manner, names_differ};
use verdict_capacity::capacity::capacity_check;
use verdict_start::passes::start_survives;

// The verdict and the size of the field.
#[derive(Clone, Copy, Debug, PartialEq, Eq)]
pub enum Verdict {
    Unsettled,
    Same(usize),
    Different(usize),
}

// The verdict on an accepted question of edition one. The tallies of the bodies, the lister's tables and the lists of the two sides serve exploration
// and passes.
fn decide(question: &[u8], capacity: usize, work: &mut [u8], manner: Manner) -> Verdict
    requires { (1 ≤ capacity) × (capacity ≤ greatest_capacity) × (slot_bytes * capacity ≤ length work.old) × BodiesTidied question.now }
    ensures { DecidesIs (manner_of manner) question.now capacity work.old result work.new }
{
    let bodies = body_tallies(question);
    let mut tallies = [0u32; SCRATCH_NUMBERS];
    let mut rows = [0u8; SCRATCH_ROWS];
    let mut firsts = [0u8; LIST_AREA];
    let mut seconds = [0u8; LIST_AREA];
    let differ = names_differ(manner);
    let explored = explore(
        question,
        &bodies,
        &mut tallies,
        &mut rows,
        &mut firsts,
        &mut seconds,
        work,
        Extent { differ, capacity },
    );
    let Some(count) = explored else {
        return Verdict::Unsettled;
    };
    let search = Search {
        manner,
        capacity,
        count,
    };
    if start_survives(
        question,
        &bodies,
        &mut tallies,
        &mut rows,
        &mut firsts,
        &mut seconds,
        work,
        search,
    ) {
        return Verdict::Same(count);
    }
    Verdict::Different(count)
}

// The verdict on an accepted question of edition one whose bodies are tidied; the work area is cleared behind it.
fn judge_tidied(question: &[u8], capacity: usize, work: &mut [u8], manner: Manner) -> Verdict
    requires { (1 ≤ capacity) × (capacity ≤ greatest_capacity) × (slot_bytes * capacity ≤ length work.old) × BodiesTidied question.now }
    ensures { AcceptedIs (manner_of manner) question.now capacity work.old result work.new }
{
    let verdict = decide(question, capacity, work, manner);
    work[..SLOT_BYTES * capacity].fill(0);
    verdict
}

// The verdict on an accepted question of edition one: that of the question with tidied bodies.
fn judge_accepted(question: &[u8], capacity: usize, work: &mut [u8], manner: Manner) -> Verdict
    requires { (1 ≤ capacity) × (capacity ≤ greatest_capacity) × (slot_bytes * capacity ≤ length work.old) × Plain question.now }
    ensures { AcceptedIs (manner_of manner) question.now capacity work.old result work.new }
{
    if has_tidied_bodies(question) {
        return judge_tidied(question, capacity, work, manner);
    }
    let mut tidied = [0u8; LONGEST_QUESTION];
    let n = tidy_bodies(question, &mut tidied);
    judge_tidied(&tidied[..n], capacity, work, manner)
}

// The same of edition two, by its edition-one form.
fn judge_counted(question: &[u8], capacity: usize, work: &mut [u8], manner: Manner) -> Verdict
    requires { (1 ≤ capacity) × (capacity ≤ greatest_capacity) × (slot_bytes * capacity ≤ length work.old) × AcceptedFrom question.now true }
    ensures { OwnIs (manner_of manner) question.now capacity work.old result work.new }
{
    let mut plain = [0u8; LONGEST_QUESTION];
    let n = convert_question(question, true, &mut plain);
    judge_accepted(&plain[..n], capacity, work, manner)
}

// The verdict on an accepted question of either edition.
fn judge_either(question: &[u8], capacity: usize, work: &mut [u8], manner: Manner) -> Verdict
    requires { (1 ≤ capacity) × (capacity ≤ greatest_capacity) × (slot_bytes * capacity ≤ length work.old) × IsAccepted question.now }
    ensures { OwnIs (manner_of manner) question.now capacity work.old result work.new }
{
    if is_counted(question) {
        return judge_counted(question, capacity, work, manner);
    }
    judge_accepted(question, capacity, work, manner)
}

// Judges a question within the capacity, in one of the manners.
pub fn judge_as(
    question: &[u8],
    capacity: u64,
    work: &mut [u8],
    manner: Manner,
) -> Result<Verdict, Refusal>
    ensures { JudgedIs (manner_of manner) question.now capacity work.old result work.new }
{
    capacity_check(capacity, work.len())?;
    check(question)?;
    Ok(judge_either(question, capacity as usize, work, manner))
}

// Judges it openly: by open bisimilarity.
pub fn judge(question: &[u8], capacity: u64, work: &mut [u8]) -> Result<Verdict, Refusal>
    ensures { JudgedIs openly question.now capacity work.old result work.new }
{
    judge_as(question, capacity, work, Manner::Open)
}

// Judges it where all names differ, by late bisimilarity. This name and the next stay: docs/CHANGES.md has them.
pub fn judge_late(question: &[u8], capacity: u64, work: &mut [u8]) -> Result<Verdict, Refusal>
    ensures { JudgedIs (named late) question.now capacity work.old result work.new }
{
    judge_as(question, capacity, work, Manner::Late)
}

// By early bisimilarity.
pub fn judge_early(question: &[u8], capacity: u64, work: &mut [u8]) -> Result<Verdict, Refusal>
    ensures { JudgedIs (named early) question.now capacity work.old result work.new }
{
    judge_as(question, capacity, work, Manner::Early)
}
