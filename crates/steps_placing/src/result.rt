// The result of a candidate, as it is and tidied.
ghost use Rattle.std.specs.Prelude.{◌≤◌, length};
ghost use Rattle.terms.specs.Limits.{name_count};
ghost use Rattle.terms_tidying.specs.Tidying.{longest_raw};
ghost use Rattle.steps_splicing.specs.Ready.{Tallied};
ghost use Rattle.steps_placing.specs.Taking.{NamesAre, ResultIs, ended_in, InArea};
ghost use Rattle.steps_placing.specs.TidiedResults.{TidiedResultIs};

use steps_passing::names::NAME_SLOTS;
use steps_plans::plan::{Cursor, Task};
use steps_results::result::write;
use steps_splicing::splice::Selection;
use steps_tallies::bodies::arities_of;
use terms_bytes::bytes::copy;
use terms_bytes::limits::NAME_COUNT;
use terms_tidying::tidy::{LONGEST_RAW, tidy};

// What the names are written as in a result: each as its class, or as itself. The new name's slot has itself.
fn result_names(class: &[u8]) -> [u8; NAME_SLOTS]
    requires { name_count ≤ length class.now }
    ensures { NamesAre class.now result }
{
    let mut names = [0u8; NAME_SLOTS];
    copy(class, 0, NAME_COUNT, &mut names, 0);
    names[NAME_COUNT] = NAME_COUNT as u8;
    names
}

// The result of a candidate of the part, rewritten by the classes of its condition, or with its own names. The answer is where its bytes end, if there is
// room for them.
pub fn write_result(
    question: &[u8],
    bodies: &[u32],
    part: &[u8],
    tally: &[u32],
    candidate: Selection,
    class: &[u8],
    out: &mut [u8],
) -> Option<usize>
    requires { Tallied question.now bodies.now part.now tally.now × (name_count ≤ length class.now) }
    ensures room { InArea out.old result }
    ensures is { ResultIs question.now part.now candidate.silently candidate.number class.now candidate.x out.old (ended_in out.old result) out.new }
{
    let task = Task {
        new: candidate.x,
        levels: 0,
        calls: 1,
        still: false,
        silently: candidate.silently,
        number: candidate.number,
    };
    let mut names = result_names(class);
    let whole = Cursor {
        at: 0,
        binders: 0,
        put: 0,
    };
    let end = write(question, bodies, part, tally, whole, task, &mut names, out);
    if out.len() < end { None } else { Some(end) }
}

// The result of a candidate of the part, rewritten by the classes of its condition and tidied. The answer is where its bytes end.
pub fn write_tidied(
    question: &[u8],
    bodies: &[u32],
    part: &[u8],
    tally: &[u32],
    candidate: Selection,
    class: &[u8],
    out: &mut [u8],
) -> usize
    requires { Tallied question.now bodies.now part.now tally.now × (name_count ≤ length class.now) × (longest_raw ≤ length out.old) }
    ensures { TidiedResultIs question.now part.now candidate.silently candidate.number class.now candidate.x out.old result out.new }
{
    let mut raw = [0u8; LONGEST_RAW];
    write_result(question, bodies, part, tally, candidate, class, &mut raw);
    let e = tidy(&raw, 0, arities_of(question), out, 0);
    e.written
}
