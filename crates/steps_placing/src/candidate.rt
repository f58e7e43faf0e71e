// A candidate put into the list by its number.
ghost use Rattle.steps_splicing.specs.Collecting.{counted, Few};
ghost use Rattle.steps_splicing.specs.Ready.{Tallied};
ghost use Rattle.steps_placing.specs.Putting.{CanPut};
ghost use Rattle.steps_placing.specs.Taking.{PutStepIs, LabelIs, TakeIs};

use crate::put::{Step, put_classed};
use steps_conditions::action::Label;
use steps_entries::listed::action_bytes;
use steps_labels::label::{Scope, nth};
use steps_splicing::splice::Selection;
use terms_bytes::limits::GREATEST_ARITY;

// Puts the step with this header, a candidate of the part, into the list.
fn put_step(
    question: &[u8],
    bodies: &[u32],
    part: &[u8],
    tally: &[u32],
    candidate: Selection,
    header: Label,
    area: &mut [u8],
    count: usize,
) -> Option<usize>
    requires { CanPut question.now bodies.now part.now tally.now area.old count }
    ensures few { Few result }
    ensures is { PutStepIs question.now part.now candidate.silently candidate.number header candidate.x area.old count (counted result) area.new }
{
    let class = header.condition.class;
    let bytes = action_bytes(&class, header.action, candidate.x);
    let step = Step {
        candidate,
        action: bytes,
    };
    put_classed(question, bodies, part, tally, step, &class, area, count)
}

// The label of a candidate of the part.
pub fn label_of(
    question: &[u8],
    bodies: &[u32],
    part: &[u8],
    tally: &[u32],
    candidate: Selection,
) -> Option<Label>
    requires { Tallied question.now bodies.now part.now tally.now }
    ensures { LabelIs question.now part.now candidate.silently candidate.number result }
{
    // In a body every call is beneath a prefix (check 11), so that one call is opened.
    let none = [0u8; GREATEST_ARITY];
    let whole = Scope {
        at: 0,
        inner: 0,
        depth: 0,
        calls: 1,
    };
    nth(
        question,
        bodies,
        part,
        tally,
        whole,
        candidate.number,
        candidate.silently,
        &none,
    )
}

// Puts a candidate of the part into the list. Answers how many steps there are then; none where a limit is passed.
pub fn take_candidate(
    question: &[u8],
    bodies: &[u32],
    part: &[u8],
    tally: &[u32],
    candidate: Selection,
    area: &mut [u8],
    count: usize,
) -> Option<usize>
    requires { CanPut question.now bodies.now part.now tally.now area.old count }
    ensures few { Few result }
    ensures is { TakeIs question.now part.now candidate.silently candidate.number candidate.x area.old count (counted result) area.new }
{
    let label = label_of(question, bodies, part, tally, candidate);
    match label {
        None => Some(count),
        Some(header) => put_step(
            question, bodies, part, tally, candidate, header, area, count,
        ),
    }
}
