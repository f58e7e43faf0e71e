// Steps put into the list: from the classes of the condition, the bytes of the action and those written for the result.
ghost use Rattle.std.specs.Prelude.{◌≡◌, true, ◌+◌, ◌≤◌, length};
ghost use Rattle.terms.specs.Limits.{name_count, longest_term};
ghost use Rattle.steps_splicing.specs.Collecting.{counted, Few};
ghost use Rattle.steps_splicing.specs.Ready.{Inside, FoundIn};
ghost use Rattle.steps_placing.specs.Placing.{PutResultIs, PutWrittenIs, PutSilentIs, PutPlacedIs, PutClassedIs, PutMetIs};
ghost use Rattle.steps_placing.specs.Putting.{HasRoom, CanPut, most_candidates};

use crate::result::{write_result, write_tidied};
use steps_entries::limits::MOST_STEPS;
use steps_entries::listed::{ActionBytes, entry_of, insert};
use steps_splicing::locate::Located;
use steps_splicing::merged::merge_names;
use steps_splicing::splice::{Position, Selection, own_names, write_met, write_placed};
use steps_tallies::bodies::arities_of;
use steps_tallies::tally::is_restricted;
use terms_bytes::limits::{LONGEST_TERM, NAME_COUNT};
use terms_restrictions::occurs::occurs;
use terms_tidying::tidied::is_tidied;
use terms_tidying::tidy::{LONGEST_RAW, tidy};

// A silent action's bytes.
pub const SILENT: ActionBytes = ActionBytes {
    kind: 0,
    channel: 0,
    object: 0,
};

// A step to be put into the list: its candidate, and the bytes of its action.
#[derive(Clone, Copy)]
pub struct Step {
    pub candidate: Selection,
    pub action: ActionBytes,
}

// A communication of two components, the silent candidate of this number of the part, where `x` is the new name. What is received is the name in the
// slot `new`: [Com]; or, if it closes, a new restriction: [Close]. Whether its condition merges names.
#[derive(Clone, Copy)]
pub struct Communication {
    pub left: Located,
    pub right: Located,
    pub new: u8,
    pub merges: bool,
    pub closes: bool,
    pub number: usize,
    pub x: u8,
}

// Puts a step into the list whose result was written up to `n`, and answers how many steps there are then; none where a limit is passed. A result that is
// too long passes one.
fn put_result(
    class: &[u8],
    action: ActionBytes,
    res: &[u8],
    n: usize,
    area: &mut [u8],
    count: usize,
) -> Option<usize>
    requires { HasRoom area.old count × (name_count ≤ length class.now) × (longest_term ≤ length res.now) }
    ensures few { Few result }
    ensures is { PutResultIs class.now action res.now n area.old count (counted result) area.new }
{
    if LONGEST_TERM < n {
        return None;
    }
    let entry = entry_of(class, action, res, n);
    let m = insert(area, count, &entry);
    if MOST_STEPS < m { None } else { Some(m) }
}

// Puts a step into the list whose result was written up to `n`, where it may have restrictions: it is tidied first, unless it is so as it stands
// (request 2026-04).
fn put_written(
    question: &[u8],
    class: &[u8],
    action: ActionBytes,
    res: &[u8],
    n: usize,
    restricted: bool,
    area: &mut [u8],
    count: usize,
) -> Option<usize>
    requires { HasRoom area.old count × (name_count ≤ length class.now) × (length res.now ≡ longest_term) × (restricted ≡ true → n ≤ longest_term) }
    ensures few { Few result }
    ensures is { PutWrittenIs question.now class.now action res.now n restricted area.old count (counted result) area.new }
{
    if restricted {
        let arities = arities_of(question);
        if !is_tidied(&res[..n], arities) {
            let mut tidied = [0u8; LONGEST_TERM];
            let e = tidy(res, 0, arities, &mut tidied, 0);
            let m = e.written;
            return put_result(class, action, &tidied, m, area, count);
        }
    }
    put_result(class, action, res, n, area, count)
}

// Puts a silent step into the list whose result was written up to `n` but for the names that its condition merges: `class` are its classes.
fn put_silent(
    question: &[u8],
    class: &[u8],
    res: &mut [u8],
    n: usize,
    merges: bool,
    restricted: bool,
    area: &mut [u8],
    count: usize,
) -> Option<usize>
    requires { HasRoom area.old count × (name_count ≤ length class.now) × (length res.old ≡ longest_term) × (restricted ≡ true → n ≤ longest_term) }
    ensures few { Few result }
    ensures is { PutSilentIs question.now class.now res.old n merges restricted area.old count (counted result) area.new }
{
    if merges {
        merge_names(res, n, arities_of(question), class);
    }
    put_written(question, class, SILENT, res, n, restricted, area, count)
}

// Puts a step of the part into the list whose result is too long as it is, but has restrictions, so that its tidied form need not be (request 2026-04): it
// is written where there is room for it, and tidied from there.
fn put_tidied(
    question: &[u8],
    bodies: &[u32],
    part: &[u8],
    tally: &[u32],
    step: Step,
    class: &[u8],
    area: &mut [u8],
    count: usize,
) -> Option<usize>
    requires { CanPut question.now bodies.now part.now tally.now area.old count × (name_count ≤ length class.now) }
    ensures few { Few result }
    ensures is { PutClassedIs question.now part.now step.candidate.silently step.candidate.number class.now step.action step.candidate.x area.old count (counted result) area.new }
{
    let mut result = [0u8; LONGEST_RAW];
    let n = write_tidied(
        question,
        bodies,
        part,
        tally,
        step.candidate,
        class,
        &mut result,
    );
    put_result(class, step.action, &result, n, area, count)
}

// Puts a step of the part into the list, `class` being the classes of its condition. A silent one's result has no new name: it is written with its own
// names, so that what stands beside it is copied, and then names are merged. Whether it is too long is said by its tidied form.
pub fn put_classed(
    question: &[u8],
    bodies: &[u32],
    part: &[u8],
    tally: &[u32],
    step: Step,
    class: &[u8],
    area: &mut [u8],
    count: usize,
) -> Option<usize>
    requires { CanPut question.now bodies.now part.now tally.now area.old count × (name_count ≤ length class.now) }
    ensures few { Few result }
    ensures is { PutClassedIs question.now part.now step.candidate.silently step.candidate.number class.now step.action step.candidate.x area.old count (counted result) area.new }
{
    let candidate = step.candidate;
    let restricted = is_restricted(tally);
    let mut result = [0u8; LONGEST_TERM];
    if candidate.silently {
        let own = own_names();
        let Some(m) = write_result(question, bodies, part, tally, candidate, &own, &mut result)
        else {
            if restricted {
                return put_tidied(question, bodies, part, tally, step, class, area, count);
            }
            return None;
        };
        return put_silent(
            question,
            class,
            &mut result,
            m,
            true,
            restricted,
            area,
            count,
        );
    }
    let Some(n) = write_result(question, bodies, part, tally, candidate, class, &mut result) else {
        if restricted {
            return put_tidied(question, bodies, part, tally, step, class, area, count);
        }
        return None;
    };
    put_written(
        question,
        class,
        step.action,
        &result,
        n,
        restricted,
        area,
        count,
    )
}

// Puts the step that a candidate of the term at a place is in the part into the list. Its condition merges nothing.
pub fn put_placed(
    question: &[u8],
    bodies: &[u32],
    part: &[u8],
    tally: &[u32],
    place: Position,
    step: Step,
    area: &mut [u8],
    count: usize,
) -> Option<usize>
    requires { CanPut question.now bodies.now part.now tally.now area.old count × Inside part.now place.at place.depth × (place.first + step.candidate.number ≤ most_candidates) }
    ensures few { Few result }
    ensures is { PutPlacedIs question.now part.now place.at place.depth place.first step.candidate.silently step.candidate.number step.action step.candidate.x area.old count (counted result) area.new }
{
    let candidate = step.candidate;
    let restricted = is_restricted(tally);
    let mut result = [0u8; LONGEST_TERM];
    let class = own_names();
    let Some(n) = write_placed(question, bodies, part, tally, place, candidate, &mut result) else {
        if restricted {
            let whole = Selection {
                silently: candidate.silently,
                number: place.first + candidate.number,
                x: candidate.x,
            };
            let numbered = Step {
                candidate: whole,
                action: step.action,
            };
            return put_tidied(question, bodies, part, tally, numbered, &class, area, count);
        }
        return None;
    };
    put_written(
        question,
        &class,
        step.action,
        &result,
        n,
        restricted,
        area,
        count,
    )
}

// Puts a communication into the list by its number in the part.
fn put_numbered(
    question: &[u8],
    bodies: &[u32],
    part: &[u8],
    tally: &[u32],
    met: Communication,
    class: &[u8],
    area: &mut [u8],
    count: usize,
) -> Option<usize>
    requires { CanPut question.now bodies.now part.now tally.now area.old count × (name_count ≤ length class.now) }
    ensures few { Few result }
    ensures is { PutMetIs question.now part.now met class.now area.old count (counted result) area.new }
{
    let candidate = Selection {
        silently: true,
        number: met.number,
        x: met.x,
    };
    let step = Step {
        candidate,
        action: SILENT,
    };
    put_classed(question, bodies, part, tally, step, class, area, count)
}

// Puts a communication into the list. `class` are the classes of its condition. What is written for it stands for its result, or it is found by its number.
pub fn put_met(
    question: &[u8],
    bodies: &[u32],
    part: &[u8],
    tally: &[u32],
    met: Communication,
    class: &[u8],
    area: &mut [u8],
    count: usize,
) -> Option<usize>
    requires { CanPut question.now bodies.now part.now tally.now area.old count × FoundIn part.now met.left × FoundIn part.now met.right × (name_count ≤ length class.now) }
    ensures few { Few result }
    ensures is { PutMetIs question.now part.now met class.now area.old count (counted result) area.new }
{
    let closes = met.closes;
    let restricted = closes | is_restricted(tally);
    let mut result = [0u8; LONGEST_TERM];
    let Some(n) = write_met(
        question,
        bodies,
        part,
        tally,
        met.left,
        met.right,
        met.new,
        &mut result,
    ) else {
        if restricted {
            return put_numbered(question, bodies, part, tally, met, class, area, count);
        }
        return None;
    };
    // the restriction of [Close] binds a name in what was written
    if closes && occurs(&result[..n], NAME_COUNT as u8) {
        return put_numbered(question, bodies, part, tally, met, class, area, count);
    }
    put_silent(
        question,
        class,
        &mut result,
        n,
        met.merges,
        restricted,
        area,
        count,
    )
}
