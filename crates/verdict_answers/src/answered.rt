// Whether the situations that are left answer each demand of one side, and on which of them that relies.
ghost use Rattle.std.specs.Prelude.{◌+◌, ◌*◌, ◌<◌, ◌≤◌, length};
ghost use Rattle.field_pairs.specs.Slot.{key_bytes, slot_bytes};
ghost use Rattle.terms.specs.Limits.{name_count};
ghost use Rattle.steps.specs.Limits.{step_bytes};
ghost use Rattle.verdict_notes.specs.Notes.{Numbers};
ghost use Rattle.verdict_answers.specs.Striking.{LeftIs, CountsIs, Slots, SideIn, OfNames, AskedIs, LotLeftIs, RunAnsweredIs, SideAnsweredIs};
ghost use Rattle.verdict_answers.specs.Manners.{manner_of};
ghost use Rattle.verdict_answers.specs.declared.manner.Manner.TheVariants.{Early};

use crate::manner::Manner;
use field_pairs::entries::answers;
use field_pairs::names::is_received;
use field_pairs::pairs::{PAIR_COUNT, allowed};
use field_slots::chains::find_chained;
use field_slots::slot::left_at;
use field_successors::results::{Answering, successor};
use steps_entries::limits::STEP_BYTES;
use terms_bytes::limits::NAME_COUNT;
use verdict_notes::relied::{Relied, relied_with};

// A search: how it judges, how many slots there are, and how many of them have situations.
#[derive(Clone, Copy)]
pub struct Search {
    pub manner: Manner,
    pub capacity: usize,
    pub count: usize,
}

// One side of a situation: whether it is the second, how many steps its list has, and how many the other side's, its replies.
#[derive(Clone, Copy)]
pub struct SideLists {
    pub search: Search,
    pub second: bool,
    pub steps: usize,
    pub replies: usize,
}

// One side for a run of names, `from` to `to` without it.
#[derive(Clone, Copy)]
pub struct SideRun {
    pub side: SideLists,
    pub from: usize,
    pub to: usize,
}

// The step at `at` of that side, and the reply at `place`.
#[derive(Clone, Copy)]
pub struct StepReply {
    pub run: SideRun,
    pub at: usize,
    pub place: usize,
}

// The slot of the situation with this key, of the first `count`, if it is left.
fn find_left(work: &[u8], capacity: usize, count: usize, key: &[u8]) -> Option<usize>
    requires { (1 ≤ capacity) × (count ≤ capacity) × (slot_bytes * capacity ≤ length work.now) × (key_bytes ≤ length key.now) }
    ensures { LeftIs capacity work.now count key.now result }
{
    let i = find_chained(work, capacity, count, key)?;
    if !left_at(work, i) {
        return None;
    }
    Some(i)
}

// Whether `name` counts for the step at `at`: the number behind the names, which stands for none, or a name that the step receives.
fn counts(free: &[u8], area: &[u8], at: usize, name: usize) -> bool
    requires { (name ≤ name_count) × (at ≤ length area.now) }
    ensures { CountsIs free.now area.now at name result }
{
    if name == NAME_COUNT {
        return true;
    }
    is_received(free, area, at, name)
}

// Whether the step at `at` must be answered for the run of names: it is allowed, and a name of the run counts.
fn is_asked(
    free: &[u8],
    apart: &[u8; PAIR_COUNT],
    area: &[u8],
    at: usize,
    from: usize,
    to: usize,
) -> bool
    requires { (from ≤ name_count) × (to ≤ name_count + 1) × (at ≤ length area.now) }
    ensures { AskedIs free.now apart.now area.now at from to result }
{
    if !allowed(from < NAME_COUNT, apart, area, at) {
        return false;
    }
    for name in from..to {
        if counts(free, area, at, name) {
            return true;
        }
    }
    false
}

// What is relied on, where the reply answers the step and leads to a situation that is left for every name of the run that counts: those situations
// beside what was relied on before; else `Err` with what was relied on before.
fn lot_left(
    arities: &[u8],
    work: &[u8],
    free: &[u8],
    apart: [u8; PAIR_COUNT],
    area: &[u8],
    others: &[u8],
    pair: StepReply,
    before: Relied,
) -> Result<Relied, Relied>
    requires { Slots work.now pair.run.side.search × (pair.at + step_bytes ≤ length area.now) × (pair.place + step_bytes ≤ length others.now) × OfNames pair.run × Numbers before }
    ensures { LotLeftIs arities.now pair.run.side.search.capacity work.now pair.run.side.search.count free.now apart pair.run.side.second area.now pair.at others.now pair.place pair.run.from pair.run.to before result }
{
    let at = pair.at;
    let place = pair.place;
    if !answers(area, at, others, place) {
        return Err(before);
    }
    let run = pair.run;
    let from = run.from;
    let to = run.to;
    let side = run.side;
    let second = side.second;
    let search = side.search;
    let capacity = search.capacity;
    let count = search.count;
    let mut relied = before;
    'names: for name in from..to {
        if !counts(free, area, at, name) {
            continue 'names;
        }
        let answer = Answering {
            second,
            at,
            place,
            name,
        };
        let key = successor(arities, free, &apart, area, others, answer);
        let Some(slot) = find_left(work, capacity, count, &key) else {
            return Err(before);
        };
        relied = relied_with(relied, slot);
    }
    Ok(relied)
}

// What is relied on beside what was before, where each step of one side that is asked for the run of names has an answer that leads to situations that
// are left; else `Err` with what was relied on when a step had none.
fn run_answered(
    arities: &[u8],
    work: &[u8],
    free: &[u8],
    apart: [u8; PAIR_COUNT],
    area: &[u8],
    others: &[u8],
    run: SideRun,
    before: Relied,
) -> Result<Relied, Relied>
    requires { SideIn work.now area.now others.now run.side × OfNames run × Numbers before }
    ensures { RunAnsweredIs run.from run.to arities.now run.side.search.capacity work.now run.side.search.count free.now apart run.side.second area.now run.side.steps others.now run.side.replies before result }
{
    let from = run.from;
    let to = run.to;
    let side = run.side;
    let n = side.steps;
    let m = side.replies;
    let mut relied = before;
    'steps: for i in 0..n {
        let at = STEP_BYTES * i;
        if !is_asked(free, &apart, area, at, from, to) {
            continue 'steps;
        }
        for j in 0..m {
            let place = STEP_BYTES * j;
            let pair = StepReply { run, at, place };
            let lot = lot_left(arities, work, free, apart, area, others, pair, relied);
            if let Ok(more) = lot {
                relied = more;
                continue 'steps;
            }
        }
        return Err(relied);
    }
    Ok(relied)
}

// What is relied on beside what was before, where those left answer each demand of one side early, each name by answers of its own; else `Err` with what
// was relied on when a demand was not answered.
fn side_early(
    arities: &[u8],
    work: &[u8],
    free: &[u8],
    apart: [u8; PAIR_COUNT],
    area: &[u8],
    others: &[u8],
    side: SideLists,
    before: Relied,
) -> Result<Relied, Relied>
    requires { SideIn work.now area.now others.now side × Numbers before }
    ensures { SideAnsweredIs (manner_of Early) arities.now side.search.capacity work.now side.search.count free.now apart side.second area.now side.steps others.now side.replies before result }
{
    let mut relied = before;
    for name in 0..NAME_COUNT {
        let to = name + 1;
        let run = SideRun {
            side,
            from: name,
            to,
        };
        relied = run_answered(arities, work, free, apart, area, others, run, relied)?;
    }
    Ok(relied)
}

// What is relied on beside what was before, where those left answer each demand of one side: openly a run that is behind the names, late one of all names,
// for which one answer must do; else `Err` with what was relied on when a demand was not answered.
pub fn side_answered(
    arities: &[u8],
    work: &[u8],
    free: &[u8],
    apart: [u8; PAIR_COUNT],
    area: &[u8],
    others: &[u8],
    side: SideLists,
    before: Relied,
) -> Result<Relied, Relied>
    requires { SideIn work.now area.now others.now side × Numbers before }
    ensures { SideAnsweredIs (manner_of side.search.manner) arities.now side.search.capacity work.now side.search.count free.now apart side.second area.now side.steps others.now side.replies before result }
{
    let search = side.search;
    let manner = search.manner;
    match manner {
        Manner::Open => {
            let to = NAME_COUNT + 1;
            let run = SideRun {
                side,
                from: NAME_COUNT,
                to,
            };
            run_answered(arities, work, free, apart, area, others, run, before)
        }
        Manner::Late => {
            let run = SideRun {
                side,
                from: 0,
                to: NAME_COUNT,
            };
            run_answered(arities, work, free, apart, area, others, run, before)
        }
        Manner::Early => side_early(arities, work, free, apart, area, others, side, before),
    }
}
