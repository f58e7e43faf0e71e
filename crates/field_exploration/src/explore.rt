// Exploration of the field: document 01, "The field and the verdict".
ghost use Rattle.std.specs.Prelude.{false, ◌≡◌, ◌*◌, ◌≤◌, length};
ghost use Rattle.steps_tallies.specs.Tally.{tally_size, BodiesTallied};
ghost use Rattle.field_taking_up.specs.Below.{row_bytes, most_rows};
ghost use Rattle.field_growth.specs.Growing.{Underway, HasSteps, GrowsSide, GrowsSides};
ghost use Rattle.field_exploration.specs.Following.{GrowIs};
ghost use Rattle.field_exploration.specs.Exploring.{ExploreIs};
ghost use Rattle.field_taking_up.specs.Below.{Labelled};
ghost use Rattle.field_pairs.specs.Slot.{slot_bytes};

use field_growth::growth::{Step, grow_step};
use field_pairs::pairs::PAIR_COUNT;
use field_slots::chains::put;
use field_slots::notes::clear_slot;
use field_slots::slot::SLOT_BYTES;
use field_successors::start::start_key;
use field_taking_up::taking::take_up;
use steps_entries::limits::STEP_BYTES;
use steps_tallies::bodies::arities_of;

// The second or the first side of the situation in slot `taken`: how many steps it has, and how many the other side; `differ`: all names differ.
#[derive(Clone, Copy)]
struct Side {
    differ: bool,
    second: bool,
    taken: usize,
    steps: usize,
    count: usize,
    capacity: usize,
}

// What every step of one side leads to that must be answered.
fn grow_side(
    arities: &[u8],
    free: &[u8],
    apart: &[u8; PAIR_COUNT],
    area: &[u8],
    others: &[u8],
    side: Side,
    work: &mut [u8],
    known: usize,
) -> Option<usize>
    requires { Underway side.taken known side.capacity (length work.old) × HasSteps side.steps (length area.now) × HasSteps side.count (length others.now) }
    ensures { GrowsSide arities.now free.now apart.now side.differ side.second side.taken area.now side.steps others.now side.count side.capacity work.old known result work.new }
{
    let steps = side.steps;
    let mut so_far = known;
    for i in 0..steps {
        let at = STEP_BYTES * i;
        let step = Step {
            differ: side.differ,
            second: side.second,
            taken: side.taken,
            at,
            count: side.count,
            capacity: side.capacity,
        };
        so_far = grow_step(arities, free, apart, area, others, step, work, so_far)?;
    }
    Some(so_far)
}

// What the steps of both sides lead to; `side` is the first one.
fn grow_sides(
    arities: &[u8],
    free: &[u8],
    apart: &[u8; PAIR_COUNT],
    firsts: &[u8],
    seconds: &[u8],
    side: Side,
    work: &mut [u8],
    known: usize,
) -> Option<usize>
    requires { Underway side.taken known side.capacity (length work.old) × HasSteps side.steps (length firsts.now) × HasSteps side.count (length seconds.now) × (side.second ≡ false) }
    ensures { GrowsSides arities.now free.now apart.now side.differ side.taken firsts.now side.steps seconds.now side.count side.capacity work.old known result work.new }
{
    let so_far = grow_side(arities, free, apart, firsts, seconds, side, work, known)?;
    let other = Side {
        second: true,
        steps: side.count,
        count: side.steps,
        ..side
    };
    grow_side(arities, free, apart, seconds, firsts, other, work, so_far)
}

// How far exploration has come: the situation in slot `taken` is taken up, and `known` of them stand in slots.
#[derive(Clone, Copy)]
struct Progress {
    differ: bool,
    taken: usize,
    known: usize,
    capacity: usize,
}

// Takes up one situation; the two areas have the lists of the one before, `tallies` and `rows` are for the lister.
fn grow(
    question: &[u8],
    bodies: &[u32],
    tallies: &mut [u32],
    rows: &mut [u8],
    firsts: &mut [u8],
    seconds: &mut [u8],
    work: &mut [u8],
    progress: Progress,
) -> Option<usize>
    requires { Underway progress.taken progress.known progress.capacity (length work.old) × BodiesTallied question.now bodies.now × (length tallies.old ≡ tally_size) × (row_bytes * most_rows ≤ length rows.old) × Labelled question.now firsts.old × Labelled question.now seconds.old }
    ensures { GrowIs progress.differ question.now progress.taken progress.capacity work.old progress.known result work.new × Labelled question.now firsts.new × Labelled question.now seconds.new }
{
    let taken = progress.taken;
    let up = take_up(
        question,
        bodies,
        work,
        SLOT_BYTES * taken,
        tallies,
        rows,
        firsts,
        seconds,
    );
    let (n, m) = up.lists?;
    let side = Side {
        differ: progress.differ,
        second: false,
        taken,
        steps: n,
        count: m,
        capacity: progress.capacity,
    };
    grow_sides(
        arities_of(question),
        &up.free,
        &up.apart,
        firsts,
        seconds,
        side,
        work,
        progress.known,
    )
}

// How many situations the field may have; `differ`: all names differ (request 2026-02).
#[derive(Clone, Copy)]
pub struct Extent {
    pub differ: bool,
    pub capacity: usize,
}

// Takes up the situations from the start on until none waits, and answers how many there are, unless a limit is passed. The tables of the lister and the areas of the two lists are lent; each area has the
// list that its label says, if any.
pub fn explore(
    question: &[u8],
    bodies: &[u32],
    tallies: &mut [u32],
    rows: &mut [u8],
    firsts: &mut [u8],
    seconds: &mut [u8],
    work: &mut [u8],
    extent: Extent,
) -> Option<usize>
    requires { (1 ≤ extent.capacity) × (extent.capacity ≤ 4096) × (slot_bytes * extent.capacity ≤ length work.old) × BodiesTallied question.now bodies.now × (length tallies.old ≡ tally_size) × (row_bytes * most_rows ≤ length rows.old) × Labelled question.now firsts.old × Labelled question.now seconds.old }
    ensures { ExploreIs extent.differ question.now extent.capacity work.old result work.new × Labelled question.now firsts.new × Labelled question.now seconds.new }
{
    let differ = extent.differ;
    let capacity = extent.capacity;
    let key = start_key(question, differ);
    put(work, capacity, 0, &key);
    let mut known = 1;
    let mut taken = 0;
    // No range: what is taken up adds to those known.
    while taken < known {
        clear_slot(work, taken);
        let progress = Progress {
            differ,
            taken,
            known,
            capacity,
        };
        known = grow(
            question, bodies, tallies, rows, firsts, seconds, work, progress,
        )?;
        taken += 1;
    }
    Some(known)
}
