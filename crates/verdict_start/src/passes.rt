// Passes of strike-out over the whole field: whether the start survives.
ghost use Rattle.std.specs.Prelude.{◌*◌, ◌≤◌, length};
ghost use Rattle.field_pairs.specs.Slot.{slot_bytes};
ghost use Rattle.verdict_answers.specs.Manners.{manner_of};
ghost use Rattle.verdict_answers.specs.Striking.{Slots, Listing, AllSole, FirstStruckIs, StartSurvivesIs};

use field_slots::slot::left_at;
use verdict_answers::answered::Search;
use verdict_notes::relied::clear_notes;
use verdict_strikeout::strike::{LARGEST_BLOCKS, Pass, strike_blocks, strike_until_stable};

// Passes over the whole field, of which the first goes up or down.
#[derive(Clone, Copy)]
pub struct Passes {
    pub search: Search,
    pub rising: bool,
}

// Passes that examine situations, until one strikes out none or the start is struck out; whether the start is left. Situations fail because of ones
// that were found later or earlier, so that the passes go up and down by turns. The two areas have the lists that their labels say.
fn survives_passes(
    question: &[u8],
    bodies: &[u32],
    tallies: &mut [u32],
    rows: &mut [u8],
    firsts: &mut [u8],
    seconds: &mut [u8],
    work: &mut [u8],
    passes: Passes,
) -> bool
    requires { Slots work.old passes.search × Listing question.now bodies.now tallies.old rows.old firsts.old seconds.old }
    ensures { StartSurvivesIs (manner_of passes.search.manner) question.now passes.search.capacity work.old passes.search.count result work.new }
{
    let search = passes.search;
    let count = search.count;
    clear_notes(work, count);
    let mut up = passes.rising;
    loop {
        let pass = Pass {
            search,
            examine: true,
            rising: up,
            level: LARGEST_BLOCKS,
            from: 0,
            size: count,
        };
        let struck = strike_blocks(question, bodies, work, tallies, rows, firsts, seconds, pass);
        if !left_at(work, 0) {
            return false;
        }
        if !struck {
            return true;
        }
        up = !up;
    }
}

// Whether the start survives, where some are struck out. Those that fail by what exploration noted are struck out before any steps are listed; then
// passes begin anew with what is relied on.
fn survives_struck(
    question: &[u8],
    bodies: &[u32],
    tallies: &mut [u32],
    rows: &mut [u8],
    firsts: &mut [u8],
    seconds: &mut [u8],
    work: &mut [u8],
    passes: Passes,
) -> bool
    requires { Slots work.old passes.search × Listing question.now bodies.now tallies.old rows.old firsts.old seconds.old × AllSole (manner_of passes.search.manner) question.now passes.search.capacity work.old passes.search.count }
    ensures { StartSurvivesIs (manner_of passes.search.manner) question.now passes.search.capacity work.old passes.search.count result work.new }
{
    let search = passes.search;
    let rising = passes.rising;
    let count = search.count;
    let level = LARGEST_BLOCKS + 1;
    let pass = Pass {
        search,
        examine: false,
        rising,
        level,
        from: 0,
        size: count,
    };
    strike_until_stable(question, bodies, work, tallies, rows, firsts, seconds, pass);
    if !left_at(work, 0) {
        return false;
    }
    survives_passes(
        question, bodies, tallies, rows, firsts, seconds, work, passes,
    )
}

// The first situation that is struck out, of the first `count`.
fn first_struck(work: &[u8], count: usize) -> Option<usize>
    requires { slot_bytes * count ≤ length work.now }
    ensures { FirstStruckIs work.now count result }
{
    for i in 0..count {
        if !left_at(work, i) {
            return Some(i);
        }
    }
    None
}

// Whether the start survives. Exploration struck out the situations with a step that has no answer at all; if there are none, all survive, since
// every answer leads to a situation of the field. The first pass begins at the end that is nearer to the first of them.
pub fn start_survives(
    question: &[u8],
    bodies: &[u32],
    tallies: &mut [u32],
    rows: &mut [u8],
    firsts: &mut [u8],
    seconds: &mut [u8],
    work: &mut [u8],
    search: Search,
) -> bool
    requires { Slots work.old search × Listing question.now bodies.now tallies.old rows.old firsts.old seconds.old × AllSole (manner_of search.manner) question.now search.capacity work.old search.count }
    ensures { StartSurvivesIs (manner_of search.manner) question.now search.capacity work.old search.count result work.new }
{
    if !left_at(work, 0) {
        return false;
    }
    let count = search.count;
    let Some(first) = first_struck(work, count) else {
        return true;
    };
    let rising = 2 * first < count;
    let passes = Passes { search, rising };
    survives_struck(
        question, bodies, tallies, rows, firsts, seconds, work, passes,
    )
}
