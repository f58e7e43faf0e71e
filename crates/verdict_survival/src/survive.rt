// Whether a situation survives: those left answer each demand on it.
ghost use Rattle.std.specs.Prelude.{◌*◌, ◌<◌};
ghost use Rattle.field_taking_up.specs.Below.{Labelled};
ghost use Rattle.verdict_answers.specs.Striking.{Slots, Listing, ExaminedIs};
ghost use Rattle.verdict_answers.specs.Manners.{manner_of};

use field_slots::slot::SLOT_BYTES;
use field_taking_up::taking::take_up;
use steps_tallies::bodies::arities_of;
use verdict_answers::answered::{Search, SideLists, side_answered};
use verdict_notes::relied::{Relied, relied_none};

// Situation `i` of a search, which may have to be struck out.
#[derive(Clone, Copy)]
pub struct Candidate {
    pub search: Search,
    pub i: usize,
}

// What a situation relies on, if those left answer each demand on it, else `Err` with what was relied on when one was not answered. The two areas have the
// lists of the situation before, `tallies` and `rows` are for the lister.
pub fn survives(
    question: &[u8],
    bodies: &[u32],
    work: &[u8],
    tallies: &mut [u32],
    rows: &mut [u8],
    firsts: &mut [u8],
    seconds: &mut [u8],
    candidate: Candidate,
) -> Result<Relied, Relied>
    requires { (candidate.i < candidate.search.count) × Slots work.now candidate.search × Listing question.now bodies.now tallies.old rows.old firsts.old seconds.old }
    ensures { ExaminedIs (manner_of candidate.search.manner) question.now candidate.search.capacity work.now candidate.search.count candidate.i result × Labelled question.now firsts.new × Labelled question.now seconds.new }
{
    let search = candidate.search;
    let i = candidate.i;
    let taken = take_up(
        question,
        bodies,
        work,
        SLOT_BYTES * i,
        tallies,
        rows,
        firsts,
        seconds,
    );
    let free = taken.free;
    let apart = taken.apart;
    let lists = taken.lists;
    let none = relied_none(i);
    // no situation of an explored field is past a limit
    let Some((n, m)) = lists else {
        return Err(none);
    };
    let arities = arities_of(question);
    let first_side = SideLists {
        search,
        second: false,
        steps: n,
        replies: m,
    };
    let relied = side_answered(
        arities, work, &free, apart, firsts, seconds, first_side, none,
    )?;
    let second_side = SideLists {
        search,
        second: true,
        steps: m,
        replies: n,
    };
    side_answered(
        arities,
        work,
        &free,
        apart,
        seconds,
        firsts,
        second_side,
        relied,
    )
}
