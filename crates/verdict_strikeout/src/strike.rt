// Strike-out over the situations of the field, in place.
ghost use Rattle.std.specs.Prelude.{◌≡◌, ◌+◌, ◌-◌, ◌*◌, ◌<◌, ◌≤◌, min, length};
ghost use Rattle.field_kept_lists.specs.ListArea.{Labelled};
ghost use Rattle.field_pairs.specs.Slot.{slot_bytes};
ghost use Rattle.verdict.specs.Judge.{greatest_capacity};
ghost use Rattle.verdict_answers.specs.Manners.{manner_of};
ghost use Rattle.verdict_answers.specs.Striking.{Slots, Listing, NotesHold, EqualPartsIs, StrikesSole, StrikesOne, Run, PassIs, block_slots, turned};

use field_kept_lists::list_area::same_part;
use field_slots::slot::{SLOT_BYTES, left_at, strike};
use field_slots::slots::{first_part, second_part};
use verdict_answers::answered::Search;
use verdict_notes::relied::{note, relies_on_left, sole_struck};
use verdict_survival::survive::{Candidate, survives};

// The level of the largest blocks.
pub const LARGEST_BLOCKS: usize = 2;

// A situation that is taken up: it is examined, or only notes are looked at.
#[derive(Clone, Copy)]
pub struct Visit {
    pub candidate: Candidate,
    pub examine: bool,
}

// A pass over the `size` situations from `from` on, by blocks of a level, up or down; each is examined, or only notes are looked at.
#[derive(Clone, Copy)]
pub struct Pass {
    pub search: Search,
    pub examine: bool,
    pub rising: bool,
    pub level: usize,
    pub from: usize,
    pub size: usize,
}

// Whether the two parts of situation `i` are equal. Every step then is answered by itself, which leads to equal parts again: such situations survive.
fn equal_parts(work: &[u8], i: usize) -> bool
    requires { slot_bytes * (i + 1) ≤ length work.now }
    ensures { EqualPartsIs work.now i result }
{
    let at = SLOT_BYTES * i;
    let first = first_part(work, at);
    let second = second_part(work, at);
    same_part(first, second)
}

// Strikes out situation `i` if the only answer to one of its steps is struck out, by what exploration noted; whether it did.
fn strike_sole(work: &mut [u8], count: usize, i: usize) -> bool
    requires { (i < count) × (slot_bytes * count ≤ length work.old) × (count ≤ greatest_capacity) }
    ensures { StrikesSole work.old count i result work.new }
{
    if !sole_struck(work, count, i) {
        return false;
    }
    strike(work, i);
    true
}

// Strikes out a situation if it is left and does not survive; whether it did. Unless it is to be examined, only notes are looked at. It is not
// examined while all that it relied on when it last survived is left, nor if its parts are equal.
fn strike_one(
    question: &[u8],
    bodies: &[u32],
    work: &mut [u8],
    tallies: &mut [u32],
    rows: &mut [u8],
    firsts: &mut [u8],
    seconds: &mut [u8],
    visit: Visit,
) -> bool
    requires { (visit.candidate.i < visit.candidate.search.count) × Slots work.old visit.candidate.search × Listing question.now bodies.now tallies.old rows.old firsts.old seconds.old × NotesHold visit.examine (manner_of visit.candidate.search.manner) question.now visit.candidate.search.capacity work.old visit.candidate.search.count }
    ensures { StrikesOne visit.examine (manner_of visit.candidate.search.manner) question.now visit.candidate.search.capacity work.old visit.candidate.search.count visit.candidate.i result work.new × Labelled question.now firsts.new × Labelled question.now seconds.new }
{
    let candidate = visit.candidate;
    let i = candidate.i;
    let search = candidate.search;
    let count = search.count;
    let examine = visit.examine;
    if !left_at(work, i) {
        return false;
    }
    if !examine {
        return strike_sole(work, count, i);
    }
    if relies_on_left(work, count, i) {
        return false;
    }
    if equal_parts(work, i) {
        return false;
    }
    let answered = survives(
        question, bodies, work, tallies, rows, firsts, seconds, candidate,
    );
    if let Ok(relied) = answered {
        note(work, i, relied);
        return false;
    }
    strike(work, i);
    true
}

// The number of the part that a pass takes up when `i` of the `count` come behind it: the larger numbers first, or the smaller ones.
fn turn(rising: bool, count: usize, i: usize) -> usize
    requires { i < count }
    ensures { result ≡ turned rising count i }
{
    if rising {
        return count - 1 - i;
    }
    i
}

// How many slots a block has: blocks of one slot, of 16, and of 256 that have 16 of those.
fn width(level: usize) -> usize
    ensures { result ≡ block_slots level }
{
    match level {
        0 => 1,
        1 => 16,
        _ => 256,
    }
}

// How many of the slots before `end` belong to the block of this width that begins at `from`.
fn block_size(end: usize, from: usize, width: usize) -> usize
    requires { from < end }
    ensures { result ≡ min width (end - from) }
{
    width.min(end - from)
}

// One pass, block by block, from the last to the first or the other way round; whether it struck any out.
#[cycle(strike_blocks_strike_until_stable)]
pub fn strike_blocks(
    question: &[u8],
    bodies: &[u32],
    work: &mut [u8],
    tallies: &mut [u32],
    rows: &mut [u8],
    firsts: &mut [u8],
    seconds: &mut [u8],
    pass: Pass,
) -> bool
    requires { (pass.from + pass.size ≤ pass.search.count) × Slots work.old pass.search × Listing question.now bodies.now tallies.old rows.old firsts.old seconds.old × NotesHold pass.examine (manner_of pass.search.manner) question.now pass.search.capacity work.old pass.search.count }
    ensures { PassIs pass.examine (manner_of pass.search.manner) question.now pass.search.capacity work.old pass.search.count (Run pass.from pass.size) result work.new × Labelled question.now firsts.new × Labelled question.now seconds.new }
{
    let search = pass.search;
    let examine = pass.examine;
    let rising = pass.rising;
    let level = pass.level;
    let from = pass.from;
    let size = pass.size;
    let block = width(level);
    let blocks = (size + block - 1) / block;
    let mut struck = false;
    for i in (0..blocks).rev() {
        let at = from + block * turn(rising, blocks, i);
        let part = block_size(from + size, at, block);
        let inner = Pass {
            search,
            examine,
            rising,
            level,
            from: at,
            size: part,
        };
        if strike_until_stable(
            question, bodies, work, tallies, rows, firsts, seconds, inner,
        ) {
            struck = true;
        }
    }
    struck
}

// Passes over one block by turns of direction until one strikes out none of it; whether any was struck out. Situations that fail because of each
// other lie near each other mostly, so that the rest of the field is not gone over for each: a block is stable before the next is taken up, and
// within it the smaller ones are.
#[cycle(strike_blocks_strike_until_stable)]
pub fn strike_until_stable(
    question: &[u8],
    bodies: &[u32],
    work: &mut [u8],
    tallies: &mut [u32],
    rows: &mut [u8],
    firsts: &mut [u8],
    seconds: &mut [u8],
    pass: Pass,
) -> bool
    requires { (pass.from + pass.size ≤ pass.search.count) × Slots work.old pass.search × Listing question.now bodies.now tallies.old rows.old firsts.old seconds.old × NotesHold pass.examine (manner_of pass.search.manner) question.now pass.search.capacity work.old pass.search.count × (pass.level ≡ 0 → pass.size ≡ 1) }
    ensures { PassIs pass.examine (manner_of pass.search.manner) question.now pass.search.capacity work.old pass.search.count (Run pass.from pass.size) result work.new × Labelled question.now firsts.new × Labelled question.now seconds.new }
{
    let search = pass.search;
    let examine = pass.examine;
    let level = pass.level;
    let from = pass.from;
    if level == 0 {
        let candidate = Candidate { search, i: from };
        let visit = Visit { candidate, examine };
        return strike_one(
            question, bodies, work, tallies, rows, firsts, seconds, visit,
        );
    }
    let size = pass.size;
    let below = level - 1;
    let mut struck = false;
    let mut up = pass.rising;
    loop {
        let inner = Pass {
            search,
            examine,
            rising: up,
            level: below,
            from,
            size,
        };
        if !strike_blocks(
            question, bodies, work, tallies, rows, firsts, seconds, inner,
        ) {
            return struck;
        }
        struck = true;
        up = !up;
    }
}
