// The communications of a parallel, from the rows of its two sides (specs/Rows).
ghost use Rattle.std.specs.Prelude.{◌≡◌, true, false, ◌+◌, ◌*◌, ◌≤◌, ◌<◌, eqb, length};
ghost use Rattle.terms.specs.Limits.{longest_term};
ghost use Rattle.steps_tallies.specs.Tally.{EndsInside};
ghost use Rattle.steps_splicing.specs.Collecting.{counted, Few};
ghost use Rattle.steps_splicing.specs.Ready.{Tallied, Inside, FoundIn};
ghost use Rattle.steps_splicing.specs.Locating.{table_slot};
ghost use Rattle.steps_placing.specs.Putting.{CanPut};
ghost use Rattle.steps_communications.specs.Meeting.{most_numbers, first_merged, last_merged, is_between, meets_between, unmatched_row, sender_of, sends_free, MetInside, met_or, NextMetIs, PairIs, MeetRowIs};
ghost use Rattle.steps_rows.specs.Rows.{row_bytes, most_rows, action_kind};
ghost use Rattle.steps_communications.specs.Met.{MeetsIs, ComponentsAre, sending_of, SendsNewIs, CanTake, TakeMetIs};

use steps_conditions::action::Label;
use steps_entries::listed::ActionBytes;
use steps_passing::pass::{middle_of, pass};
use steps_placing::candidate::label_of;
use steps_placing::put::{Communication, SILENT, Step, put_classed, put_met};
use steps_rows::rows::{MATCHED, REPEATED, ROW_BYTES};
use steps_splicing::locate::{Located, locate};
use steps_splicing::splice::{Selection, own_names};
use terms_bytes::limits::NAME_COUNT;
use terms_renaming::tables::merging;

// The kind of an input; the others are outputs.
const INPUT: u8 = 1;

const MATCHED_INPUT: u8 = INPUT + MATCHED;

const FREE_OUTPUT: u8 = 2;

const NEW_OUTPUT: usize = 3;

// The slot of the last free name.
const LAST_NAME: u8 = NAME_COUNT as u8 - 1;

// The slot of the new name in a table of names. In a part it stands for nothing.
const NEW_NAME: u8 = NAME_COUNT as u8;

// A term of the part on the walk: where it stands, how many restrictions are around it, and the number of its first silent candidate; and the new name.
#[derive(Clone, Copy)]
pub struct Node {
    pub at: usize,
    pub depth: usize,
    pub number: usize,
    pub x: u8,
}

// The row of a candidate of one side of a parallel, and the candidate's number among the visible ones of that side.
#[derive(Clone, Copy)]
pub struct Partner {
    pub kind: u8,
    pub channel: u8,
    pub object: u8,
    pub number: usize,
}

// The rows of two candidates, and the number of their communication among the silent candidates of the parallel.
#[derive(Clone, Copy)]
struct Pair {
    left: Partner,
    right: Partner,
    number: usize,
}

// The communication of the candidates of two rows at a parallel, and whether its condition merges names.
#[derive(Clone, Copy)]
struct Met {
    node: Node,
    pair: Pair,
    merges: bool,
}

// The components of the sides of a parallel that communicate.
#[derive(Clone, Copy)]
struct Components {
    left: Located,
    right: Located,
}

// A row of the left side and the number of its candidate, the rows of the right side, the number of the first communication, and how many steps the
// list has.
#[derive(Clone, Copy)]
struct LeftRow {
    row: usize,
    left: usize,
    middle: usize,
    last: usize,
    first: usize,
    count: usize,
}

// The rows of the two sides of a parallel, the left side's from `first` up to `middle`, and the right side's on up to `last`; how many silent
// candidates the sides have; and how many steps the list has.
#[derive(Clone, Copy)]
pub struct SideRows {
    pub first: usize,
    pub middle: usize,
    pub last: usize,
    pub before: usize,
    pub count: usize,
}

// The channels that may be merged with `c`, from the first to the last: with a free name every free name, with another itself alone.
fn first_merged(c: u8) -> u8
    ensures { result ≡ first_merged c }
{
    if c <= LAST_NAME { 0 } else { c }
}

fn last_merged(c: u8) -> u8
    ensures { result ≡ last_merged c }
{
    if c <= LAST_NAME { LAST_NAME } else { c }
}

fn is_between(c: u8, low: u8, high: u8) -> bool
    ensures { result ≡ is_between c low high }
{
    low <= c && c <= high
}

// The kind of a row without the match.
fn action_kind(kind: u8) -> u8
    ensures { result ≡ action_kind kind }
{
    if MATCHED < kind { kind - MATCHED } else { kind }
}

// Whether the candidate of a row of this kind receives, beneath a match or not. By branches: as one condition it slows down the loop over the right
// rows.
fn receives(kind: u8) -> bool
    ensures { result ≡ eqb (action_kind kind) 1 }
{
    if kind == INPUT {
        return true;
    }
    if kind == MATCHED_INPUT {
        return true;
    }
    false
}

// Whether the candidates of two rows may communicate: by their kinds, and by the channel of one and those that may be merged with the other's. A
// candidate that adds no step is passed over.
fn may_meet(k1: u8, low: u8, high: u8, k2: u8, c2: u8) -> bool
    ensures { result ≡ meets_between k1 low high k2 c2 }
{
    if receives(k1) {
        if k2 == REPEATED {
            return false;
        }
        if receives(k2) {
            return false;
        }
        return is_between(c2, low, high);
    }
    if receives(k2) {
        return is_between(c2, low, high);
    }
    false
}

// The first of the right rows from `from` up to `last` that may meet a left row of this kind and channel, if there is one. Most do not.
fn next_met(rows: &[u8], kind: u8, channel: u8, from: usize, last: usize) -> Option<usize>
    requires { (from ≤ last) × (last ≤ most_rows) × (row_bytes * most_rows ≤ length rows.now) }
    ensures inside { MetInside last result }
    ensures is { NextMetIs rows.now kind channel from last (met_or last result) }
{
    let low = first_merged(channel);
    let high = last_merged(channel);
    for w in from..last {
        if may_meet(
            kind,
            low,
            high,
            rows[ROW_BYTES * w],
            rows[ROW_BYTES * w + 1],
        ) {
            return Some(w);
        }
    }
    None
}

impl Pair {
    // The row that sends: the right one, where the left one receives.
    fn sender(self) -> Partner
        ensures { result ≡ sender_of self.left self.right }
    {
        if self.left.kind == INPUT {
            self.right
        } else {
            self.left
        }
    }
}

impl Partner {
    // Whether it sends a name that is free under so many restrictions. Then nothing is extruded in the communication: [Com].
    fn sends_free(self, depth: usize) -> bool
        requires { depth ≤ longest_term }
        ensures { result ≡ sends_free depth self }
    {
        self.kind == FREE_OUTPUT && (self.object as usize) < NAME_COUNT + depth
    }

    // The row without the match.
    fn unmatched(self) -> Partner
        ensures { result ≡ unmatched_row self }
    {
        Partner {
            kind: action_kind(self.kind),
            ..self
        }
    }
}

// A name's slot in a table of names, from its slot in rows: the table has the new name between the free ones and the restrictions.
fn table_slot(slot: u8) -> u8
    requires { slot < 255 }
    ensures { result ≡ table_slot slot }
{
    if slot <= LAST_NAME { slot } else { slot + 1 }
}

// The components that have the candidates of two rows.
fn components_of(part: &[u8], tally: &[u32], node: Node, pair: Pair) -> Components
    requires { Inside part.now node.at node.depth × (length part.now ≤ longest_term) × EndsInside part.now tally.now }
    ensures { ComponentsAre part.now tally.now node pair result }
{
    let at = node.at;
    let left = locate(part, tally, at + 1, node.depth, pair.left.number);
    let middle = middle_of(part, tally, at);
    let right = locate(part, tally, middle, node.depth, pair.right.number);
    Components { left, right }
}

// Puts a communication into the list where a free name is sent: [Com]. `class` are the classes of its condition.
fn take_com(
    question: &[u8],
    bodies: &[u32],
    part: &[u8],
    tally: &[u32],
    met: Met,
    class: &[u8],
    area: &mut [u8],
    count: usize,
) -> Option<usize>
    requires { CanTake question.now bodies.now part.now tally.now area.old count met class.now × (sends_free met.node.depth (sender_of met.pair.left met.pair.right) ≡ true) }
    ensures few { Few result }
    ensures is { TakeMetIs question.now part.now met class.now area.old count (counted result) area.new }
{
    let node = met.node;
    let pair = met.pair;
    let both = components_of(part, tally, node, pair);
    let from = pair.sender();
    let new = table_slot(from.object);
    let number = node.number + pair.number;
    let communication = Communication {
        left: both.left,
        right: both.right,
        new,
        merges: met.merges,
        closes: false,
        number,
        x: node.x,
    };
    put_met(
        question,
        bodies,
        part,
        tally,
        communication,
        class,
        area,
        count,
    )
}

// The component of the row that sends.
fn sending(pair: Pair, both: Components) -> Located
    ensures { result ≡ sending_of pair both }
{
    if pair.left.kind == INPUT {
        both.right
    } else {
        both.left
    }
}

// Whether the candidate of a component sends a new name of its own: then [Open] applies to no restriction around the component.
fn sends_new(
    question: &[u8],
    bodies: &[u32],
    part: &[u8],
    tally: &[u32],
    component: Located,
) -> bool
    requires { Tallied question.now bodies.now part.now tally.now × FoundIn part.now component }
    ensures { SendsNewIs question.now part.now component result }
{
    let passed = pass(
        question,
        bodies,
        part,
        tally,
        component.at,
        component.depth,
        1,
        component.number,
    );
    passed.kind == NEW_OUTPUT
}

// Puts a communication into the list by its number in the part.
fn take_numbered(
    question: &[u8],
    bodies: &[u32],
    part: &[u8],
    tally: &[u32],
    met: Met,
    class: &[u8],
    area: &mut [u8],
    count: usize,
) -> Option<usize>
    requires { CanTake question.now bodies.now part.now tally.now area.old count met class.now }
    ensures few { Few result }
    ensures is { TakeMetIs question.now part.now met class.now area.old count (counted result) area.new }
{
    let node = met.node;
    let pair = met.pair;
    let number = node.number + pair.number;
    let candidate = Selection {
        silently: true,
        number,
        x: node.x,
    };
    let step = Step {
        candidate,
        action: SILENT,
    };
    put_classed(question, bodies, part, tally, step, class, area, count)
}

// Puts a communication into the list where a new name is sent: [Close]. It is put together with a name that stands for nothing else; one that [Open]
// takes from a restriction around the component is not, and the communication goes by its number.
fn take_close(
    question: &[u8],
    bodies: &[u32],
    part: &[u8],
    tally: &[u32],
    met: Met,
    class: &[u8],
    area: &mut [u8],
    count: usize,
) -> Option<usize>
    requires { CanTake question.now bodies.now part.now tally.now area.old count met class.now × (sends_free met.node.depth (sender_of met.pair.left met.pair.right) ≡ false) }
    ensures few { Few result }
    ensures is { TakeMetIs question.now part.now met class.now area.old count (counted result) area.new }
{
    let node = met.node;
    let pair = met.pair;
    let both = components_of(part, tally, node, pair);
    let from = sending(pair, both);
    if !sends_new(question, bodies, part, tally, from) {
        return take_numbered(question, bodies, part, tally, met, class, area, count);
    }
    let number = node.number + pair.number;
    let communication = Communication {
        left: both.left,
        right: both.right,
        new: NEW_NAME,
        merges: met.merges,
        closes: true,
        number,
        x: node.x,
    };
    put_met(
        question,
        bodies,
        part,
        tally,
        communication,
        class,
        area,
        count,
    )
}

// Puts a communication into the list whose condition has these classes.
fn take_met(
    question: &[u8],
    bodies: &[u32],
    part: &[u8],
    tally: &[u32],
    met: Met,
    class: &[u8],
    area: &mut [u8],
    count: usize,
) -> Option<usize>
    requires { CanTake question.now bodies.now part.now tally.now area.old count met class.now }
    ensures few { Few result }
    ensures is { TakeMetIs question.now part.now met class.now area.old count (counted result) area.new }
{
    if met.pair.sender().sends_free(met.node.depth) {
        return take_com(question, bodies, part, tally, met, class, area, count);
    }
    take_close(question, bodies, part, tally, met, class, area, count)
}

// Puts the communication of two candidates on one channel into the list.
fn take_same(
    question: &[u8],
    bodies: &[u32],
    part: &[u8],
    tally: &[u32],
    node: Node,
    pair: Pair,
    area: &mut [u8],
    count: usize,
) -> Option<usize>
    requires { CanPut question.now bodies.now part.now tally.now area.old count × Inside part.now node.at node.depth × (pair.left.kind ≤ 3) × (pair.right.kind ≤ 3) × (pair.left.channel ≡ pair.right.channel) × (node.number + pair.number ≤ most_numbers + most_numbers) }
    ensures few { Few result }
    ensures is { PairIs question.now part.now node.at node.depth node.number pair.left pair.right pair.number node.x area.old count (counted result) area.new }
{
    let class = own_names();
    let met = Met {
        node,
        pair,
        merges: false,
    };
    take_met(question, bodies, part, tally, met, &class, area, count)
}

// Puts the communication of two candidates on two channels, which its condition merges, into the list.
fn take_merging(
    question: &[u8],
    bodies: &[u32],
    part: &[u8],
    tally: &[u32],
    node: Node,
    pair: Pair,
    area: &mut [u8],
    count: usize,
) -> Option<usize>
    requires { CanPut question.now bodies.now part.now tally.now area.old count × Inside part.now node.at node.depth × (node.number + pair.number ≤ most_numbers + most_numbers) × (pair.left.kind ≤ 3) × (pair.right.kind ≤ 3) × (pair.left.channel ≡ pair.right.channel → ⊥) }
    ensures few { Few result }
    ensures is { PairIs question.now part.now node.at node.depth node.number pair.left pair.right pair.number node.x area.old count (counted result) area.new }
{
    let class = merging(pair.left.channel, pair.right.channel);
    let met = Met {
        node,
        pair,
        merges: true,
    };
    take_met(question, bodies, part, tally, met, &class, area, count)
}

// Puts a communication into the list whose condition is that of a label.
fn take_labelled(
    question: &[u8],
    bodies: &[u32],
    part: &[u8],
    tally: &[u32],
    label: Label,
    met: Met,
    area: &mut [u8],
    count: usize,
) -> Option<usize>
    requires { CanPut question.now bodies.now part.now tally.now area.old count × Inside part.now met.node.at met.node.depth × (met.node.number + met.pair.number ≤ most_numbers + most_numbers) }
    ensures few { Few result }
    ensures is { TakeMetIs question.now part.now met label.condition.class area.old count (counted result) area.new }
{
    let class = label.condition.class;
    take_met(question, bodies, part, tally, met, &class, area, count)
}

// Puts the communication of two candidates, of which one stands beneath a match of free names, into the list. Its condition is found by its number in
// the part.
fn take_matched(
    question: &[u8],
    bodies: &[u32],
    part: &[u8],
    tally: &[u32],
    node: Node,
    pair: Pair,
    area: &mut [u8],
    count: usize,
) -> Option<usize>
    requires { CanPut question.now bodies.now part.now tally.now area.old count × Inside part.now node.at node.depth × (node.number + pair.number ≤ most_numbers + most_numbers) }
    ensures few { Few result }
    ensures is { PairIs question.now part.now node.at node.depth node.number pair.left pair.right pair.number node.x area.old count (counted result) area.new }
{
    let number = node.number + pair.number;
    let candidate = Selection {
        silently: true,
        number,
        x: node.x,
    };
    let label = label_of(question, bodies, part, tally, candidate);
    match label {
        None => Some(count),
        Some(header) => {
            let rows = Pair {
                left: pair.left.unmatched(),
                right: pair.right.unmatched(),
                number: pair.number,
            };
            let met = Met {
                node,
                pair: rows,
                merges: true,
            };
            take_labelled(question, bodies, part, tally, header, met, area, count)
        }
    }
}

// Puts the communication of two candidates whose rows may meet into the list.
fn take_pair(
    question: &[u8],
    bodies: &[u32],
    part: &[u8],
    tally: &[u32],
    node: Node,
    pair: Pair,
    area: &mut [u8],
    count: usize,
) -> Option<usize>
    requires { CanPut question.now bodies.now part.now tally.now area.old count × Inside part.now node.at node.depth × (node.number + pair.number ≤ most_numbers + most_numbers) }
    ensures few { Few result }
    ensures is { PairIs question.now part.now node.at node.depth node.number pair.left pair.right pair.number node.x area.old count (counted result) area.new }
{
    let a = pair.left;
    let b = pair.right;
    if MATCHED <= a.kind || MATCHED <= b.kind {
        return take_matched(question, bodies, part, tally, node, pair, area, count);
    }
    if a.channel == b.channel {
        return take_same(question, bodies, part, tally, node, pair, area, count);
    }
    take_merging(question, bodies, part, tally, node, pair, area, count)
}

// Puts the communications of one row of the left side into the list, until a limit is passed. A candidate on a channel that is restricted further in is
// blocked, and so are its communications; those of a candidate that adds no step add none.
fn meet_row(
    question: &[u8],
    bodies: &[u32],
    part: &[u8],
    tally: &[u32],
    node: Node,
    rows: &[u8],
    left: LeftRow,
    area: &mut [u8],
) -> Option<usize>
    requires { CanPut question.now bodies.now part.now tally.now area.old left.count × Inside part.now node.at node.depth × (left.row < left.middle) × (left.middle ≤ left.last) × (left.last ≤ most_rows) × (row_bytes * most_rows ≤ length rows.now) × (node.number + left.first + most_rows ≤ most_numbers + most_numbers) }
    ensures few { Few result }
    ensures is { MeetRowIs question.now part.now node.at node.depth node.number node.x rows.now left.row left.left left.middle left.last left.first area.old left.count (counted result) area.new }
{
    let row = left.row;
    let middle = left.middle;
    let last = left.last;
    let j = left.first;
    let kind = rows[ROW_BYTES * row];
    let channel = rows[ROW_BYTES * row + 1];
    if kind == REPEATED {
        return Some(left.count);
    }
    if NAME_COUNT + node.depth <= channel as usize {
        return Some(left.count);
    }
    let object = rows[ROW_BYTES * row + 2];
    let a = Partner {
        kind,
        channel,
        object,
        number: left.left,
    };
    let mut n = left.count;
    // By two calls: with one, as the loop's condition, the rows that do not meet are passed over more slowly.
    let mut next = next_met(rows, kind, channel, middle, last);
    while let Some(w) = next {
        let kind2 = rows[ROW_BYTES * w];
        let channel2 = rows[ROW_BYTES * w + 1];
        let object2 = rows[ROW_BYTES * w + 2];
        let right = w - middle;
        let b = Partner {
            kind: kind2,
            channel: channel2,
            object: object2,
            number: right,
        };
        let i = j + right;
        let pair = Pair {
            left: a,
            right: b,
            number: i,
        };
        n = take_pair(question, bodies, part, tally, node, pair, area, n)?;
        next = next_met(rows, kind, channel, w + 1, last);
    }
    Some(n)
}

// Puts the communications of the two sides of a parallel into the list. Answers how many steps there are then; none where a limit is passed.
pub fn meet(
    question: &[u8],
    bodies: &[u32],
    part: &[u8],
    tally: &[u32],
    node: Node,
    rows: &[u8],
    sides: SideRows,
    area: &mut [u8],
) -> Option<usize>
    requires { CanPut question.now bodies.now part.now tally.now area.old sides.count × Inside part.now node.at node.depth × (sides.first ≤ sides.middle) × (sides.middle ≤ sides.last) × (sides.last ≤ most_rows) × (row_bytes * most_rows ≤ length rows.now) × (node.number + sides.before ≤ most_numbers) }
    ensures few { Few result }
    ensures is { MeetsIs question.now part.now node.at node.depth node.number sides.before node.x rows.now sides.first sides.middle sides.last area.old sides.count (counted result) area.new }
{
    let first = sides.first;
    let middle = sides.middle;
    let last = sides.last;
    let width = last - middle;
    let mut n = sides.count;
    let mut j = sides.before;
    for row in first..middle {
        let number = row - first;
        let left = LeftRow {
            row,
            left: number,
            middle,
            last,
            first: j,
            count: n,
        };
        n = meet_row(question, bodies, part, tally, node, rows, left, area)?;
        j += width;
    }
    Some(n)
}
