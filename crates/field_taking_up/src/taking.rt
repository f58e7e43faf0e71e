// A situation taken up: its free names, its apart pairs and the steps of both sides.
ghost use Rattle.std.specs.Prelude.{◌≡◌, ◌+◌, ◌*◌, ◌≤◌, length};
ghost use Rattle.terms.specs.Limits.{name_count, longest_term};
ghost use Rattle.steps_tallies.specs.Tally.{tally_size, BodiesTallied};
ghost use Rattle.steps.specs.Limits.{step_bytes};
ghost use Rattle.steps_rows.specs.Rows.{row_bytes, most_rows};
ghost use Rattle.field_kept_lists.specs.ListArea.{ListIn, Labelled, SideIs};
ghost use Rattle.field_pairs.specs.Slot.{key_bytes};
ghost use Rattle.field_taking_up.specs.TakingUp.{SomeBindsIs, PastNamesIs, ListsSides, TakesUp};

use field_kept_lists::kept_lists::{bring, copy_kept, kept_place};
use field_kept_lists::list_area::{LABEL, has_list, put_label, same_part, steps_in};
use field_pairs::entries::binds;
use field_pairs::names::{free_in_either, new_name};
use field_pairs::pairs::PAIR_COUNT;
use field_relisting::relisting::list_anew;
use field_renewal::renewing::renew_kept;
use field_slots::slots::{apart_flags, first_part, second_part};
use steps_entries::limits::STEP_BYTES;
use steps_tallies::bodies::arities_of;
use terms_bytes::bytes::copy;
use terms_bytes::limits::{LONGEST_TERM, NAME_COUNT};

// Of a situation taken up: its free names, its apart pairs, and the numbers of steps of the first and of the second side, unless a limit is passed.
#[derive(Clone, Copy)]
pub struct TakenUp {
    pub free: [u8; NAME_COUNT],
    pub apart: [u8; PAIR_COUNT],
    pub lists: Option<(usize, usize)>,
}

// Whether one of the first `count` steps receives or extrudes a name.
fn some_binds(area: &[u8], count: usize) -> bool
    requires { step_bytes * count ≤ length area.now }
    ensures { SomeBindsIs area.now count result }
{
    for i in 0..count {
        if binds(area, STEP_BYTES * i) {
            return true;
        }
    }
    false
}

// The limit of names: a step of either side binds a name while all names are free.
fn past_names(x: usize, firsts: &[u8], n: usize, seconds: &[u8], m: usize) -> bool
    requires { (step_bytes * n ≤ length firsts.now) × (step_bytes * m ≤ length seconds.now) }
    ensures { PastNamesIs x firsts.now n seconds.now m result }
{
    if x != NAME_COUNT {
        return false;
    }
    some_binds(firsts, n) || some_binds(seconds, m)
}

// Lists one side, unless its list is at hand, or kept here or on the other side, be it for another new name. A part above the limit stands in no
// slot.
fn list_side(
    question: &[u8],
    bodies: &[u32],
    part: &[u8],
    x: usize,
    tallies: &mut [u32],
    rows: &mut [u8],
    other: &[u8],
    area: &mut [u8],
) -> Option<usize>
    requires { (x ≤ name_count) × BodiesTallied question.now bodies.now × (length tallies.old ≡ tally_size) × (row_bytes * most_rows ≤ length rows.old) × Labelled question.now other.now × Labelled question.now area.old }
    ensures { SideIs question.now part.now x result area.new × Labelled question.now area.new }
{
    if LONGEST_TERM < part.len() {
        return None;
    }
    if has_list(area, LABEL, part, x) {
        return Some(steps_in(area, LABEL));
    }
    let p = kept_place(part);
    if has_list(area, p, part, x) {
        return Some(bring(area, p, part, x));
    }
    if has_list(other, p, part, x) {
        return Some(copy_kept(other, p, part, x, area));
    }
    if let Some(n) = renew_kept(question, part, x, other, p, area) {
        return Some(n);
    }
    list_anew(question, bodies, part, x, tallies, rows, p, area)
}

// Lists the second side. Where it is the same part as the first, which has `n` steps, its list is a copy.
fn list_second(
    question: &[u8],
    bodies: &[u32],
    first: &[u8],
    second: &[u8],
    x: usize,
    tallies: &mut [u32],
    rows: &mut [u8],
    firsts: &[u8],
    n: usize,
    seconds: &mut [u8],
) -> Option<usize>
    requires { (x ≤ name_count) × BodiesTallied question.now bodies.now × (length tallies.old ≡ tally_size) × (row_bytes * most_rows ≤ length rows.old) × Labelled question.now firsts.now × (length first.now ≤ longest_term) × ListIn question.now first.now x n firsts.now × Labelled question.now seconds.old }
    ensures { SideIs question.now second.now x result seconds.new × Labelled question.now seconds.new }
{
    if same_part(first, second) {
        copy(firsts, 0, STEP_BYTES * n, seconds, 0);
        put_label(seconds, LABEL, second, x, n);
        return Some(n);
    }
    list_side(question, bodies, second, x, tallies, rows, firsts, seconds)
}

// Lists both sides, each in its area, for the new name `x`.
fn list_sides(
    question: &[u8],
    bodies: &[u32],
    first: &[u8],
    second: &[u8],
    x: usize,
    tallies: &mut [u32],
    rows: &mut [u8],
    firsts: &mut [u8],
    seconds: &mut [u8],
) -> Option<(usize, usize)>
    requires { (x ≤ name_count) × BodiesTallied question.now bodies.now × (length tallies.old ≡ tally_size) × (row_bytes * most_rows ≤ length rows.old) × Labelled question.now firsts.old × Labelled question.now seconds.old }
    ensures { ListsSides question.now first.now second.now x result firsts.new seconds.new × Labelled question.now firsts.new × Labelled question.now seconds.new }
{
    let n = list_side(question, bodies, first, x, tallies, rows, seconds, firsts)?;
    let m = list_second(
        question, bodies, first, second, x, tallies, rows, firsts, n, seconds,
    )?;
    if past_names(x, firsts, n, seconds, m) {
        return None;
    }
    Some((n, m))
}

// Takes up the situation at `at`; `bodies` are the tallies of the definitions' bodies, and `numbers` and `rows` are lent to the lister. The two
// areas have the lists of the situation before, where there was one.
pub fn take_up(
    question: &[u8],
    bodies: &[u32],
    work: &[u8],
    at: usize,
    tallies: &mut [u32],
    rows: &mut [u8],
    firsts: &mut [u8],
    seconds: &mut [u8],
) -> TakenUp
    requires { (at + key_bytes ≤ length work.now) × BodiesTallied question.now bodies.now × (length tallies.old ≡ tally_size) × (row_bytes * most_rows ≤ length rows.old) × Labelled question.now firsts.old × Labelled question.now seconds.old }
    ensures { TakesUp question.now work.now at result firsts.new seconds.new × Labelled question.now firsts.new × Labelled question.now seconds.new }
{
    let first = first_part(work, at);
    let second = second_part(work, at);
    let free = free_in_either(first, second, arities_of(question));
    let x = new_name(&free);
    TakenUp {
        free: free,
        apart: apart_flags(work, at),
        lists: list_sides(
            question, bodies, first, second, x, tallies, rows, firsts, seconds,
        ),
    }
}
