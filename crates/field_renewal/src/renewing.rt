// The list of a part for one new name, made its list for another: the steps that bind the name are renamed. Only the order of the steps may be
// another one, so that it is looked at.
ghost use Rattle.std.specs.Prelude.{true, ◌≡◌, ℕ, ◌+◌, ◌*◌, ◌<◌, ◌≤◌, length, get_or, take};
ghost use Rattle.calculus.specs.Term.{put};
ghost use Rattle.terms.specs.Limits.{name_count, longest_term};
ghost use Rattle.steps.specs.Limits.{step_bytes};
ghost use Rattle.field_kept_lists.specs.ListArea.{kept_bytes, label_bytes, LabelIs, Kept, KeptPlace, Labelled};
ghost use Rattle.field_renewal.specs.Renewing.{RenewsStep, RenewsSteps, Ascends, RenewedIs};

use field_kept_lists::kept_lists::KEPT_BYTES;
use field_kept_lists::list_area::{LABEL, LABEL_BYTES, NO_LIST, has_list, put_label, steps_in};
use field_pairs::entries::{OBJECT, binds};
use field_pairs::names::replacing;
use steps_entries::limits::STEP_BYTES;
use steps_entries::listed::precedes;
use steps_tallies::bodies::arities_of;
use terms_bytes::bytes::{copy, get};
use terms_bytes::limits::NAME_COUNT;
use terms_renaming::free::is_free;
use terms_renaming::rename::rename;

// Writes the step at `at` of a list at `to`, for the new name `x`; the table puts it for the old one.
fn renew_step(
    src: &[u8],
    at: usize,
    arities: &[u8],
    table: &[u8],
    x: u8,
    area: &mut [u8],
    to: usize,
)
    requires { (x < name_count) × (at + step_bytes ≤ length src.now) × (to + step_bytes ≤ length area.old) }
    ensures { RenewsStep src.now at arities.now table.now x area.old to area.new }
{
    copy(src, at, STEP_BYTES, area, to);
    if !binds(src, at) {
        return;
    }
    rename(src, at + OBJECT + 2, arities, table, area, to + OBJECT + 2);
    area[to + OBJECT] = x;
}

// Writes the `n` steps of a list for the new name `y`, for the new name `x`.
fn renew_steps(src: &[u8], n: usize, arities: &[u8], y: u8, x: u8, area: &mut [u8])
    requires { (x < name_count) × (step_bytes * n ≤ length src.now) × (step_bytes * n ≤ length area.old) }
    ensures { RenewsSteps src.now n arities.now y x area.new }
{
    let table = replacing(y, x);
    for i in 0..n {
        renew_step(
            src,
            STEP_BYTES * i,
            arities,
            &table,
            x,
            area,
            STEP_BYTES * i,
        );
    }
}

// Whether each of the `n` steps comes before the next.
fn ascends(area: &[u8], n: usize) -> bool
    requires { step_bytes * n ≤ length area.now }
    ensures { result ≡ true → Ascends area.now n }
{
    for i in 1..n {
        if !precedes(area, STEP_BYTES * i - STEP_BYTES, area, STEP_BYTES * i) {
            return false;
        }
    }
    true
}

// Makes a kept list, which is that of this part for the new name `y`, the list at hand for `x`, if it can be made of it. Answers its
// number of steps.
fn renew(
    question: &[u8],
    part: &[u8],
    y: u8,
    x: usize,
    kept: &[u8],
    area: &mut [u8],
) -> Option<usize>
    requires { (length part.now ≤ longest_term) × (length kept.now ≡ kept_bytes) × Kept question.now kept.now × LabelIs (take label_bytes kept.now) part.now y × Labelled question.now area.old }
    ensures { RenewedIs question.now part.now x result area.new × Labelled question.now area.new }
{
    if NAME_COUNT <= y as usize || NAME_COUNT <= x {
        return None;
    }
    let arities = arities_of(question);
    if is_free(part, arities, y as usize) {
        return None;
    }
    let n = steps_in(kept, 0);
    renew_steps(
        &kept[LABEL_BYTES..],
        n,
        arities,
        y,
        x as u8,
        &mut area[..LABEL],
    );
    if !ascends(area, n) {
        area[LABEL] = NO_LIST;
        return None;
    }
    put_label(area, LABEL, part, x, n);
    Some(n)
}

// Makes the list at hand of the list of this part for another new name, if one is kept at `p`, here or on the other side.
pub fn renew_kept(
    question: &[u8],
    part: &[u8],
    x: usize,
    other: &[u8],
    p: usize,
    area: &mut [u8],
) -> Option<usize>
    requires { (length part.now ≤ longest_term) × KeptPlace p × Labelled question.now other.now × Labelled question.now area.old }
    ensures { RenewedIs question.now part.now x result area.new × Labelled question.now area.new }
{
    let here = get(area, p);
    if has_list(area, p, part, here as usize) {
        let mut kept = [0u8; KEPT_BYTES];
        copy(area, p, KEPT_BYTES, &mut kept, 0);
        return renew(question, part, here, x, &kept, area);
    }
    let there = get(other, p);
    if has_list(other, p, part, there as usize) {
        return renew(question, part, there, x, &other[p..p + KEPT_BYTES], area);
    }
    None
}
