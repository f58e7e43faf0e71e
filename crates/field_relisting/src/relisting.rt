// A side whose list is made anew.
ghost use Rattle.std.specs.Prelude.{◌≡◌, ◌*◌, ◌≤◌, length};
ghost use Rattle.terms.specs.Limits.{name_count, longest_term};
ghost use Rattle.steps_tallies.specs.Tally.{tally_size, BodiesTallied};
ghost use Rattle.steps_rows.specs.Rows.{row_bytes, most_rows};
ghost use Rattle.field_kept_lists.specs.ListArea.{Labelled, KeptPlace, SideIs};

use field_kept_lists::kept_lists::keep;
use field_kept_lists::list_area::{LABEL, NO_LIST, put_label};
use steps_lister::list::list_tallied;

// Lists one side anew, and keeps the list at `p` if it is short. The lister is lent the room of the list at hand alone: it promises nothing of the
// area where it answers no number.
pub fn list_anew(
    question: &[u8],
    bodies: &[u32],
    part: &[u8],
    x: usize,
    tallies: &mut [u32],
    rows: &mut [u8],
    p: usize,
    area: &mut [u8],
) -> Option<usize>
    requires { (x ≤ name_count) × BodiesTallied question.now bodies.now × (length tallies.old ≡ tally_size) × (row_bytes * most_rows ≤ length rows.old) × (length part.now ≤ longest_term) × KeptPlace p × Labelled question.now area.old }
    ensures { SideIs question.now part.now x result area.new × Labelled question.now area.new }
{
    let answer = list_tallied(
        question,
        bodies,
        part,
        x as u8,
        tallies,
        rows,
        &mut area[..LABEL],
    );
    match answer {
        None => {
            area[LABEL] = NO_LIST;
            None
        }
        Some(n) => {
            put_label(area, LABEL, part, x, n);
            keep(area, p, part, x, n);
            Some(n)
        }
    }
}
