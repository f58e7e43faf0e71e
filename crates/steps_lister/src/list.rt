// The steps of a part, listed.
ghost use Rattle.std.specs.Prelude.{true, ◌≡◌, ◌≤◌, length};
ghost use Rattle.terms.specs.Limits.{longest_term};
ghost use Rattle.steps_entries.specs.Entries.{list_room};
ghost use Rattle.terms_bytes.specs.Writing.{Plain};
ghost use Rattle.steps_tallies.specs.Tally.{BodiesTidied, BodiesTallied};
ghost use Rattle.steps_lister.specs.PartLister.{CanList, Restricted, PartTidied, ListTidiedIs, ListPartIs};

use steps_communications::meet::Node;
use steps_entries::arrange::arrange;
use steps_rows::rows::TABLE_OF_ROWS;
use steps_tallies::bodies::arities_of;
use steps_tallies::tally::{TALLY, bodies_restricted, body_tallies, tally};
use steps_walk::walk::{Walked, walk};
use terms_bytes::limits::{LONGEST_QUESTION, LONGEST_TERM};
use terms_restrictions::restriction::has_restriction;
use terms_tidied::question::{has_tidied_bodies, tidy_bodies};
use terms_tidying::tidied::is_tidied;
use terms_tidying::tidy::tidy;

// The scratch that a listing wants of its caller: numbers for the part's tally, bytes for its rows.
pub const SCRATCH_NUMBERS: usize = TALLY;

pub const SCRATCH_ROWS: usize = TABLE_OF_ROWS;

// Whether the part or a body has a restriction.
fn any_restriction(question: &[u8], bodies: &[u32], part: &[u8]) -> bool
    requires { BodiesTallied question.now bodies.now }
    ensures { Restricted question.now part.now result }
{
    bodies_restricted(bodies) || has_restriction(part, arities_of(question))
}

// Whether the part is tidied as it is. Without restrictions it is.
fn is_tidied_part(question: &[u8], part: &[u8], restricted: bool) -> bool
    requires { Restricted question.now part.now restricted }
    ensures { result ≡ true → PartTidied question.now part.now }
{
    !restricted || is_tidied(part, arities_of(question))
}

// Lists the steps of a tidied part, and answers their number; none where they are unsettled.
fn list_tidied(
    question: &[u8],
    bodies: &[u32],
    part: &[u8],
    x: u8,
    restricted: bool,
    tallies: &mut [u32],
    rows: &mut [u8],
    area: &mut [u8],
) -> Option<usize>
    requires { CanList question.now bodies.now part.now tallies.old rows.old area.old × Restricted question.now part.now restricted }
    ensures { ListTidiedIs question.now part.now x result area.new }
{
    tally(question, bodies, part, restricted, tallies);
    let whole = Node {
        at: 0,
        depth: 0,
        number: 0,
        x,
    };
    let none = Walked { rows: 0, count: 0 };
    let walked = walk(question, bodies, part, tallies, whole, rows, none, area)?;
    arrange(area, walked.count);
    Some(walked.count)
}

// Lists the steps of a part under the definitions of an accepted question whose bodies are tallied, for the new name `x`. The area must hold as
// many steps as the limit allows, and their index. `tallies` and `rows` are lent for the part's tally and rows; what they have before is not read. A part
// with restrictions that bind nothing is tidied first: its list is the same. The answer is the number of steps, or none where they are unsettled.
pub fn list_tallied(
    question: &[u8],
    bodies: &[u32],
    part: &[u8],
    x: u8,
    tallies: &mut [u32],
    rows: &mut [u8],
    area: &mut [u8],
) -> Option<usize>
    requires { CanList question.now bodies.now part.now tallies.old rows.old area.old }
    ensures { ListPartIs question.now part.now x result area.new }
{
    let restricted = any_restriction(question, bodies, part);
    if is_tidied_part(question, part, restricted) {
        return list_tidied(question, bodies, part, x, restricted, tallies, rows, area);
    }
    let mut tidied = [0u8; LONGEST_TERM];
    let ends = tidy(part, 0, arities_of(question), &mut tidied, 0);
    let n = ends.written;
    list_tidied(question, bodies, &tidied[..n], x, true, tallies, rows, area)
}

// The same for bodies that are tidied and not tallied yet.
fn list_under(question: &[u8], part: &[u8], x: u8, area: &mut [u8]) -> Option<usize>
    requires { (list_room ≤ length area.old) × (length part.now ≤ longest_term) × BodiesTidied question.now }
    ensures { ListPartIs question.now part.now x result area.new }
{
    let bodies = body_tallies(question);
    let mut tallies = [0u32; SCRATCH_NUMBERS];
    let mut rows = [0u8; SCRATCH_ROWS];
    list_tallied(question, &bodies, part, x, &mut tallies, &mut rows, area)
}

// The same for any bodies.
pub fn list_part(question: &[u8], part: &[u8], x: u8, area: &mut [u8]) -> Option<usize>
    requires { (list_room ≤ length area.old) × (length part.now ≤ longest_term) × Plain question.now }
    ensures { ListPartIs question.now part.now x result area.new }
{
    if has_tidied_bodies(question) {
        return list_under(question, part, x, area);
    }
    let mut tidied = [0u8; LONGEST_QUESTION];
    let n = tidy_bodies(question, &mut tidied);
    list_under(&tidied[..n], part, x, area)
}
