// The listing operation: checks 3 to 12, 13 and 15 of document 01, and the steps of one side.
ghost use Rattle.std.specs.Prelude.{true, ◌||◌, ◌≡◌, ◌*◌, ◌≤◌, eqb, length};
ghost use Rattle.terms.specs.Limits.{longest_term};
ghost use Rattle.terms_bytes.specs.Writing.{IsAccepted, Plain};
ghost use Rattle.terms_converting.specs.Questions.{AcceptedFrom};
ghost use Rattle.steps_lister.specs.Answering.{DoesList, SideIs, ListsInto};
ghost use Rattle.steps.specs.Limits.{step_bytes, most_steps};
ghost use Rattle.steps.specs.Operations.{list_of};

use crate::list::list_part;
use steps_entries::limits::{LIST_ROOM, MOST_STEPS, STEP_BYTES};
use steps_tallies::bodies::arities_of;
use terms_bytes::answer::Refusal;
use terms_bytes::bytes::copy;
use terms_bytes::frame::{after_field, definitions, field_at, field_place};
use terms_bytes::limits::{LONGEST_QUESTION, NAME_COUNT};
use terms_checks::check::{check, is_counted};
use terms_converting::question::convert_question;
use terms_renaming::free::is_free;

// The bytes of as many steps as the limit allows.
const LISTING_BYTES: usize = STEP_BYTES * MOST_STEPS;

// Lists the steps of a part into the area and answers how many there are; none, and nothing written, where they are unsettled.
fn list_into(question: &[u8], part: &[u8], x: u8, area: &mut [u8]) -> Option<usize>
    requires { (most_steps * step_bytes ≤ length area.old) × (length part.now ≤ longest_term) × Plain question.now }
    ensures { ListsInto question.now part.now x area.old result area.new }
{
    let mut listing = [0u8; LIST_ROOM];
    let n = list_part(question, part, x, &mut listing)?;
    copy(&listing, 0, n * STEP_BYTES, area, 0);
    Some(n)
}

// Whether the number is one of a side.
fn is_side(side: u64) -> bool
    ensures { result ≡ (eqb side 1 || eqb side 2) }
{
    side == 1 || side == 2
}

// The part of an accepted question on this side.
fn side_of(question: &[u8], side: u64) -> &[u8]
    ensures { SideIs question.now side result.now }
{
    let first = field_place(question, definitions(question));
    if side == 1 {
        return field_at(question, first);
    }
    field_at(question, after_field(question, first))
}

// Checks 13 and 15 of an accepted question of edition one, then the list.
fn steps_accepted(
    question: &[u8],
    side: u64,
    name: u64,
    area: &mut [u8],
) -> Result<Option<usize>, Refusal>
    requires { Plain question.now }
    ensures { DoesList (list_of question.now side name (length area.old)) area.old result area.new }
{
    if !is_side(side) {
        return Err(Refusal::ListedSide);
    }
    if NAME_COUNT as u64 <= name {
        return Err(Refusal::ListedSide);
    }
    let part = side_of(question, side);
    if is_free(part, arities_of(question), name as usize) {
        return Err(Refusal::ListedSide);
    }
    if area.len() < LISTING_BYTES {
        return Err(Refusal::ResultArea);
    }
    Ok(list_into(question, part, name as u8, area))
}

// The same of edition two, by its edition-one form.
fn steps_counted(
    question: &[u8],
    side: u64,
    name: u64,
    area: &mut [u8],
) -> Result<Option<usize>, Refusal>
    requires { AcceptedFrom question.now true }
    ensures { DoesList (list_of question.now side name (length area.old)) area.old result area.new }
{
    let mut plain = [0u8; LONGEST_QUESTION];
    let n = convert_question(question, true, &mut plain);
    steps_accepted(&plain[..n], side, name, area)
}

// The list of an accepted question, in either edition.
fn steps_either(
    question: &[u8],
    side: u64,
    name: u64,
    area: &mut [u8],
) -> Result<Option<usize>, Refusal>
    requires { IsAccepted question.now }
    ensures { DoesList (list_of question.now side name (length area.old)) area.old result area.new }
{
    if is_counted(question) {
        return steps_counted(question, side, name, area);
    }
    steps_accepted(question, side, name, area)
}

// Lists the steps of one side of the question, for the new name, into the area.
pub fn steps(
    question: &[u8],
    side: u64,
    name: u64,
    area: &mut [u8],
) -> Result<Option<usize>, Refusal>
    ensures { DoesList (list_of question.now side name (length area.old)) area.old result area.new }
{
    check(question)?;
    steps_either(question, side, name, area)
}
