// Setting a third part beside both sides of a question: document 01, the last paragraph of "Steps". The third part comes in the question's own
// edition, and bytes are copied, so that one path serves both.
ghost use Rattle.std.specs.Prelude.{◌≡◌, ◌&&◌, ◌∷◌, ◌++◌, ◌+◌, ◌<◌, ◌≤◌, length, take, drop, leb};
ghost use Rattle.std.proofs.lemmas.List.Edits.{sets};
ghost use Rattle.terms.specs.Framing.{sized};
ghost use Rattle.terms.specs.Limits.{longest_term};
ghost use Rattle.terms.specs.Operations.{beside_of};
ghost use Rattle.terms_bytes.specs.Writing.{IsAccepted, Does, MayBeBeside, MayPlaceBeside, WritesBeside};

use terms_bytes::answer::Refusal;
use terms_bytes::bytes::{copy, put_size};
use terms_bytes::frame::{after_field, arities, definitions, field_place, size_at};
use terms_bytes::limits::{LONGEST_TERM, NAME_COUNT};
use terms_bytes::tags::PARALLEL;
use terms_checks::check::{check, is_counted};
use terms_scanning::scan::scan_whole;

// Writes one side as a field: its length, byte 07, the `size` bytes of the side at `at`, the third part. Answers where the field ends.
fn write_side(
    question: &[u8],
    at: usize,
    size: usize,
    third: &[u8],
    area: &mut [u8],
    put: usize,
) -> usize
    requires { (at + size ≤ length question.now) × (1 + size + length third.now < 65536) × (put + (3 + size + length third.now) ≤ length area.old) }
    ensures { (result ≡ put + (3 + size + length third.now)) × (area.new ≡ sets area.old put (sized (7 ∷ (take size (drop at question.now) ++ third.now)))) }
{
    let n = 1 + size + third.len();
    put_size(area, put, n);
    area[put + 2] = PARALLEL;
    copy(question, at, size, area, put + 3);
    copy(third, 0, third.len(), area, put + 3 + size);
    put + 2 + n
}

// Copies the accepted question with the third part on each side. Answers its length.
fn write_beside(question: &[u8], third: &[u8], area: &mut [u8]) -> usize
    requires { MayPlaceBeside question.now third.now area.old }
    ensures { WritesBeside question.now third.now area.old result area.new }
{
    let first = field_place(question, definitions(question));
    let second = after_field(question, first);
    let apart = after_field(question, second);
    let rest = question.len() - apart;
    copy(question, 0, first, area, 0);
    let one = write_side(question, first + 2, second - first - 2, third, area, first);
    let two = write_side(question, second + 2, apart - second - 2, third, area, one);
    copy(question, apart, rest, area, two);
    two + rest
}

// Check 6 of the third part's length and of both sides with it.
fn sides_fit(first: usize, second: usize, third: usize) -> bool
    requires { (first < 65536) × (second < 65536) }
    ensures { result ≡ (leb 1 third && leb third longest_term && leb (1 + first + third) longest_term && leb (1 + second + third) longest_term) }
{
    if third < 1 || LONGEST_TERM < third {
        return false;
    }
    1 + first + third <= LONGEST_TERM && 1 + second + third <= LONGEST_TERM
}

// Check 15, then the question with the third part on each side.
fn beside_allowed(question: &[u8], third: &[u8], area: &mut [u8]) -> Result<usize, Refusal>
    requires { MayBeBeside question.now third.now }
    ensures { Does (beside_of question.now third.now (length area.old)) area.old result area.new }
{
    let more = 1 + third.len();
    if area.len() < question.len() + (more + more) {
        return Err(Refusal::ResultArea);
    }
    Ok(write_beside(question, third, area))
}

// Checks 6 to 10 of the third part beside an accepted question.
fn beside_accepted(question: &[u8], third: &[u8], area: &mut [u8]) -> Result<usize, Refusal>
    requires { IsAccepted question.now }
    ensures { Does (beside_of question.now third.now (length area.old)) area.old result area.new }
{
    let first = field_place(question, definitions(question));
    let second = after_field(question, first);
    if !sides_fit(
        size_at(question, first),
        size_at(question, second),
        third.len(),
    ) {
        return Err(Refusal::TermLength);
    }
    let c = scan_whole(
        third,
        0,
        NAME_COUNT,
        arities(question),
        is_counted(question),
    )?;
    if !c.outermost {
        return Err(Refusal::Parallel);
    }
    beside_allowed(question, third, area)
}

// Sets the third part beside both sides of the question, into the area.
pub fn beside(question: &[u8], third: &[u8], area: &mut [u8]) -> Result<usize, Refusal>
    ensures { Does (beside_of question.now third.now (length area.old)) area.old result area.new }
{
    check(question)?;
    beside_accepted(question, third, area)
}
