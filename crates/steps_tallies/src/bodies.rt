// The definitions of an accepted question: their arities and bodies as pieces of it.
ghost use Rattle.std.specs.Prelude.{◌≡◌, ℕ, ◌<◌, length};
ghost use Rattle.terms_bytes.specs.FieldPlaces.{field_place};
ghost use Rattle.steps_tallies.specs.Bodies.{AritiesIs, BodyIs, MayOpenIs, CallIs};
ghost use Rattle.steps_tallies.specs.Tally.{BodiesTallied};

use crate::tally::place_of;
use terms_bytes::bytes::get;
use terms_bytes::frame::{arities, field_at};
use terms_bytes::limits::{GREATEST_ARITY, LONGEST_TERM, MOST_DEFINITIONS};

// The arities.
pub fn arities_of(question: &[u8]) -> &[u8]
    ensures { AritiesIs question.now result.now }
{
    arities(question)
}

// The body whose field begins at `place`.
pub fn body_at(question: &[u8], place: usize) -> &[u8]
    ensures { (k : ℕ) → place ≡ field_place question.now k → BodyIs question.now k result.now }
{
    field_at(question, place)
}

// Whether a call may be opened: one is left to open, and its definition keeps within the limits of an accepted question.
fn may_open(calls: usize, definition: usize, arity: usize, size: usize) -> bool
    ensures { MayOpenIs calls definition arity size result }
{
    0 < calls && definition < MOST_DEFINITIONS && arity <= GREATEST_ARITY && size <= LONGEST_TERM
}

// A call: its definition and how many names it has, where it ends, and where the field of its body begins.
#[derive(Clone, Copy)]
pub struct Opening {
    pub definition: usize,
    pub arity: usize,
    pub end: usize,
    pub place: usize,
}

// The call at `at`, where so many calls may be opened one within the other: `Ok` if it may be opened, `Err` if not.
pub fn call_at(
    question: &[u8],
    bodies: &[u32],
    src: &[u8],
    at: usize,
    calls: usize,
) -> Result<Opening, Opening>
    requires { (at < length src.now) × BodiesTallied question.now bodies.now }
    ensures { CallIs question.now src.now at calls result }
{
    let k = get(src, at + 1) as usize;
    let n = get(arities_of(question), k) as usize;
    let place = place_of(question, bodies, k);
    let body = body_at(question, place);
    let call = Opening {
        definition: k,
        arity: n,
        end: at + 2 + n,
        place,
    };
    if !may_open(calls, k, n, body.len()) {
        return Err(call);
    }
    Ok(call)
}
