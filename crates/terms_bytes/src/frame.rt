// The fields of a question: their places, and each as a piece of the caller's slice. Every function is total: the question may be any bytes.
ghost use Rattle.std.specs.Prelude.{◌≡◌, ◌<◌};
ghost use Rattle.terms_bytes.specs.FieldPlaces.{definitions_of, arities_of, size_at, after_field, field_at, field_place};

use crate::bytes::get;

// The number of definitions.
pub fn definitions(question: &[u8]) -> usize
    ensures { (result ≡ definitions_of question.now) × (result < 256) }
{
    get(question, 1) as usize
}

// The arities; none where the question ends before the last.
pub fn arities(question: &[u8]) -> &[u8]
    ensures { result.now ≡ arities_of question.now }
{
    let end = 2 + definitions(question);
    if end <= question.len() {
        return &question[2..end];
    }
    &question[0..0]
}

// The two-byte length that stands at `at`.
pub fn size_at(question: &[u8], at: usize) -> usize
    ensures { (result ≡ size_at question.now at) × (result < 65536) }
{
    if question.len() <= at {
        return 0;
    }
    let high = get(question, at) as usize;
    let low = get(question, at + 1) as usize;
    256 * high + low
}

// Where the field that begins at `at` ends; one past the end of the question where the field runs past it.
pub fn after_field(question: &[u8], at: usize) -> usize
    ensures { result ≡ after_field question.now at }
{
    let n = question.len();
    if n < at {
        return n + 1;
    }
    let size = size_at(question, at) + 2;
    if size <= n - at {
        return at + size;
    }
    n + 1
}

// Where field `k` begins.
pub fn field_place(question: &[u8], k: usize) -> usize
    ensures { result ≡ field_place question.now k }
{
    let mut at = 2 + definitions(question);
    for i in 0..k {
        at = after_field(question, at);
    }
    at
}

// The field that begins at `at`: a body, a part or the apart list, as a piece of the question. Nothing where it runs past the end.
pub fn field_at(question: &[u8], at: usize) -> &[u8]
    ensures { result.now ≡ field_at question.now at }
{
    let end = after_field(question, at);
    if question.len() < end {
        return &question[0..0];
    }
    let from = at + 2;
    &question[from..end]
}
