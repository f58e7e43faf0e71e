// Checks 3 to 12, in their order. What differs by edition is told whether calls are counted, as they are in edition two.
ghost use Rattle.std.specs.Prelude.{◌≡◌, length, drop, leb, eqb};
ghost use Rattle.terms.specs.Answer.{need};
ghost use Rattle.terms_checks.specs.Checking.{checked_answer, zero_for, fields_from, apart_place, fields_at, all_fit, joint_of, bodies_scanned, parts_scanned, terms_scanned};
ghost use Rattle.terms_bytes.specs.Counted.{edition_from};
ghost use Rattle.terms_bytes.specs.FieldPlaces.{after_field, field_at};
ghost use Rattle.terms.specs.Edition.{version_byte};
ghost use Rattle.terms.specs.Limits.{greatest_arity};
ghost use Rattle.terms.specs.Operations.{check_answer};
ghost use Rattle.terms.specs.Question.{every, fits, different_names, read_apart, check_terms, check_fields, check_in, edition_of};
ghost use Rattle.terms_scanning.specs.Scanning.{whole_answer};

use terms_bytes::answer::Refusal;
use terms_bytes::bytes::get;
use terms_bytes::frame::{after_field, arities, definitions, field_at, field_place};
use terms_bytes::limits::{
    GREATEST_ARITY, LONGEST_APART, LONGEST_QUESTION, LONGEST_TERM, MOST_DEFINITIONS, NAME_COUNT,
};
use terms_scanning::scan::{Control, passed, scan_whole};

// Check 5 of the arities.
fn arities_fit(list: &[u8]) -> bool
    ensures { result ≡ every (λ a. leb a greatest_arity) list.now }
{
    list.iter().all(|a| *a as usize <= GREATEST_ARITY)
}

// Check 6 of a body or part.
fn term_fits(bytes: &[u8]) -> bool
    ensures { result ≡ fits bytes.now }
{
    1 <= bytes.len() && bytes.len() <= LONGEST_TERM
}

// Check 6 of `count` bodies, the first of which begins at `from`.
fn bodies_fit(question: &[u8], from: usize, count: usize) -> bool
    ensures { result ≡ every fits (fields_from question.now from count) }
{
    let mut at = from;
    for i in 0..count {
        if !term_fits(field_at(question, at)) {
            return false;
        }
        at = after_field(question, at);
    }
    true
}

// The tests of checks 10 and 11 that two terms both pass.
fn joint(p: Control, q: Control) -> Control
    ensures { result ≡ joint_of p q }
{
    Control {
        sequential: p.sequential & q.sequential,
        outermost: p.outermost & q.outermost,
        guarded: p.guarded & q.guarded,
    }
}

// Checks 7 to 9 of the bodies from number `i` on, which begins at `at`.
fn scan_bodies(
    question: &[u8],
    list: &[u8],
    i: usize,
    at: usize,
    counted: bool,
) -> Result<Control, Refusal>
    ensures { bodies_scanned (edition_from counted) list.now (drop i list.now) (fields_from question.now at (length (drop i list.now))) ≡ whole_answer result }
{
    if list.len() <= i {
        return Ok(passed());
    }
    let parameters = get(list, i) as usize;
    let p = scan_whole(field_at(question, at), parameters, 0, list, counted)?;
    let q = scan_bodies(question, list, i + 1, after_field(question, at), counted)?;
    Ok(joint(p, q))
}

// Check 12 of one pair.
fn different_names(a: u8, b: u8) -> bool
    ensures { result ≡ different_names a b }
{
    (a as usize) < NAME_COUNT && (b as usize) < NAME_COUNT && a != b
}

// Check 12.
fn apart_allowed(list: &[u8]) -> bool
    ensures { zero_for (read_apart list.now) ≡ zero_for (need 12 result) }
{
    if LONGEST_APART < list.len() {
        return false;
    }
    let mut i = 0;
    while i < list.len() {
        if list.len() <= i + 1 {
            return false;
        }
        if !different_names(get(list, i), get(list, i + 1)) {
            return false;
        }
        i += 2;
    }
    true
}

// Checks 7 to 9 of both parts, the first of which begins at `first`.
fn scan_parts(question: &[u8], list: &[u8], first: usize, counted: bool) -> Result<Control, Refusal>
    ensures { parts_scanned (edition_from counted) list.now (field_at question.now first) (field_at question.now (after_field question.now first)) ≡ whole_answer result }
{
    let p = scan_whole(field_at(question, first), 0, NAME_COUNT, list, counted)?;
    let second = after_field(question, first);
    let q = scan_whole(field_at(question, second), 0, NAME_COUNT, list, counted)?;
    Ok(joint(p, q))
}

// Checks 7 to 9 of all terms: the bodies, then the parts.
fn scan_terms(question: &[u8], counted: bool) -> Result<Control, Refusal>
    ensures { terms_scanned (edition_from counted) (fields_at question.now) ≡ whole_answer result }
{
    let list = arities(question);
    let p = scan_bodies(question, list, 0, field_place(question, 0), counted)?;
    let first = field_place(question, definitions(question));
    let q = scan_parts(question, list, first, counted)?;
    Ok(Control {
        sequential: p.sequential,
        outermost: q.outermost,
        guarded: p.guarded,
    })
}

// The apart list.
fn apart_list(question: &[u8]) -> &[u8]
    ensures { result.now ≡ field_at question.now (apart_place question.now) }
{
    let first = field_place(question, definitions(question));
    let second = after_field(question, first);
    field_at(question, after_field(question, second))
}

// Checks 7 to 12.
fn check_terms(question: &[u8], counted: bool) -> Result<(), Refusal>
    ensures { zero_for (check_terms (edition_from counted) (fields_at question.now)) ≡ checked_answer result }
{
    let c = scan_terms(question, counted)?;
    let parallels = c.sequential & c.outermost;
    let guarded = c.guarded;
    if !parallels {
        return Err(Refusal::Parallel);
    }
    if !guarded {
        return Err(Refusal::Unguarded);
    }
    if !apart_allowed(apart_list(question)) {
        return Err(Refusal::ApartList);
    }
    Ok(())
}

// Check 6 of all bodies and of both parts.
pub fn terms_fit(question: &[u8]) -> bool
    ensures { result ≡ all_fit (fields_at question.now) }
{
    let list = arities(question);
    if !bodies_fit(question, field_place(question, 0), list.len()) {
        return false;
    }
    let first = field_place(question, definitions(question));
    if !term_fits(field_at(question, first)) {
        return false;
    }
    term_fits(field_at(question, after_field(question, first)))
}

// Checks 5 to 12.
fn check_fields(question: &[u8], counted: bool) -> Result<(), Refusal>
    ensures { zero_for (check_fields (edition_from counted) (fields_at question.now)) ≡ checked_answer result }
{
    let list = arities(question);
    if MOST_DEFINITIONS < list.len() {
        return Err(Refusal::Definitions);
    }
    if !arities_fit(list) {
        return Err(Refusal::Definitions);
    }
    if !terms_fit(question) {
        return Err(Refusal::TermLength);
    }
    check_terms(question, counted)
}

// Whether the fields are all there with nothing left over: check 4.
fn framed_whole(question: &[u8]) -> bool
    ensures { result ≡ eqb (after_field question.now (apart_place question.now)) (length question.now) }
{
    let first = field_place(question, definitions(question));
    let second = after_field(question, first);
    let apart = after_field(question, second);
    after_field(question, apart) == question.len()
}

// The version byte of edition two where calls are counted, else of edition one.
fn version_byte(counted: bool) -> u8
    ensures { result ≡ version_byte (edition_from counted) }
{
    if counted { 2 } else { 1 }
}

// Checks 3 to 12 of a question that must be of the one edition, over any bytes.
pub fn check_in(question: &[u8], counted: bool) -> Result<(), Refusal>
    ensures { zero_for (check_in (edition_from counted) question.now) ≡ checked_answer result }
{
    if question.len() == 0 {
        return Err(Refusal::Version);
    }
    if get(question, 0) != version_byte(counted) {
        return Err(Refusal::Version);
    }
    if LONGEST_QUESTION < question.len() {
        return Err(Refusal::Layout);
    }
    if !framed_whole(question) {
        return Err(Refusal::Layout);
    }
    check_fields(question, counted)
}

// Whether the question's first byte says edition two.
pub fn is_counted(question: &[u8]) -> bool
    ensures { edition_from result ≡ edition_of question.now }
{
    get(question, 0) == 2
}

// Checks 3 to 12 of a question in its own edition.
pub fn check(question: &[u8]) -> Result<(), Refusal>
    ensures { check_answer question.now ≡ checked_answer result }
{
    check_in(question, is_counted(question))
}
