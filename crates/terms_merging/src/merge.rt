// Merging two names of a question: document 01, the last paragraph of "Steps".
ghost use Rattle.std.specs.Prelude.{◌≡◌, ◌&&◌, ◌||◌, length, eqb};
ghost use Rattle.calculus.specs.Cond.{Pairs};
ghost use Rattle.terms.specs.Operations.{holds_apart, merge_of};
ghost use Rattle.terms.specs.Question.{pair_bytes};
ghost use Rattle.terms_bytes.specs.Writing.{IsAccepted, Does, MayMerge, WritesMerged};
ghost use Rattle.terms_merging.specs.Counted.{MayMergeCounted, WritesMergedCounted};

use terms_bytes::answer::Refusal;
use terms_bytes::bytes::{copy, get};
use terms_bytes::frame::{after_field, arities, definitions, field_at, field_place, size_at};
use terms_bytes::limits::{LONGEST_QUESTION, NAME_COUNT};
use terms_checks::check::{check, is_counted};
use terms_converting::question::convert_question;
use terms_renaming::rename::{rename, rename_bytes};
use terms_renaming::tables::merging;

// Whether x and y are a and b, in either order.
fn same_pair(x: u8, y: u8, a: u8, b: u8) -> bool
    ensures { result ≡ ((eqb x a && eqb y b) || (eqb x b && eqb y a)) }
{
    (x == a && y == b) || (x == b && y == a)
}

// Whether the apart list holds a and b apart.
pub fn holds_apart(list: &[u8], a: u8, b: u8) -> bool
    ensures { (D : Pairs) → list.now ≡ pair_bytes D → result ≡ holds_apart D a b }
{
    let mut i = 0;
    while i < list.len() {
        if same_pair(get(list, i), get(list, i + 1), a, b) {
            return true;
        }
        if list.len() - i < 2 {
            return false;
        }
        i += 2;
    }
    false
}

// Copies the accepted question, its parts and its apart list renamed; the bodies have no free names. Answers its length.
fn write_merged(question: &[u8], a: u8, b: u8, area: &mut [u8]) -> usize
    requires { MayMerge question.now a b area.old }
    ensures { WritesMerged question.now a b area.old result area.new }
{
    let table = merging(a, b);
    let parameters = arities(question);
    let first = field_place(question, definitions(question));
    let second = after_field(question, first);
    let apart = after_field(question, second);
    let pairs = size_at(question, apart);
    copy(question, 0, question.len(), area, 0);
    rename(question, first + 2, parameters, &table, area, first + 2);
    rename(question, second + 2, parameters, &table, area, second + 2);
    rename_bytes(question, apart + 2, pairs, 0, &table, area, apart + 2);
    question.len()
}

// The same of edition two: its edition-one form is merged, and written in edition two again.
fn write_merged_counted(question: &[u8], a: u8, b: u8, area: &mut [u8]) -> usize
    requires { MayMergeCounted question.now a b area.old }
    ensures { WritesMergedCounted question.now a b area.old result area.new }
{
    let mut plain = [0u8; LONGEST_QUESTION];
    let n = convert_question(question, true, &mut plain);
    let mut merged = [0u8; LONGEST_QUESTION];
    let m = write_merged(&plain[..n], a, b, &mut merged);
    convert_question(&merged[..m], false, area)
}

// Checks 14 and 15 of an accepted question, then the merged question.
fn merge_accepted(question: &[u8], a: u64, b: u64, area: &mut [u8]) -> Result<usize, Refusal>
    requires { IsAccepted question.now }
    ensures { Does (merge_of question.now a b (length area.old)) area.old result area.new }
{
    if NAME_COUNT as u64 <= a {
        return Err(Refusal::MergedNames);
    }
    if NAME_COUNT as u64 <= b {
        return Err(Refusal::MergedNames);
    }
    let first = field_place(question, definitions(question));
    let second = after_field(question, first);
    let pairs = field_at(question, after_field(question, second));
    if holds_apart(pairs, a as u8, b as u8) {
        return Err(Refusal::MergedNames);
    }
    if area.len() < question.len() {
        return Err(Refusal::ResultArea);
    }
    if is_counted(question) {
        return Ok(write_merged_counted(question, a as u8, b as u8, area));
    }
    Ok(write_merged(question, a as u8, b as u8, area))
}

// Merges the names `a` and `b` of the question into the area.
pub fn merge(question: &[u8], a: u64, b: u64, area: &mut [u8]) -> Result<usize, Refusal>
    ensures { Does (merge_of question.now a b (length area.old)) area.old result area.new }
{
    check(question)?;
    merge_accepted(question, a, b, area)
}
