// A question in the other edition, and the converters: document 02, request 2026-05.
ghost use Rattle.std.specs.Prelude.{◌≡◌, ◌++◌, length};
ghost use Rattle.terms.specs.Edition.{other, version_byte};
ghost use Rattle.terms.specs.Operations.{convert_of};
ghost use Rattle.terms_bytes.specs.Counted.{edition_from};
ghost use Rattle.terms_bytes.specs.Writing.{Does};
ghost use Rattle.terms_converting.specs.Questions.{AcceptedFrom, MayConvertField, ConvertsField, MayConvert, ConvertsTerms, ConvertsQuestion, WritesFitting};

use crate::term::convert_term;
use terms_bytes::answer::Refusal;
use terms_bytes::bytes::{copy, put_size};
use terms_bytes::frame::{after_field, arities, definitions, field_at, field_place};
use terms_bytes::limits::LONGEST_QUESTION;
use terms_checks::check::{check_in, terms_fit};

// Writes the body or part that is the field at `at` in the other edition, as a field at `put`; answers where it ends.
fn convert_field(
    question: &[u8],
    at: usize,
    list: &[u8],
    counted: bool,
    out: &mut [u8],
    put: usize,
) -> usize
    requires { MayConvertField question.now at list.now counted out.old put }
    ensures { ConvertsField question.now at list.now counted out.old put result out.new }
{
    let end = convert_term(field_at(question, at), list, counted, out, put + 2);
    let n = end - (put + 2);
    put_size(out, put, n);
    end
}

// Writes all bodies and both parts in the other edition, from where the first body begins; answers where they end.
fn convert_terms(question: &[u8], counted: bool, out: &mut [u8]) -> usize
    requires { MayConvert question.now counted out.old }
    ensures { ConvertsTerms question.now counted out.old result out.new }
{
    let list = arities(question);
    let last = definitions(question) + 2;
    let mut at = field_place(question, 0);
    let mut put = at;
    for k in 0..last {
        put = convert_field(question, at, list, counted, out, put);
        at = after_field(question, at);
    }
    put
}

// The version byte of the edition that is written.
fn other_version(counted: bool) -> u8
    ensures { result ≡ version_byte (other (edition_from counted)) }
{
    if counted { 1 } else { 2 }
}

// Writes an accepted question in the other edition: the version, the count and the arities, the terms, the apart list. Answers its length.
pub fn convert_question(question: &[u8], counted: bool, out: &mut [u8]) -> usize
    requires { MayConvert question.now counted out.old }
    ensures { ConvertsQuestion question.now counted out.old result out.new }
{
    let bodies = field_place(question, 0);
    out[0] = other_version(counted);
    copy(question, 1, bodies - 1, out, 1);
    let put = convert_terms(question, counted, out);
    let apart = field_place(question, definitions(question) + 2);
    let rest = question.len() - apart;
    copy(question, apart, rest, out, put);
    put + rest
}

// Checks 17 and 15 of a converted question, then its bytes.
fn write_fitting(converted: &[u8], area: &mut [u8]) -> Result<usize, Refusal>
    ensures { WritesFitting converted.now area.old result area.new }
{
    if !terms_fit(converted) {
        return Err(Refusal::ConvertedLength);
    }
    let n = converted.len();
    if area.len() < n {
        return Err(Refusal::ResultArea);
    }
    copy(converted, 0, n, area, 0);
    Ok(n)
}

// The other edition of an accepted question: made aside, so that a refusal leaves the area as it was.
fn convert_accepted(question: &[u8], counted: bool, area: &mut [u8]) -> Result<usize, Refusal>
    requires { AcceptedFrom question.now counted }
    ensures { Does (convert_of (other (edition_from counted)) question.now (length area.old)) area.old result area.new }
{
    let mut converted = [0u8; LONGEST_QUESTION];
    let n = convert_question(question, counted, &mut converted);
    write_fitting(&converted[..n], area)
}

// Writes the question in the other edition into the area: down to edition one where its calls are counted, else up to edition two.
pub fn convert(question: &[u8], counted: bool, area: &mut [u8]) -> Result<usize, Refusal>
    ensures { Does (convert_of (other (edition_from counted)) question.now (length area.old)) area.old result area.new }
{
    check_in(question, counted)?;
    convert_accepted(question, counted, area)
}
