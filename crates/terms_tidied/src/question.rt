// The question with tidied bodies, under which the lister and the judge go on: document 02, request 2026-04.
ghost use Rattle.std.specs.Prelude.{true, ◌≡◌};
ghost use Rattle.terms_tidied.specs.TidiedBodies.{HasTidied, HasBody, TidiesBody, MayTidyBodies, TidiesBodies, WritesTidied};

use terms_bytes::bytes::{copy, put_size};
use terms_bytes::frame::{after_field, arities, definitions, field_at, field_place};
use terms_tidying::tidied::is_tidied;
use terms_tidying::tidy::{Ends, tidy};

// Whether the bodies of an accepted question are tidied as they are; most are.
pub fn has_tidied_bodies(question: &[u8]) -> bool
    ensures { result ≡ true → HasTidied question.now }
{
    let list = arities(question);
    let last = definitions(question);
    let mut at = field_place(question, 0);
    for definition in 0..last {
        if !is_tidied(field_at(question, at), list) {
            return false;
        }
        at = after_field(question, at);
    }
    true
}

// Writes the body that is the field at `at`, tidied, as a field at `put`; answers where it ends.
fn tidy_body(question: &[u8], at: usize, list: &[u8], out: &mut [u8], put: usize) -> usize
    requires { HasBody question.now at list.now out.old put }
    ensures { TidiesBody question.now at list.now out.old put result out.new }
{
    let e = tidy(field_at(question, at), 0, list, out, put + 2);
    let end = e.written;
    let n = end - (put + 2);
    put_size(out, put, n);
    end
}

// Writes all bodies tidied, from where the first begins; answers where they end in the question and in what is written.
fn tidy_all(question: &[u8], out: &mut [u8]) -> Ends
    requires { MayTidyBodies question.now out.old }
    ensures { TidiesBodies question.now out.old result out.new }
{
    let list = arities(question);
    let last = definitions(question);
    let mut at = field_place(question, 0);
    let mut put = at;
    for k in 0..last {
        put = tidy_body(question, at, list, out, put);
        at = after_field(question, at);
    }
    Ends {
        read: at,
        written: put,
    }
}

// Writes an accepted question of edition one with its bodies tidied: all else stays as it is. Answers its length.
pub fn tidy_bodies(question: &[u8], out: &mut [u8]) -> usize
    requires { MayTidyBodies question.now out.old }
    ensures { WritesTidied question.now out.old result out.new }
{
    let bodies = field_place(question, 0);
    copy(question, 0, bodies, out, 0);
    let e = tidy_all(question, out);
    let read = e.read;
    let written = e.written;
    let rest = question.len() - read;
    copy(question, read, rest, out, written);
    written + rest
}
