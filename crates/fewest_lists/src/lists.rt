// Sets of pairs as one flag a pair, as lists of bytes, and as the apart list of a question.
ghost use Rattle.std.specs.Prelude.{◌≡◌, ◌+◌, ◌<◌, ◌≤◌, length};
ghost use Rattle.terms.specs.Limits.{longest_apart, longest_question};
ghost use Rattle.terms_bytes.specs.Writing.{IsAccepted};
ghost use Rattle.field_pairs.specs.PairFlags.{pair_count};
ghost use Rattle.fewest_lists.specs.Lists.{ApartFlagIs, ApartFlagsAre, OpenFlagIs, OpenFlagsAre, PairWritten, PairsWritten, QuestionWritten};

use crate::names::has_name;
use field_pairs::pairs::{PAIR_COUNT, pair_of};
use terms_bytes::bytes::copy;
use terms_bytes::frame::{after_field, definitions, field_place};
use terms_merging::merge::holds_apart;

// The flag of pair `k`: whether the list holds it apart.
fn apart_flag(list: &[u8], k: usize) -> u8
    requires { k < pair_count }
    ensures { ApartFlagIs list.now k result }
{
    let pair = pair_of(k);
    u8::from(holds_apart(list, pair.first as u8, pair.second as u8))
}

// The pairs of an apart list. By `array::from_fn`, here and in `open_flags`, what is known of the turns before did not close.
pub fn apart_flags(list: &[u8]) -> [u8; PAIR_COUNT]
    ensures { ApartFlagsAre list.now result }
{
    let mut flags = [0u8; PAIR_COUNT];
    for k in 0..PAIR_COUNT {
        flags[k] = apart_flag(list, k);
    }
    flags
}

// The flag of pair `k`: whether it may be chosen, where `apart` says which are apart already.
fn open_flag(names: &[u8], apart: &[u8], k: usize) -> u8
    requires { (k < pair_count) × (length apart.now ≡ pair_count) }
    ensures { OpenFlagIs names.now apart.now k result }
{
    if apart[k] != 0 {
        return 0;
    }
    let pair = pair_of(k);
    if !has_name(names, 0, pair.first as u8) {
        return 0;
    }
    if !has_name(names, 0, pair.second as u8) {
        return 0;
    }
    1
}

// The pairs that may be chosen.
pub fn open_flags(names: &[u8], apart: &[u8]) -> [u8; PAIR_COUNT]
    requires { length apart.now ≡ pair_count }
    ensures { OpenFlagsAre names.now apart.now result }
{
    let mut flags = [0u8; PAIR_COUNT];
    for k in 0..PAIR_COUNT {
        flags[k] = open_flag(names, apart, k);
    }
    flags
}

// Writes pair `k` at `end` if its flag is set. Answers where the list ends then.
fn write_pair(flags: &[u8], k: usize, out: &mut [u8], end: usize) -> usize
    requires { (k < pair_count) × (length flags.now ≡ pair_count) × (end + 2 ≤ length out.old) }
    ensures { PairWritten flags.now k out.old end result out.new }
{
    if flags[k] == 0 {
        return end;
    }
    let pair = pair_of(k);
    out[end] = pair.first as u8;
    out[end + 1] = pair.second as u8;
    end + 2
}

// Writes the pairs whose flags are set, in ascending order. Answers where the list ends.
pub fn write_pairs(flags: &[u8], out: &mut [u8], put: usize) -> usize
    requires { (length flags.now ≡ pair_count) × (put + longest_apart ≤ length out.old) }
    ensures { PairsWritten flags.now out.old put result out.new }
{
    let mut end = put;
    for k in 0..PAIR_COUNT {
        end = write_pair(flags, k, out, end);
    }
    end
}

// Writes the accepted question with those pairs for its apart list. Answers its length.
pub fn write_question(question: &[u8], flags: &[u8], out: &mut [u8]) -> usize
    requires { IsAccepted question.now × (length flags.now ≡ pair_count) × (longest_question ≤ length out.old) }
    ensures { QuestionWritten question.now flags.now out.old result out.new }
{
    let first = field_place(question, definitions(question));
    let second = after_field(question, first);
    let apart = after_field(question, second);
    copy(question, 0, apart, out, 0);
    let end = write_pairs(flags, out, apart + 2);
    let size = end - apart - 2;
    out[apart] = (size / 256) as u8;
    out[apart + 1] = (size % 256) as u8;
    end
}
