// The key of the start: the two parts of an accepted question under its apart list, which plays no part where all names differ.
ghost use Rattle.std.specs.Prelude.{◌≡◌, ◌+◌, ◌≤◌, length};
ghost use Rattle.field_successors.specs.Leading.{StartIs};
ghost use Rattle.field_pairs.specs.PairFlags.{pair_count};
ghost use Rattle.field_successors.specs.Starting.{PutsPart, MarksList, StartPairs};

use crate::results::complete;
use field_pairs::pairs::{PAIR_COUNT, mark_pair};
use field_slots::slot::{KEY_BYTES, PART_BYTES};
use terms_bytes::bytes::{copy, get};
use terms_bytes::frame::{after_field, arities, definitions, field_at, field_place};
use terms_bytes::limits::LONGEST_TERM;
use terms_tidying::tidy::tidy;

// Writes a part at `put`, tidied (request 2026-04), its length first.
fn put_part(part: &[u8], list: &[u8], key: &mut [u8], put: usize)
    requires { put + 113 ≤ length key.old }
    ensures { PutsPart part.now list.now key.old put key.new }
{
    let mut tidied = [0u8; LONGEST_TERM];
    let ends = tidy(part, 0, list, &mut tidied, 0);
    let n = ends.written;
    key[put] = n as u8;
    copy(&tidied, 0, n, key, put + 1);
}

// Holds the names of each pair of an apart list apart, from the last pair on. A range of pairs would be no plainer: a byte too many comes first.
fn mark_list(list: &[u8], flags: &mut [u8])
    requires { length flags.old ≡ pair_count }
    ensures { MarksList list.now flags.old flags.new }
{
    let mut i = list.len();
    while 1 < i {
        i -= 2;
        let a = get(list, i) as usize;
        let b = get(list, i + 1) as usize;
        mark_pair(flags, a, b);
    }
}

// The pairs of an apart list, or none where all names differ (request 2026-02).
fn start_pairs(list: &[u8], differ: bool) -> [u8; PAIR_COUNT]
    ensures { StartPairs list.now differ result }
{
    let mut apart = [0u8; PAIR_COUNT];
    if differ {
        return apart;
    }
    mark_list(list, &mut apart);
    apart
}

// The key of the start of an accepted question; `differ`: all names differ.
pub fn start_key(question: &[u8], differ: bool) -> [u8; KEY_BYTES]
    ensures { StartIs question.now differ result }
{
    let first = field_place(question, definitions(question));
    let second = after_field(question, first);
    let called = arities(question);
    let mut key = [0u8; KEY_BYTES];
    put_part(field_at(question, first), called, &mut key, 0);
    put_part(field_at(question, second), called, &mut key, PART_BYTES);
    let list = field_at(question, after_field(question, second));
    let apart = start_pairs(list, differ);
    complete(&mut key, called, &apart);
    key
}
