// What a search knows: the pairs of the first list that gave "same".
ghost use Rattle.std.specs.Prelude.{◌<◌, ◌≤◌, length};
ghost use Rattle.terms.specs.Limits.{longest_apart};
ghost use Rattle.fewest_lists.specs.Bests.{SameIs, WithPair, Tells};

use crate::lists::write_pairs;
use field_pairs::pairs::{PAIR_COUNT, mark_pair};
use terms_bytes::bytes::get;

// Some list was unsettled: no other is judged then.
#[derive(Clone, Copy, Debug, PartialEq, Eq)]
pub struct Undecided;

// What the search found: the length of the list written.
#[derive(Clone, Copy, Debug, PartialEq, Eq)]
pub enum Choice {
    Unsettled,
    NoChoice,
    Length(usize),
}

// After a list that gives "same": the first one stays.
pub fn with_same(
    best: Option<[u8; PAIR_COUNT]>,
    flags: [u8; PAIR_COUNT],
) -> Option<[u8; PAIR_COUNT]>
    ensures { SameIs best flags result }
{
    best.or(Some(flags))
}

// The pairs with the one that stands at `at`.
pub fn with_pair(flags: [u8; PAIR_COUNT], pairs: &[u8], at: usize) -> [u8; PAIR_COUNT]
    requires { at < length pairs.now }
    ensures { WithPair flags pairs.now at result }
{
    let mut more = flags;
    mark_pair(
        &mut more,
        get(pairs, at) as usize,
        get(pairs, at + 1) as usize,
    );
    more
}

// Writes the list that was found.
pub fn tell(best: Result<Option<[u8; PAIR_COUNT]>, Undecided>, area: &mut [u8]) -> Choice
    requires { longest_apart ≤ length area.old }
    ensures { Tells best area.old result area.new }
{
    let Ok(found) = best else {
        return Choice::Unsettled;
    };
    match found {
        None => Choice::NoChoice,
        Some(flags) => Choice::Length(write_pairs(&flags, area, 0)),
    }
}
