// What stands beside the component of a parallel that steps alone.
ghost use Rattle.std.specs.Prelude.{◌≤◌, ◌<◌, length};
ghost use Rattle.terms.specs.Limits.{longest_term};
ghost use Rattle.steps_plans.specs.Beside.{FoundBeside, BehindIs};
ghost use Rattle.steps_tallies.specs.Tally.{EndsInside};

use steps_passing::pass::{Branch, middle_of};
use steps_tallies::tally::{end_at, number_at};
use terms_bytes::bytes::{copy, room};
use terms_bytes::tags::PARALLEL;

// From the parallel at `at` down to the component that has its candidate of this number, or to the parallel whose sides communicate.
pub fn component_of(src: &[u8], tally: &[u32], at: usize, silently: bool, number: usize) -> Branch
    requires { (at ≤ length src.now) × (length src.now ≤ longest_term) × EndsInside src.now tally.now }
    ensures { (result.at ≤ length src.now) × FoundBeside src.now tally.now at silently number result.at result.number }
{
    let mut b = at;
    let mut n = number;
    // no range: where the walk goes on is computed each turn
    while b < src.len() {
        if src[b] != PARALLEL {
            return Branch { at: b, number: n };
        }
        let left = number_at(tally, b + 1, silently);
        if n < left {
            b += 1;
        } else {
            let i = n - left;
            let middle = middle_of(src, tally, b);
            if number_at(tally, middle, silently) <= i {
                return Branch { at: b, number: n };
            }
            n = i;
            b = middle;
        }
    }
    Branch { at: b, number: n }
}

// Copies what stands in the term at `at` behind the one at `inner` to `put`, unless there was no room before. The answer is where its bytes end, or
// past the end of `out` where there is no room.
pub fn copy_behind(
    src: &[u8],
    tally: &[u32],
    at: usize,
    inner: usize,
    out: &mut [u8],
    put: usize,
) -> usize
    requires { (at < length src.now) × (length src.now ≤ longest_term) × EndsInside src.now tally.now }
    ensures { BehindIs src.now tally.now at inner out.old put result out.new }
{
    if out.len() < put {
        return put;
    }
    let from = end_at(tally, inner);
    let end = end_at(tally, at);
    if end < from {
        return out.len() + 1;
    }
    let n = end - from;
    if !room(out.len(), put, n) {
        return out.len() + 1;
    }
    copy(src, from, n, out, put);
    put + n
}
