// The component of a term that makes a visible candidate: parallels and restrictions stand above it alone.
ghost use Rattle.std.specs.Prelude.{◌≤◌, length};
ghost use Rattle.terms.specs.Limits.{longest_term};
ghost use Rattle.steps_tallies.specs.Tally.{EndsInside};
ghost use Rattle.steps_splicing.specs.Locating.{LocateIs};

use steps_passing::pass::middle_of;
use steps_tallies::tally::visible_at;
use terms_bytes::tags::{PARALLEL, RESTRICTION};

// A component, the restrictions around it, and the number of a candidate among its own.
#[derive(Clone, Copy)]
pub struct Located {
    pub at: usize,
    pub depth: usize,
    pub number: usize,
}

// The component of the term at `at` that has the term's visible candidate number `i`. The tally says on which side it stands.
pub fn locate(src: &[u8], tally: &[u32], at: usize, depth: usize, i: usize) -> Located
    requires { (depth ≤ at) × (at ≤ length src.now) × (length src.now ≤ longest_term) × EndsInside src.now tally.now }
    ensures { LocateIs src.now tally.now at depth i result }
{
    let mut a = at;
    let mut d = depth;
    let mut n = i;
    // Each turn goes on at a place that the term's own bytes and the tally say, so no range or iterator walks it.
    while a < src.len() {
        match src[a] {
            RESTRICTION => {
                a += 1;
                d += 1;
            }
            PARALLEL => {
                let left = visible_at(tally, a + 1);
                if n < left {
                    a += 1;
                } else {
                    n -= left;
                    a = middle_of(src, tally, a);
                }
            }
            _ => break,
        }
    }
    Located {
        at: a,
        depth: d,
        number: n,
    }
}
