// The bytes of a term without the restrictions that bind nothing.
ghost use Rattle.std.specs.Prelude.{◌≤◌, length};
ghost use Rattle.terms_tidying.specs.Tidying.{CopiedFrontIs, TidiedIs, TidiedBeneathIs};

use terms_bytes::bytes::{copy, room};
use terms_bytes::limits::TABLE_NAMES;
use terms_bytes::shape::{Front, shape_at};
use terms_renaming::rename::rename;
use terms_restrictions::unused::binds_nothing;

// The bytes of a result before it is tidied are fewer than this: 112, less two calls of 2 bytes, plus two results of 111 and one restriction.
pub const LONGEST_RAW: usize = 336;

// What a name beneath a restriction that binds nothing is outside of it: the free names, the restriction's own, and the binders outward.
const OUTSIDE: [u8; TABLE_NAMES + 129] = [
    0, 1, 2, 3, 4, 5, 6, 7, 8, 9, 10, 11, 12, 13, 14, 15, 16, 0, 128, 129, 130, 131, 132, 133, 134,
    135, 136, 137, 138, 139, 140, 141, 142, 143, 144, 145, 146, 147, 148, 149, 150, 151, 152, 153,
    154, 155, 156, 157, 158, 159, 160, 161, 162, 163, 164, 165, 166, 167, 168, 169, 170, 171, 172,
    173, 174, 175, 176, 177, 178, 179, 180, 181, 182, 183, 184, 185, 186, 187, 188, 189, 190, 191,
    192, 193, 194, 195, 196, 197, 198, 199, 200, 201, 202, 203, 204, 205, 206, 207, 208, 209, 210,
    211, 212, 213, 214, 215, 216, 217, 218, 219, 220, 221, 222, 223, 224, 225, 226, 227, 228, 229,
    230, 231, 232, 233, 234, 235, 236, 237, 238, 239, 240, 241, 242, 243, 244, 245, 246, 247, 248,
    249, 250, 251, 252, 253, 254, 255,
];

// Where the term ends that was read, and where the bytes end that were written.
#[derive(Clone, Copy)]
pub struct Ends {
    pub read: usize,
    pub written: usize,
}

// Copies the front of the term at `at` to `put`; none where it is not all there, or doesn't fit.
fn copy_front(src: &[u8], at: usize, arities: &[u8], out: &mut [u8], put: usize) -> Option<Front>
    ensures { CopiedFrontIs src.now at arities.now out.old put result out.new }
{
    if src.len() <= at {
        return None;
    }
    let h = shape_at(src, at, arities);
    let fixed = h.fixed;
    let names = h.names;
    let n = fixed + names;
    if !room(src.len(), at, n) {
        return None;
    }
    if !room(out.len(), put, n) {
        return None;
    }
    copy(src, at, n, out, put);
    Some(Front {
        len: n,
        binds: h.binds,
        subterms: h.subterms,
    })
}

// The term at `at`, which stands beneath a restriction that binds nothing, tidied outside of it.
#[cycle(tidy_tidy_unrestricted)]
fn tidy_unrestricted(src: &[u8], at: usize, arities: &[u8], out: &mut [u8], put: usize) -> Ends
    requires { (at ≤ length src.now) × (put ≤ length out.old) }
    ensures { TidiedBeneathIs src.now at arities.now out.old put result out.new }
{
    let mut lowered = [0u8; LONGEST_RAW];
    let n = rename(src, at, arities, &OUTSIDE, &mut lowered, 0);
    if !room(src.len(), at, n) {
        return Ends {
            read: at,
            written: put,
        };
    }
    if LONGEST_RAW < n {
        return Ends {
            read: at,
            written: put,
        };
    }
    let e = tidy(&lowered[..n], 0, arities, out, put);
    Ends {
        read: at + n,
        written: e.written,
    }
}

// Copies the term at `at` to `put`, tidied.
#[cycle(tidy_tidy_unrestricted)]
pub fn tidy(src: &[u8], at: usize, arities: &[u8], out: &mut [u8], put: usize) -> Ends
    requires { (at ≤ length src.now) × (put ≤ length out.old) }
    ensures { TidiedIs src.now at arities.now out.old put result out.new }
{
    if binds_nothing(src, at, arities) {
        return tidy_unrestricted(src, at + 1, arities, out, put);
    }
    let Some(h) = copy_front(src, at, arities, out, put) else {
        return Ends {
            read: at,
            written: put,
        };
    };
    let n = h.len;
    let subterms = h.subterms;
    if subterms == 0 {
        return Ends {
            read: at + n,
            written: put + n,
        };
    }
    let first = tidy(src, at + n, arities, out, put + n);
    if subterms == 1 {
        return first;
    }
    let read = first.read;
    let written = first.written;
    tidy(src, read, arities, out, written)
}
