// Whether a term has a restriction or an output of a new name.
ghost use Rattle.terms_restrictions.specs.Restrictions.{HasRestrictionIs};

use terms_bytes::shape::shape_at;
use terms_bytes::tags::{NEW_OUTPUT, RESTRICTION};

// Whether the term that `src` is has one, at whatever depth. A term's bytes are fronts, one behind the other, so that no way down is kept.
pub fn has_restriction(src: &[u8], arities: &[u8]) -> bool
    ensures { HasRestrictionIs src.now arities.now result }
{
    let mut at = 0;
    // The step is the front's length, so no range or iterator takes it.
    while at < src.len() {
        let t = src[at];
        if t == RESTRICTION {
            return true;
        }
        if t == NEW_OUTPUT {
            return true;
        }
        let h = shape_at(src, at, arities);
        let n = h.fixed + h.names;
        if src.len() - at < n {
            return false;
        }
        at += n;
    }
    false
}
