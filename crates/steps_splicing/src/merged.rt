// The names that a condition merges, merged where a result stands.
ghost use Rattle.std.specs.Prelude.{◌≡◌};
ghost use Rattle.steps_splicing.specs.Merging.{merged_byte, MergedIs};

use terms_bytes::bytes::get;
use terms_bytes::shape::shape_at;

// A name's byte: a free name becomes its class, a bound one stays.
fn merged_byte(b: u8, class: &[u8]) -> u8
    ensures { result ≡ merged_byte class.now b }
{
    if b < 128 { get(class, b as usize) } else { b }
}

// Merges the names of the term that the first `n` bytes are. Classes have free names alone, which have the same bytes beneath any binders: so the
// bytes are passed from front to front, however deep.
pub fn merge_names(bytes: &mut [u8], n: usize, arities: &[u8], class: &[u8])
    ensures { MergedIs bytes.old n arities.now class.now bytes.new }
{
    if bytes.len() < n {
        return;
    }
    let mut at = 0;
    // the names of a front that are still to be passed
    let mut names = 0;
    // A front's length says where the next begins, so no range or iterator walks them.
    while at < n {
        if names == 0 {
            let h = shape_at(bytes, at, arities);
            names = h.names;
            at += h.fixed;
        } else {
            let b = merged_byte(bytes[at], class);
            bytes[at] = b;
            names -= 1;
            at += 1;
        }
    }
}
