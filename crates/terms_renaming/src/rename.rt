// The one renaming routine: a term's bytes, renamed by a table of name bytes. Nothing is captured.
ghost use Rattle.std.specs.Prelude.{◌≡◌, map, ◌+◌, ◌≤◌, length, take, drop};
ghost use Rattle.std.proofs.lemmas.List.Edits.{sets};
ghost use Rattle.terms_bytes.specs.NameTable.{beneath, renamed_byte};
ghost use Rattle.terms_renaming.specs.Renaming.{RenameIs, RenamedFrontIs, RenamedBeneathIs};

use terms_bytes::bytes::{get, room};
use terms_bytes::limits::TABLE_NAMES;
use terms_bytes::shape::{Front, shape_at};

// A byte of the table beneath `inner` binders more.
fn byte_beneath(b: u8, inner: usize) -> u8
    ensures { result ≡ beneath inner b }
{
    if b < 128 {
        return b;
    }
    if inner >= 256 {
        return 0;
    }
    let w = b as usize + inner;
    if w < 256 { w as u8 } else { 0 }
}

// The name byte `b`, which stands beneath `inner` binders of the term, renamed.
fn renamed_byte(b: u8, inner: usize, table: &[u8]) -> u8
    ensures { result ≡ renamed_byte inner table.now b }
{
    let w = b as usize;
    if w < 128 {
        return byte_beneath(get(table, w), inner);
    }
    let j = w - 128;
    if j < inner {
        return b;
    }
    byte_beneath(get(table, TABLE_NAMES + (j - inner)), inner)
}

// Renames `n` name bytes.
pub fn rename_bytes(
    src: &[u8],
    at: usize,
    n: usize,
    inner: usize,
    table: &[u8],
    out: &mut [u8],
    put: usize,
)
    requires { (at + n ≤ length src.now) × (put + n ≤ length out.old) }
    ensures { out.new ≡ sets out.old put (map (renamed_byte inner table.now) (take n (drop at src.now))) }
{
    for i in 0..n {
        let b = renamed_byte(src[at + i], inner, table);
        out[put + i] = b;
    }
}

// Copies the one or two bytes before a front's names: for so few the library's copy takes longer than a loop.
fn copy_few(src: &[u8], at: usize, n: usize, out: &mut [u8], put: usize)
    requires { (at + n ≤ length src.now) × (put + n ≤ length out.old) }
    ensures { out.new ≡ sets out.old put (take n (drop at src.now)) }
{
    for i in 0..n {
        out[put + i] = src[at + i];
    }
}

// Copies the front of the term at `at` to `put`, its names renamed; none where it is not all there, or doesn't fit.
fn rename_front(
    src: &[u8],
    at: usize,
    arities: &[u8],
    inner: usize,
    table: &[u8],
    out: &mut [u8],
    put: usize,
) -> Option<Front>
    ensures { RenamedFrontIs src.now at arities.now inner table.now out.old put result out.new }
{
    if src.len() <= at {
        return None;
    }
    let h = shape_at(src, at, arities);
    let fixed = h.fixed;
    let names = h.names;
    let n = fixed + names;
    if !room(src.len(), at, n) {
        return None;
    }
    if !room(out.len(), put, n) {
        return None;
    }
    copy_few(src, at, fixed, out, put);
    rename_bytes(src, at + fixed, names, inner, table, out, put + fixed);
    Some(Front {
        len: n,
        binds: h.binds,
        subterms: h.subterms,
    })
}

// Copies the subterm at `at`, which stands beneath `inner` binders of the term, to `put`, renamed; answers where it ends.
fn rename_beneath(
    src: &[u8],
    at: usize,
    arities: &[u8],
    inner: usize,
    table: &[u8],
    out: &mut [u8],
    put: usize,
) -> usize
    requires { inner ≤ at }
    ensures { RenamedBeneathIs src.now at arities.now inner table.now out.old put result out.new }
{
    let Some(h) = rename_front(src, at, arities, inner, table, out, put) else {
        return at;
    };
    let n = h.len;
    let subterms = h.subterms;
    if subterms == 0 {
        return at + n;
    }
    let deeper = inner + h.binds;
    let e = rename_beneath(src, at + n, arities, deeper, table, out, put + n);
    if subterms == 1 {
        return e;
    }
    rename_beneath(src, e, arities, deeper, table, out, put + (e - at))
}

// Copies the term at `at` to `put`, renamed by the table; answers its length.
pub fn rename(
    src: &[u8],
    at: usize,
    arities: &[u8],
    table: &[u8],
    out: &mut [u8],
    put: usize,
) -> usize
    ensures { RenameIs src.now at arities.now table.now out.old put result out.new }
{
    let e = rename_beneath(src, at, arities, 0, table, out, put);
    e - at
}
