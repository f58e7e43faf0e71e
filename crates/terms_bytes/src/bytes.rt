// Reading and copying bytes at positions, safe at any position.
ghost use Rattle.std.specs.Prelude.{◌≡◌, ◌+◌, ◌/◌, ◌%◌, ◌<◌, ◌≤◌, length, get_or, take, drop, set, leb};
ghost use Rattle.std.proofs.lemmas.List.Edits.{sets};

// The byte at `i`, and 0 past the end.
pub fn get(s: &[u8], i: usize) -> u8
    ensures { result ≡ get_or s.now i 0 }
{
    if i < s.len() { s[i] } else { 0 }
}

// Whether `n` bytes fit from `at` on into `len`.
pub fn room(len: usize, at: usize, n: usize) -> bool
    ensures { result ≡ leb (at + n) len }
{
    at <= len && n <= len - at
}

// Copies `n` bytes.
pub fn copy(src: &[u8], at: usize, n: usize, out: &mut [u8], put: usize)
    requires { (at + n ≤ length src.now) × (put + n ≤ length out.old) }
    ensures { out.new ≡ sets out.old put (take n (drop at src.now)) }
{
    out[put..put + n].copy_from_slice(&src[at..at + n]);
}

// Writes a length as two bytes, the greater half first.
pub fn put_size(out: &mut [u8], at: usize, n: usize)
    requires { (at + 2 ≤ length out.old) × (n < 65536) }
    ensures { out.new ≡ set (set out.old at (n / 256)) (at + 1) (n % 256) }
{
    out[at] = (n / 256) as u8;
    out[at + 1] = (n % 256) as u8;
}
