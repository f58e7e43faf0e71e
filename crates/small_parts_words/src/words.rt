// Words: strings of the fifteen bytes that a part of at most five bytes can have. Those are the bytes where a term begins, 00 to 09, the free names
// 00 and 01 among them, and the bound names 80 to 84. A word is given by its number: its digits to base 15 are the bytes, the lowest first.
ghost use Rattle.std.specs.Prelude.{◌≡◌, ◌+◌, ◌≤◌, ◌<◌, length};
ghost use Rattle.std.proofs.lemmas.List.Edits.{sets};
ghost use Rattle.small_parts.specs.Census.{greatest_length};
ghost use Rattle.small_parts_words.specs.Words.{byte_count, byte_of, word_of, word_count};

const BYTE_COUNT: usize = 15;

// The byte of a digit.
fn byte_of(digit: usize) -> u8
    requires { digit < byte_count }
    ensures { result ≡ byte_of digit }
{
    if digit < 10 {
        return digit as u8;
    }
    (digit + 118) as u8
}

// Writes the word of `size` bytes with this number.
pub fn write_word(size: usize, number: usize, out: &mut [u8], put: usize)
    requires { put + size ≤ length out.old }
    ensures { out.new ≡ sets out.old put (word_of size number) }
{
    let mut rest = number;
    for i in 0..size {
        out[put + i] = byte_of(rest % BYTE_COUNT);
        rest /= BYTE_COUNT;
    }
}

// How many words of `size` bytes there are.
pub fn word_count(size: usize) -> usize
    requires { size ≤ greatest_length }
    ensures { result ≡ word_count size }
{
    BYTE_COUNT.pow(size as u32)
}
