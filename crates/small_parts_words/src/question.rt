// The question about two words: no definitions, an empty apart list.
ghost use Rattle.std.specs.Prelude.{◌≡◌, ◌+◌, ◌*◌, ◌≤◌, take};
ghost use Rattle.small_parts.specs.Census.{greatest_length, asked};
ghost use Rattle.small_parts_words.specs.Words.{word_of};

use crate::words::write_word;

// The bytes of a question beside its two words, and those of the longest.
pub const FRAME: usize = 8;

pub const LONGEST: usize = 18;

// The question stands in the first 2 × size + 8 bytes.
pub fn question_about(size: usize, first: usize, second: usize) -> [u8; LONGEST]
    requires { size ≤ greatest_length }
    ensures { take (2 * size + 8) result ≡ asked (word_of size first) (word_of size second) }
{
    let mut question = [0u8; LONGEST];
    question[0] = 1;
    question[3] = size as u8;
    write_word(size, first, &mut question, 4);
    question[size + 5] = size as u8;
    write_word(size, second, &mut question, size + 6);
    question
}
