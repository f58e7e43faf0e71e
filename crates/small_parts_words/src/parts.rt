// The words that are parts of the census, by the grammar walk of check.
ghost use Rattle.std.specs.Prelude.{◌≡◌, ◌≤◌, length};
ghost use Rattle.small_parts.specs.Census.{greatest_length};
ghost use Rattle.small_parts_words.specs.Words.{word_of, is_part, part_numbers, MayKeep, KeepsIs, CollectsIs};

use crate::words::{word_count, write_word};
use terms_scanning::scan::scan_whole;

pub const GREATEST_LENGTH: usize = 5;

// The free names of a part: 0 and 1.
const FREE_NAMES: usize = 2;

// Whether the word is a part: checks 7 to 10, without definitions.
fn is_part(size: usize, number: usize) -> bool
    requires { size ≤ greatest_length }
    ensures { result ≡ is_part (word_of size number) }
{
    let mut word = [0u8; GREATEST_LENGTH];
    write_word(size, number, &mut word, 0);
    match scan_whole(&word[..size], 0, FREE_NAMES, &[], false) {
        Ok(control) => control.outermost,
        Err(_) => false,
    }
}

// Keeps the number of a word that is a part behind the `count` kept before; answers how many are kept now.
fn keep_part(size: usize, number: usize, kept: &mut [usize], count: usize) -> usize
    requires { MayKeep size number kept.old count }
    ensures { KeepsIs size number kept.old count result kept.new }
{
    if is_part(size, number) {
        kept[count] = number;
        return count + 1;
    }
    count
}

// Keeps the numbers of all parts of `size` bytes and answers how many there are.
pub fn collect_parts(size: usize, kept: &mut [usize]) -> usize
    requires { (size ≤ greatest_length) × (length (part_numbers size) ≤ length kept.old) }
    ensures { CollectsIs size kept.old result kept.new }
{
    let words = word_count(size);
    let mut count = 0;
    for number in 0..words {
        count = keep_part(size, number, kept, count);
    }
    count
}
