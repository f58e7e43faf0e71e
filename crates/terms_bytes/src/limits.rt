// The limits of document 01, as `specs/Limits.antt` has them.

// How many names may stand free in a part.
pub const NAME_COUNT: usize = 16;

// How many names a table of names begins with: those, and one more that stands for a step's new name until it is chosen.
pub const TABLE_NAMES: usize = NAME_COUNT + 1;
// The bytes of a question.
pub const LONGEST_QUESTION: usize = 4096;

pub const MOST_DEFINITIONS: usize = 16;

pub const GREATEST_ARITY: usize = 8;

// The bytes of a body or part.
pub const LONGEST_TERM: usize = 112;

// The bytes of the apart list: every pair once.
pub const LONGEST_APART: usize = NAME_COUNT * (NAME_COUNT - 1);
