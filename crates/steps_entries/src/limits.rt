// The limits on the steps of a part, as `specs/Limits.antt` has them.
use terms_bytes::limits::{LONGEST_TERM, NAME_COUNT};

// More distinct steps than this are unsettled.
pub const MOST_STEPS: usize = 256;

// The bytes of a listed step: a class for each name, the action's three, the result behind its length.
pub const STEP_BYTES: usize = NAME_COUNT + 4 + LONGEST_TERM;

// Where the index of a list begins, behind the steps: a byte for each.
pub const INDEX: usize = STEP_BYTES * MOST_STEPS;

// The bytes of an area that a list is made in.
pub const LIST_ROOM: usize = INDEX + MOST_STEPS;
