// A condition, an equivalence on names, as an array: the class of each slot (specs/Slots), written by its smallest slot. Of a listed step's condition
// the classes of the names stand in the list, as bytes; the tests read them there.
ghost use Rattle.std.specs.Prelude.{[], ◌+◌, ◌<◌, ◌≤◌, length};
ghost use Rattle.terms.specs.Limits.{name_count};
ghost use Rattle.steps_conditions.specs.Slots.{slot_count, HasSlotClasses};
ghost use Rattle.steps_conditions.specs.Conditions.{MergedIs, BothIs, AloneIs, ClassOfIs, TrivialIs, ImpliesIs, RespectsIs};

use terms_bytes::bytes::get;
use terms_bytes::limits::NAME_COUNT;
use terms_renaming::tables::merged_name;

#[derive(Clone, Copy)]
pub struct Condition {
    pub class: [u8; Condition::SLOTS],
}

impl Condition {
    // A byte numbers the slots.
    pub const SLOTS: usize = 256;

    // Those of the names; behind them stand those of the restrictions.
    pub const NAMES: usize = NAME_COUNT;

    // The condition that is always true.
    pub fn empty() -> Self
        ensures { HasSlotClasses result.class [] }
    {
        let mut class = [0u8; Condition::SLOTS];
        for i in 0..Condition::SLOTS {
            class[i] = i as u8;
        }
        Condition { class }
    }

    // The condition with the match [a = b] of two slots. A trivial match vanishes.
    pub fn merge(self, a: u8, b: u8) -> Self
        ensures { MergedIs self.class a b result.class }
    {
        if a == b {
            return self;
        }
        let mut class = self.class;
        let x = class[a as usize];
        let y = class[b as usize];
        for i in 0..Condition::SLOTS {
            let v = merged_name(x, y, class[i]);
            class[i] = v;
        }
        Condition { class }
    }

    // The composition of two conditions.
    pub fn both(self, other: Condition) -> Self
        ensures { BothIs self.class other.class result.class }
    {
        let o = other.class;
        let mut c = self;
        for i in 0..Condition::SLOTS {
            // a slot that is its own class matches nothing
            let v = o[i];
            if v as usize != i {
                c = c.merge(i as u8, v);
            }
        }
        c
    }

    // Whether the name that the restriction at `level`, the innermost, restricts is merged with no other. It has the largest slot in use, and
    // each class is written by its smallest slot, so one look decides.
    pub fn is_alone(self, level: usize) -> bool
        requires { name_count + level < slot_count }
        ensures { AloneIs self.class level result }
    {
        let slot = Condition::NAMES + level;
        self.class[slot] as usize == slot
    }

    // Of the classes at `at`: the class of the name `n`; a number that is no name is alone in its class.
    pub fn class_of(classes: &[u8], at: usize, n: usize) -> usize
        requires { at ≤ length classes.now }
        ensures { ClassOfIs classes.now at n result }
    {
        if n < Condition::NAMES {
            return get(classes, at + n) as usize;
        }
        n
    }

    // Whether the condition with the classes at `at` merges no names: each is its own class.
    pub fn is_trivial(classes: &[u8], at: usize) -> bool
        requires { at ≤ length classes.now }
        ensures { TrivialIs classes.now at result }
    {
        if classes.len() - at < Condition::NAMES {
            return false;
        }
        let mut own = true;
        for n in 0..Condition::NAMES {
            if classes[at + n] as usize != n {
                own = false;
            }
        }
        own
    }

    // Whether the condition with the classes at `at` implies that with the other classes, at `place`.
    pub fn implies(classes: &[u8], at: usize, others: &[u8], place: usize) -> bool
        requires { (at ≤ length classes.now) × (place ≤ length others.now) }
        ensures { ImpliesIs classes.now at others.now place result }
    {
        if Condition::is_trivial(others, place) {
            return true;
        }
        for n in 0..Condition::NAMES {
            let merged = Condition::class_of(classes, at, Condition::class_of(others, place, n));
            if merged != Condition::class_of(classes, at, n) {
                return false;
            }
        }
        true
    }

    // Whether the condition with the classes at `at` respects the apart pair of the slots `a` and `b`: it does not merge the two.
    pub fn respects(classes: &[u8], at: usize, a: usize, b: usize) -> bool
        requires { (at ≤ length classes.now) × (a < slot_count) × (b < slot_count) }
        ensures { RespectsIs classes.now at a b result }
    {
        get(classes, at + a) != get(classes, at + b)
    }
}
