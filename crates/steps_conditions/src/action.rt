// What a step does, and the header of a step: its condition and its action. Names stand by their slots (specs/Slots).
ghost use Rattle.steps_conditions.specs.Labels.{FirstIs};

use crate::condition::Condition;
use terms_bytes::limits::NAME_COUNT;

// The slot of the name received or extruded, behind those of the free names, where tables of names have it, too. The object is looked up outside
// every restriction, where no other name has this slot.
pub const NEW_NAME: u8 = NAME_COUNT as u8;

// Silent, input, free output, new-name output, each visible one with its channel and its object.
#[derive(Clone, Copy)]
pub enum Action {
    Silent,
    Input(u8, u8),
    Output(u8, u8),
    NewOutput(u8, u8),
}

// The header of a step. A candidate that is blocked has none.
#[derive(Clone, Copy)]
pub struct Label {
    pub condition: Condition,
    pub action: Action,
}

impl Label {
    // A step with the condition that is always true.
    pub fn found(action: Action) -> Self
        ensures { FirstIs action result }
    {
        Label {
            condition: Condition::empty(),
            action,
        }
    }
}
