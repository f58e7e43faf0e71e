// The rules of Table 4.1 on the labels of their premises: Match, Res and Open, Com and Close. Par and Sum keep the label. A blocked candidate has no
// label.
ghost use Rattle.std.specs.Prelude.{◌≡◌, ◌+◌, ◌<◌};
ghost use Rattle.terms.specs.Limits.{name_count};
ghost use Rattle.steps_conditions.specs.Slots.{slot_count};
ghost use Rattle.steps_conditions.specs.Labels.{MatchingIs, RestrictedIs, OutsideIs, meeting_of, MetIs, CommunicationIs};

use crate::action::{Action, Label, NEW_NAME};
use crate::condition::Condition;

// [Match]: the match of two slots is added to the condition.
pub fn matching(label: Option<Label>, a: u8, b: u8) -> Option<Label>
    ensures { MatchingIs label a b result }
{
    let label = label?;
    Some(Label {
        condition: label.condition.merge(a, b),
        action: label.action,
    })
}

// [Res] and [Open] for a step under the restriction at `level`. The restricted name blocks it exactly if the condition merges the name with
// another, or the action names it and Open does not apply, which wants it to be the object alone.
fn outside(label: Label, level: usize) -> Option<Label>
    requires { name_count + level < slot_count }
    ensures { OutsideIs label level result }
{
    let condition = label.condition;
    if !condition.is_alone(level) {
        return None;
    }
    let name = (Condition::NAMES + level) as u8;
    match label.action {
        Action::Silent => Some(label),
        Action::Input(a, _) => if a == name { None } else { Some(label) },
        Action::NewOutput(a, _) => if a == name { None } else { Some(label) },
        Action::Output(a, b) => {
            if a == name {
                return None;
            }
            if b == name {
                return Some(Label {
                    condition,
                    action: Action::NewOutput(a, NEW_NAME),
                });
            }
            Some(label)
        }
    }
}

// The restriction at `level` is left.
pub fn restricted(label: Option<Label>, level: usize) -> Option<Label>
    requires { name_count + level < slot_count }
    ensures { RestrictedIs label level result }
{
    outside(label?, level)
}

// Where two actions meet: the channels of an output and an input.
#[tactic(auto, unfolding(crate::specs::Labels::meeting_of, crate::specs::Labels::received_by))]
fn meeting_of(left: Action, right: Action) -> Option<(u8, u8)>
    ensures { result ≡ meeting_of left right }
{
    match (left, right) {
        (Action::Input(a, _), Action::Output(b, _)) => Some((a, b)),
        (Action::Input(a, _), Action::NewOutput(b, _)) => Some((a, b)),
        (Action::Output(a, _), Action::Input(b, _)) => Some((a, b)),
        (Action::NewOutput(a, _), Action::Input(b, _)) => Some((a, b)),
        _ => None,
    }
}

// [Com] and [Close] for two steps: both conditions hold, and the channels are one.
fn met(p: Label, q: Label) -> Option<Label>
    ensures { MetIs p q result }
{
    let (a, b) = meeting_of(p.action, q.action)?;
    let joined = p.condition.both(q.condition);
    Some(Label {
        condition: joined.merge(a, b),
        action: Action::Silent,
    })
}

// A candidate of the left side with one of the right side.
pub fn communication(p: Option<Label>, q: Option<Label>) -> Option<Label>
    ensures { CommunicationIs p q result }
{
    met(p?, q?)
}
