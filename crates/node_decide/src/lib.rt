// What a frame comes to: the outcome table's 1 and 3 to 9, one after the other, and else what it asks. No memory is read.
#![tactic(auto)]

mod request;

ghost use Rattle.std.specs.Prelude.{◌≡◌};
ghost use Rattle.frame_rules.specs.Frame.{type_of};
ghost use Rattle.node_rules.specs.Requests.{found};
ghost use Rattle.node_rules.specs.Outcomes.{unless, type_outcomes, asked_of, decided};
ghost use Rattle.node_rules.specs.Internal.Effects.{effect_in_numbers};

use node_rules::{Deed, Node, Refusal};

// What a frame comes to by its type: outcomes 6 and 7, then its request. A refusal changes no memory.
fn accepted(n: Node, frame: &[u8]) -> Result<Deed, Refusal>
    ensures { effect_in_numbers result ≡ unless (type_outcomes (found (type_of frame.now)) n frame.now)
        (asked_of n frame.now) }
{
    let k = node_table::look_up(node_frame::type_of(frame)).ok_or(Refusal::NotHandled)?;
    if !request::handled_here(k.handled, n.mode) {
        return Err(Refusal::NotHandled);
    }
    if !request::is_for(k.addressing, n.plate, frame) {
        return Err(Refusal::NotForNode);
    }
    node_request::asked_by(k.request, n.mode, frame)
}

// What a frame comes to at a tidied node, over memories that are full (both of their size) or not: the refusal of the first outcome that
// holds, or what it asks. A refusal changes no memory.
#[tactic(auto, unfolding(node_rules::specs::Outcomes::decided))]
pub fn decide(n: Node, full: bool, frame: &[u8]) -> Result<Deed, Refusal>
    ensures { effect_in_numbers result ≡ decided n full frame.now }
{
    if !full {
        return Err(Refusal::WrongLength);
    }
    if node_frame::is_deaf(n.mode) {
        return Err(Refusal::TakesNoFrame);
    }
    if request::misshapen(frame) {
        return Err(Refusal::Misshapen);
    }
    if request::is_response(frame) {
        return Err(Refusal::IsResponse);
    }
    accepted(n, frame)
}
