// A CAN frame. The call takes any record, which it tidies, and lent memories of any length; it asks nothing of its caller. The answer has
// the replies or the refusal, and the node.
#![tactic(auto)]

ghost use Rattle.std.specs.Prelude.{◌≡◌};
ghost use Rattle.node_rules.specs.Step.{after, node_after, can_step};
ghost use Rattle.node_rules.specs.InNumbers.{answer_in_numbers};

use node_rules::{Answer, Mode, Next, Node};

// The node in the mode that comes next.
fn going_on(n: Node, next: Next) -> Node
    ensures { result ≡ node_after next n }
{
    match next {
        Next::Stays => n,
        Next::Programs(s) => node_record::with_mode(n, Mode::Programming(s)),
        Next::Waits => node_record::with_mode(n, Mode::Waiting),
    }
}

// A CAN frame, as its 12 HAPCAN bytes. What it comes to is decided, done to the memories and answered. A refusal leaves both memories as
// they were, and the tidied record, with nothing staged where the address is illegal.
pub fn can_frame(node: Node, frame: &[u8], flash: &mut [u8], eeprom: &mut [u8]) -> Answer<24>
    ensures { after (answer_in_numbers result) flash.new eeprom.new
        ≡ can_step node frame.now flash.old eeprom.old }
{
    let n = node_record::tidy(node);
    let full = node_frame::full(flash, eeprom);
    match node_decide::decide(n, full, frame) {
        Ok(deed) => {
            node_change::change(deed.memory, frame, flash, eeprom);
            let replies = node_reply::replies(deed.reply, n, frame, flash, eeprom);
            Answer {
                outcome: Ok(replies),
                node: going_on(n, deed.next),
            }
        }
        Err(refusal) => Answer {
            outcome: Err(refusal),
            node: going_on(n, node_request::afterwards(refusal)),
        },
    }
}
