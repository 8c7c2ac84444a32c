// A fresh node, and restart. A restart takes any record, which it tidies, and lent memories of any length; it asks nothing of its caller.
#![tactic(auto)]

mod restarting;

ghost use Rattle.std.specs.Prelude.{◌≡◌};
ghost use Rattle.node_rules.specs.Record.{plain, fresh_node};
ghost use Rattle.node_rules.specs.Restart.{restart_step};
ghost use Rattle.node_rules.specs.InNumbers.{restarted_in_numbers};

use memory_address::{Group, Module};
use node_rules::{Choices, Mode, Node, Noise, Pin, Plate, Refusal, Restarted};

// What a plain restart chooses: this pin, and for the rest what is meant where nothing is said, after noise the new way.
fn plain(pin: Pin) -> Choices
    ensures { result ≡ plain pin }
{
    Choices {
        pin,
        noise: Noise::KeepFromNext,
    }
}

// A fresh node with these six fixed bytes: own numbers 0, nothing held, pin CAN only, waiting for restart.
#[tactic(auto, unfolding(node_rules::specs::Record::fresh_node))]
pub fn fresh(fixed: [u8; 6]) -> Node
    ensures { result ≡ fresh_node fixed }
{
    let plate = Plate {
        fixed,
        own: Module(0),
        group: Group(0),
    };
    Node {
        choices: plain(Pin::CanOnly),
        plate,
        receiver: node_record::none_held(),
        mode: Mode::Waiting,
    }
}

// Restart with these choices and the self-test's verdict. It is refused where a memory has the wrong length: nothing is taken then, no
// choice either, and the record is tidied.
#[tactic(auto, unfolding(node_rules::specs::Restart::restart_step))]
pub fn restart_with(
    node: Node,
    choices: Choices,
    passed: bool,
    flash: &[u8],
    eeprom: &[u8],
) -> Restarted
    ensures { restarted_in_numbers result ≡ restart_step node choices passed flash.now eeprom.now }
{
    if node_frame::full(flash, eeprom) {
        return Restarted {
            outcome: Ok(()),
            node: restarting::restarted(node, choices, passed, flash, eeprom),
        };
    }
    Restarted {
        outcome: Err(Refusal::WrongLength),
        node: node_record::tidy(node),
    }
}

// Restart with this pin and the self-test's verdict, and the other choices as they are meant where nothing is said.
pub fn restart(node: Node, pin: Pin, passed: bool, flash: &[u8], eeprom: &[u8]) -> Restarted
    ensures { restarted_in_numbers result ≡ restart_step node (plain pin) passed flash.now eeprom.now }
{
    restart_with(node, plain(pin), passed, flash, eeprom)
}
