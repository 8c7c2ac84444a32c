// A UART byte, and a complete frame from UART. The calls take any record and lent memories of any length; they ask nothing of their caller.
// The answer has the replies, wrapped, or the refusal, and the node.
#![tactic(auto)]

ghost use Rattle.std.specs.Prelude.{◌≡◌};
ghost use Rattle.node_rules.specs.Step.{can_step};
ghost use Rattle.node_rules.specs.Uart.{uart_after, via_uart, uart_step};
ghost use Rattle.node_rules.specs.InNumbers.{uart_in_numbers};

use node_rules::{Answer, Node, Refusal};

// A complete frame goes the way of a CAN frame, its replies wrapped. A refusal leaves what that of a CAN frame leaves. As a call of its own
// it would copy the answer twice (docs/DECISIONS.md, D16).
#[inline(always)]
pub fn obeyed(node: Node, frame: &[u8], flash: &mut [u8], eeprom: &mut [u8]) -> Answer<30>
    ensures { uart_after (uart_in_numbers result) flash.new eeprom.new
        ≡ via_uart (can_step node frame.now flash.old eeprom.old) }
{
    let a = node_can::can_frame(node, frame, flash, eeprom);
    Answer {
        outcome: a.outcome.map(node_reply_uart::wrapped_replies),
        node: a.node,
    }
}

// A byte from UART: 1, 2, 3 and 10 in this order, and then the last byte of a frame, which goes the way of a CAN frame where its sum and
// stop are right. 1, 2 and 3 leave the record tidied, 10 holds or skips the byte, and 11 leaves what the chosen way says; both memories stay.
pub fn uart_byte(node: Node, byte: u8, flash: &mut [u8], eeprom: &mut [u8]) -> Answer<30>
    ensures { uart_after (uart_in_numbers result) flash.new eeprom.new
        ≡ uart_step node byte flash.old eeprom.old }
{
    let mut n = node_record::tidy(node);
    if let Err(refusal) = node_port::listens(n, flash, eeprom) {
        return node_port::refused(refusal, n);
    }
    let mut r = n.receiver;
    let count = r.count;
    if count == 0 && byte != 0xAA {
        return node_port::refused(Refusal::Incomplete, n);
    }
    if count < 14 {
        r.held[count] = byte;
        r.count = count + 1;
        n.receiver = r;
        return node_port::refused(Refusal::Incomplete, n);
    }
    r.held[14] = byte;
    match node_port::judged(n.choices, r.held) {
        Ok(frame) => {
            n.receiver = node_record::none_held();
            obeyed(n, &frame, flash, eeprom)
        }
        Err(kept) => {
            n.receiver = kept;
            node_port::refused(Refusal::BadFrame, n)
        }
    }
}
