// How the long runs write things down (second/PROTOCOL.md): the node's record as 31 bytes, and what a call answers.
#![tactic(auto)]

pub mod begun;
mod last;

ghost use Rattle.std.specs.Prelude.{◌≡◌};
ghost use Rattle.run_record.specs.Internal.Record.{pin_byte, node_bytes, told_of};

use node_rules::{Node, Pin, Refusal, Replies};

// The byte of the pin.
fn pin_byte(p: Pin) -> u8
    ensures { result ≡ pin_byte p }
{
    match p {
        Pin::CanOnly => 0,
        Pin::CanAndUart => 1,
    }
}

// The record as the 31 bytes NODE, for any record. The held bytes are written as they stand: a tidied record has 0 behind its count.
pub fn bytes_of(n: Node) -> [u8; 31]
    ensures { result ≡ node_bytes n }
{
    let plate = n.plate;
    let receiver = n.receiver;
    let last = last::last_of(n.mode);
    let mut bytes = [0; 31];
    bytes[0] = pin_byte(n.choices.pin);
    bytes[7] = plate.own.0;
    bytes[8] = plate.group.0;
    bytes[9] = (receiver.count % 256) as u8;
    bytes[24..].copy_from_slice(&last);
    bytes[10..24].copy_from_slice(&receiver.held[..14]);
    bytes[1..7].copy_from_slice(&plate.fixed);
    bytes
}

// What a call answered: document 01's number, and the replies. A refusal has none, and 0 stands for their bytes.
pub fn told<const N: usize>(outcome: Result<Replies<N>, Refusal>) -> (u8, Replies<N>)
    ensures { result ≡ told_of N outcome.entry }
{
    match outcome {
        Ok(replies) => (0, replies),
        Err(refusal) => (
            refusal.number(),
            Replies {
                count: 0,
                bytes: [0; N],
            },
        ),
    }
}
