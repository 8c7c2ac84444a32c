// The UART port, for a byte and for a piece: whether it listens, a refusal, the frame in fifteen bytes, and what stays held of a bad one.
#![tactic(auto)]

ghost use Rattle.std.specs.Prelude.{◌≡◌, ◌≤◌, ◌==◌, length, position};
ghost use Rattle.memory_address.specs.Places.{full};
ghost use Rattle.node_rules.specs.declared.Noise.TheVariants.{KeepFromNext};
ghost use Rattle.node_rules.specs.Record.{receiving};
ghost use Rattle.node_rules.specs.Uart.{silent_on_uart, is_closed, kept_by, held_after_bad};
ghost use Rattle.node_rules.specs.InNumbers.{refusal_number, uart_in_numbers};
ghost use Rattle.node_port.specs.Internal.Port.{listens, frame_in, judged};

use node_rules::{Answer, Choices, Node, Noise, Numbered, Pin, Receiver, Refusal};

// No reply, with this number: any.
pub fn silent(number: u8, n: Node) -> Numbered<30>
    ensures { result ≡ silent_on_uart number n }
{
    Numbered {
        number,
        count: 0,
        replies: [0; 30],
        node: n,
    }
}

// An answer in document 01's numbers: 0 with its replies, or the number of the refusal, with no reply.
pub fn in_numbers(a: Answer<30>) -> Numbered<30>
    ensures { result ≡ uart_in_numbers a }
{
    match a.outcome {
        Ok(replies) => {
            let bytes = replies.bytes;
            Numbered {
                number: 0,
                count: replies.count,
                replies: bytes,
                node: a.node,
            }
        }
        Err(refusal) => silent(refusal.number(), a.node),
    }
}

// A refusal: no reply.
pub fn refused(refusal: Refusal, n: Node) -> Answer<30>
    ensures { uart_in_numbers result ≡ silent_on_uart (refusal_number refusal) n }
{
    Answer {
        outcome: Err(refusal),
        node: n,
    }
}

// Whether the pin says CAN only.
pub fn is_closed(p: Pin) -> bool
    ensures { result ≡ is_closed p }
{
    matches!(p, Pin::CanOnly)
}

// 1, 2 and 3 in this order: whether a byte or a piece is listened to.
pub fn listens(n: Node, flash: &[u8], eeprom: &[u8]) -> Result<(), Refusal>
    ensures { result ≡ listens (full flash.now eeprom.now) n }
{
    if !node_frame::full(flash, eeprom) {
        return Err(Refusal::WrongLength);
    }
    if is_closed(n.choices.pin) {
        return Err(Refusal::ClosedPort);
    }
    if node_frame::is_deaf(n.mode) {
        return Err(Refusal::TakesNoFrame);
    }
    Ok(())
}

// These bytes held.
fn holding(bytes: &[u8]) -> Receiver
    requires { length bytes.now ≤ 15 }
    ensures { result ≡ receiving bytes.now }
{
    let mut held = [0u8; 15];
    held[..bytes.len()].copy_from_slice(bytes);
    Receiver {
        held,
        count: bytes.len(),
    }
}

// Where the first 0xAA stands.
pub fn first_start(bytes: &[u8]) -> Option<usize>
    ensures { result ≡ position (λ b. b == 0xAA) bytes.now }
{
    bytes.iter().position(|b| *b == 0xAA)
}

// The first byte is dropped, and what stays held starts at the next 0xAA among the fourteen others; nothing, where there is none.
fn from_next(fifteen: [u8; 15]) -> Receiver
    ensures { result ≡ receiving (kept_by KeepFromNext fifteen) }
{
    let others = &fifteen[1..];
    match first_start(others) {
        Some(i) => holding(&others[i..]),
        None => node_record::none_held(),
    }
}

// What stays held of fifteen bytes with a wrong sum or stop, by the way that was chosen.
#[tactic(auto, unfolding(node_rules::specs::Uart::held_after_bad))]
pub fn held_after_bad(c: Choices, fifteen: [u8; 15]) -> Receiver
    ensures { result ≡ receiving (held_after_bad c fifteen) }
{
    match c.noise {
        Noise::KeepFromNext => from_next(fifteen),
        Noise::DropAll => node_record::none_held(),
    }
}

// The frame in these bytes; none where they aren't fifteen, or their start, sum or stop is wrong.
pub fn frame_in(bytes: &[u8]) -> Option<[u8; 12]>
    ensures { result ≡ frame_in bytes.now }
{
    let mut frame = [0u8; 12];
    match frame_uart::unwrap(bytes, &mut frame) {
        Ok(()) => Some(frame),
        Err(_) => None,
    }
}

// The frame in fifteen bytes, or what stays held of them where their sum or stop is wrong.
pub fn judged(c: Choices, fifteen: [u8; 15]) -> Result<[u8; 12], Receiver>
    ensures { result ≡ judged c fifteen }
{
    frame_in(&fifteen).ok_or_else(|| held_after_bad(c, fifteen))
}
