// Frames handed to a node, and the digest of its answers.
use crate::header::Port;
use crate::pieces;
use node_rules::{Answer, Node};

// The node after what was handed over so far, and the digest of the answers.
#[derive(Clone, Copy)]
pub struct Handed {
    pub node: Node,
    pub answers: u64,
}

// After an answer, with the digest before it: its number, what stands behind that, its count of replies, and those.
pub fn answered<const N: usize>(answers: u64, behind: &[u8], a: Answer<N>) -> Handed {
    let (number, replies) = run_record::told(a.outcome);
    let bytes = replies.bytes;
    let first = run_digest::with_bytes(answers, &[number]);
    let head = run_digest::with_bytes(first, behind);
    let count = run_digest::with_bytes(head, &[replies.count]);
    Handed {
        node: a.node,
        answers: run_digest::with_bytes(count, &bytes),
    }
}

// A frame as it is.
fn on_can(h: Handed, frame: &[u8], flash: &mut [u8], eeprom: &mut [u8]) -> Handed {
    let a = node::can_frame(h.node, frame, flash, eeprom);
    answered(h.answers, &[], a)
}

// A frame wrapped, byte by byte.
fn on_uart(h: Handed, frame: &[u8], flash: &mut [u8], eeprom: &mut [u8]) -> Handed {
    let mut wrapped = [0u8; 15];
    let _ = frame_uart::wrap(frame, &mut wrapped);
    let mut now = h;
    for byte in &wrapped {
        let a = node::uart_byte(now.node, *byte, flash, eeprom);
        now = answered(now.answers, &[], a);
    }
    now
}

// These frames, one by one, each handed over by this call.
fn each<F: Fn(Handed, &[u8], &mut [u8], &mut [u8]) -> Handed>(
    first: Handed,
    frames: &[u8],
    flash: &mut [u8],
    eeprom: &mut [u8],
    call: F,
) -> Handed
    requires { F.IsAlwaysCallable call }
{
    let mut now = first;
    for frame in frames.chunks_exact(12) {
        now = call(now, frame, flash, eeprom);
    }
    now
}

// These frames on this port. On UART in pieces, their bytes stand in `serial` meanwhile.
pub fn over(
    first: Handed,
    port: Port,
    frames: &[u8],
    serial: &mut [u8],
    flash: &mut [u8],
    eeprom: &mut [u8],
) -> Handed {
    match port {
        Port::Can => each(first, frames, flash, eeprom, on_can),
        Port::Bytes => each(first, frames, flash, eeprom, on_uart),
        Port::Pieces(size) => pieces::frames(first, size, frames, serial, flash, eeprom),
    }
}
