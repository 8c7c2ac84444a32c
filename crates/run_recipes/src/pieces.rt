// Frames handed to a node on UART in pieces, and the digest of its answers.
use crate::hand;
use crate::hand::Handed;
use run_stream::part;

// These frames, wrapped one behind the other.
fn wrap_all(frames: &[u8], serial: &mut [u8]) {
    for (frame, wrapped) in frames.chunks_exact(12).zip(serial.chunks_exact_mut(15)) {
        let _ = frame_uart::wrap(frame, wrapped);
    }
}

// Pieces of so many bytes, until no byte is left or none is taken. A while: the node says how many bytes it took.
fn pieces(h: Handed, size: u16, bytes: &[u8], flash: &mut [u8], eeprom: &mut [u8]) -> Handed {
    let mut now = h;
    let mut left = bytes;
    while !left.is_empty() {
        let p = node::uart_piece(now.node, part(left, 0, size as usize), flash, eeprom);
        let high_low = ((p.taken % 65_536) as u16).to_be_bytes();
        now = hand::answered(now.answers, &high_low, p.answer);
        if p.taken == 0 {
            return now;
        }
        left = &left[p.taken.min(left.len())..];
    }
    now
}

// These frames, in pieces of so many bytes. Their bytes stand in `serial` meanwhile.
pub fn frames(
    h: Handed,
    size: u16,
    frames: &[u8],
    serial: &mut [u8],
    flash: &mut [u8],
    eeprom: &mut [u8],
) -> Handed {
    wrap_all(frames, serial);
    let bytes = part(serial, 0, (frames.len() / 12).saturating_mul(15));
    pieces(h, size, bytes, flash, eeprom)
}
