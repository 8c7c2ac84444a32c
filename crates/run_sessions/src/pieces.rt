// UART pieces: the calls of one record, one behind the other.
use crate::session::Session;
use crate::{session, telling};
use base::byte_at;
use node_piece_rules::PieceAnswer;
use run_stream::{lent, part};
use std::io;
use std::io::Write;

// The session after a call with this answer.
fn answered<W: Write>(printer: &mut W, mut s: Session, p: PieceAnswer) -> io::Result<Session> {
    let a = p.answer;
    let (number, replies) = run_record::told(a.outcome);
    let bytes = replies.bytes;
    session::count(&mut s.pieces, number);
    let taken = (p.taken % 256) as u8;
    telling::write_node(
        printer,
        s,
        &[0x11, number, taken, replies.count],
        &bytes,
        a.node,
    )
}

// One call: so many of the bytes that the ring still holds.
fn call(s: &Session, length: u8, ring: &[u8], flash: &mut [u8], eeprom: &mut [u8]) -> PieceAnswer {
    let f = lent(flash, s.flash);
    let e = lent(eeprom, s.eeprom);
    node::uart_piece(s.node, part(ring, 0, length as usize), f, e)
}

// A call for each of the lengths. The bytes that one takes leave the ring.
fn calls<W: Write>(
    printer: &mut W,
    s: Session,
    lengths: &[u8],
    ring: &[u8],
    flash: &mut [u8],
    eeprom: &mut [u8],
) -> io::Result<Session> {
    let mut now = s;
    let mut left = ring;
    for length in lengths {
        let p = call(&now, *length, left, flash, eeprom);
        now = answered(printer, now, p)?;
        left = &left[p.taken.min(left.len())..];
    }
    Ok(now)
}

// The calls of a record: at most 16, of a ring of at most 44 bytes.
pub fn record<W: Write>(
    printer: &mut W,
    s: Session,
    rec: &[u8],
    flash: &mut [u8],
    eeprom: &mut [u8],
) -> io::Result<Session> {
    let ring = part(rec, 19, byte_at(rec, 1).min(44) as usize);
    let lengths = part(rec, 3, byte_at(rec, 2).min(16) as usize);
    calls(printer, s, lengths, ring, flash, eeprom)
}
