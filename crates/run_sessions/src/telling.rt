// Answers written down: into the digest, and as a line in full where the session still prints those.
use crate::session::Session;
use node_rules::{Node, Noise};
use run_stream::part;
use std::io;
use std::io::Write;

// The lower-case hex digits.
const DIGITS: [u8; 16] = *b"0123456789abcdef";

// The room of a line, which no answer fills: the longest has 67 bytes, of two digits each.
const LINE: usize = 256;

// Spells bytes as pairs of hex digits into a line, from `from` on; answers the place behind them.
fn spell(line: &mut [u8], from: usize, bytes: &[u8]) -> usize {
    let mut at = from;
    for byte in bytes {
        let high = DIGITS[(byte / 16) as usize];
        let low = DIGITS[(byte % 16) as usize];
        base::put(line, at, &[high, low]);
        at = at.saturating_add(2);
    }
    at
}

// Prints the bytes of four pieces as a line of hex digits. By hand: a `write!` for each byte would take longer than all else of a line.
fn print<W: Write>(
    printer: &mut W,
    head: &[u8],
    second: &[u8],
    third: &[u8],
    last: &[u8],
) -> io::Result<()> {
    let mut line = [b'\n'; LINE];
    let at = spell(&mut line, 0, head);
    let at = spell(&mut line, at, second);
    let at = spell(&mut line, at, third);
    let at = spell(&mut line, at, last);
    printer.write_all(part(&line, 0, at.saturating_add(1)))
}

// The session after an event whose answer bytes, the kind in front, come in two pieces.
pub fn write<W: Write>(
    printer: &mut W,
    s: Session,
    head: &[u8],
    last: &[u8],
) -> io::Result<Session> {
    write_four(printer, s, head, &[], &[], last)
}

// The same in four pieces. Tried: `&[&[u8]]` for them, of whose several lifetimes the borrow checker says that it doesn't cover them.
fn write_four<W: Write>(
    printer: &mut W,
    s: Session,
    head: &[u8],
    second: &[u8],
    third: &[u8],
    last: &[u8],
) -> io::Result<Session> {
    if 0 < s.full {
        print(printer, head, second, third, last)?;
    }
    let digest = run_digest::with_bytes(s.digest, head);
    let digest = run_digest::with_bytes(digest, second);
    let digest = run_digest::with_bytes(digest, third);
    let digest = run_digest::with_bytes(digest, last);
    Ok(s.answered(digest))
}

// The way after noise: 1 the new one, 2 the old one.
fn way_byte(way: Noise) -> u8 {
    match way {
        Noise::KeepFromNext => 1,
        Noise::DropAll => 2,
    }
}

// The session with this node after an event whose answer ends with it as NODE, the fifteenth held byte and, in a session that tells it, the
// way.
pub fn write_node<W: Write>(
    printer: &mut W,
    s: Session,
    head: &[u8],
    replies: &[u8],
    n: Node,
) -> io::Result<Session> {
    let receiver = n.receiver;
    let held = receiver.held;
    let choices = n.choices;
    let last = [held[14], way_byte(choices.noise)];
    let record = run_record::bytes_of(n);
    let next = s.with_node(n);
    if s.tells {
        return write_four(printer, next, head, replies, &record, &last);
    }
    write_four(printer, next, head, replies, &record, &last[..1])
}
