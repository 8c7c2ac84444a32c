// One event: the record is taken apart, the call is made, and its answer written down.
use crate::session::Session;
use crate::{closing, handed, pieces, session, telling};
use base::byte_at;
use frame_can::Refusal;
use memory_address::Address;
use node_rules::{Choices, Restarted};
use run_record::begun;
use run_stream::{lent, number, part, short};
use std::io;
use std::io::Write;

// Restart, by pin, self-test and way.
fn restart<W: Write>(
    printer: &mut W,
    mut s: Session,
    rec: &[u8],
    flash: &[u8],
    eeprom: &[u8],
) -> io::Result<Session> {
    let r = restart_by(&s, rec, part(flash, 0, s.flash), part(eeprom, 0, s.eeprom));
    let number = match r.outcome {
        Ok(()) => 0,
        Err(refusal) => refusal.number(),
    };
    session::count(&mut s.restarts, number);
    telling::write_node(printer, s, &[0x01, number], &[], r.node)
}

// A plain restart where nothing is said of the way and the default is meant; else the way is chosen.
fn restart_by(s: &Session, rec: &[u8], flash: &[u8], eeprom: &[u8]) -> Restarted {
    let pin = begun::pin(byte_at(rec, 1));
    let passed = byte_at(rec, 2) == 0;
    match begun::way(byte_at(rec, 3), s.old) {
        Some(noise) => node::restart_with(s.node, Choices { pin, noise }, passed, flash, eeprom),
        None => node::restart(s.node, pin, passed, flash, eeprom),
    }
}

// A CAN frame, of any length up to 1,024 bytes: the record's, then 0x55.
fn can<W: Write>(
    printer: &mut W,
    mut s: Session,
    rec: &[u8],
    flash: &mut [u8],
    eeprom: &mut [u8],
) -> io::Result<Session> {
    let mut space = [0x55u8; 1024];
    base::put(&mut space, 0, part(rec, 3, 61));
    let frame = part(&space, 0, short(rec, 1) as usize);
    let f = lent(flash, s.flash);
    let e = lent(eeprom, s.eeprom);
    let a = node::can_frame(s.node, frame, f, e);
    let (number, replies) = run_record::told(a.outcome);
    let bytes = replies.bytes;
    session::count(&mut s.frames, number);
    telling::write_node(printer, s, &[0x02, number, replies.count], &bytes, a.node)
}

// A UART byte.
fn uart<W: Write>(
    printer: &mut W,
    mut s: Session,
    rec: &[u8],
    flash: &mut [u8],
    eeprom: &mut [u8],
) -> io::Result<Session> {
    let f = lent(flash, s.flash);
    let e = lent(eeprom, s.eeprom);
    let a = node::uart_byte(s.node, byte_at(rec, 1), f, e);
    let (number, replies) = run_record::told(a.outcome);
    let bytes = replies.bytes;
    session::count(&mut s.bytes, number);
    telling::write_node(printer, s, &[0x03, number, replies.count], &bytes, a.node)
}

// A row of the lent memories.
fn show<'a, W: Write>(
    printer: &mut W,
    s: Session,
    rec: &[u8],
    flash: &'a [u8],
    eeprom: &'a [u8],
) -> io::Result<Session> {
    let f = part(flash, 0, s.flash);
    let e = part(eeprom, 0, s.eeprom);
    show_lent(printer, s, number(rec, 1), f, e)
}

fn show_lent<'a, W: Write>(
    printer: &mut W,
    s: Session,
    at: u32,
    flash: &'a [u8],
    eeprom: &'a [u8],
) -> io::Result<Session> {
    let number = memory_row::show_number(flash, eeprom, at);
    let row = memory_row::show_row(flash, eeprom, at);
    let length = (row.len() % 256) as u8;
    telling::write(printer, s, &[0x04, number, length], row)
}

// From this event on so many cells of each memory are lent, or as many as there are.
fn lend(s: Session, rec: &[u8]) -> Session {
    s.lending(number(rec, 1) as usize, number(rec, 5) as usize)
}

// A cell of FLASH, or of EEPROM from 0xF00000 on, becomes a value.
fn poke(rec: &[u8], flash: &mut [u8], eeprom: &mut [u8]) {
    let at = number(rec, 1);
    let new = [byte_at(rec, 5)];
    base::put(flash, at as usize, &new);
    if 0xF00000 <= at {
        base::put(eeprom, (at - 0xF00000) as usize, &new);
    }
}

// A new session.
fn begin(s: Session, rec: &[u8], flash: &mut [u8], eeprom: &mut [u8]) -> Session {
    run_stream::fill(flash, byte_at(rec, 1), byte_at(rec, 11), byte_at(rec, 12));
    run_stream::fill(eeprom, byte_at(rec, 2), byte_at(rec, 11), byte_at(rec, 12));
    let tells = byte_at(rec, 13) != 0;
    s.begun(handed::six(rec, 3), short(rec, 9), tells)
}

// The closing line.
fn end<W: Write>(printer: &mut W, s: Session, flash: &[u8], eeprom: &[u8]) -> io::Result<Session> {
    closing::close(printer, &s, flash, eeprom)?;
    Ok(s)
}

// What a conversion answers, as a number: 0 where it is done. run_samples has the same three lines: no crate below both is for runs alone.
fn number_of(outcome: Result<(), Refusal>) -> u8 {
    match outcome {
        Ok(()) => 0,
        Err(refusal) => refusal.number(),
    }
}

// Identifier and data to a frame.
fn to_hapcan<W: Write>(
    printer: &mut W,
    s: Session,
    rec: &[u8],
    output: &mut [u8],
) -> io::Result<Session> {
    let input = part(rec, 7, handed::length(rec, 5));
    let out = lent(output, handed::length(rec, 6));
    let outcome = frame_can::to_hapcan(number(rec, 1), input, out);
    telling::write(printer, s, &[0x0A, number_of(outcome)], out)
}

// A frame to identifier and data. The answer's bytes before the output are kind, number, and the identifier's four, 0 where it is refused.
fn to_can<W: Write>(
    printer: &mut W,
    s: Session,
    rec: &[u8],
    output: &mut [u8],
) -> io::Result<Session> {
    let input = part(rec, 3, handed::length(rec, 1));
    let out = lent(output, handed::length(rec, 2));
    let (number, identifier) = match frame_can::to_can(input, out) {
        Ok(identifier) => (0, identifier),
        Err(refusal) => (refusal.number(), 0),
    };
    let i = identifier.to_be_bytes();
    telling::write(printer, s, &[0x0B, number, i[0], i[1], i[2], i[3]], out)
}

// A frame wrapped or unwrapped, by this call.
fn on_uart<W: Write, F: Fn(&[u8], &mut [u8]) -> Result<(), Refusal>>(
    printer: &mut W,
    s: Session,
    rec: &[u8],
    output: &mut [u8],
    call: F,
) -> io::Result<Session>
    requires { F.IsAlwaysCallable call }
{
    let input = part(rec, 3, handed::length(rec, 1));
    let out = lent(output, handed::length(rec, 2));
    let outcome = call(input, out);
    telling::write(printer, s, &[byte_at(rec, 0), number_of(outcome)], out)
}

// What the address rule says: its number, and which memory.
fn rule<W: Write>(printer: &mut W, s: Session, rec: &[u8]) -> io::Result<Session> {
    let told = match memory_address::rule(number(rec, 1), number(rec, 5)) {
        Some(Address::Flash(_)) => [0x0E, 0, 0],
        Some(Address::Eeprom(_)) => [0x0E, 0, 1],
        None => [0x0E, 8, 2],
    };
    telling::write(printer, s, &told, &[])
}

// A conversion, into a lent output filled with 0xEE.
fn converted<W: Write>(printer: &mut W, s: Session, kind: u8, rec: &[u8]) -> io::Result<Session> {
    let mut output = [0xEEu8; 20];
    match kind {
        0x0A => to_hapcan(printer, s, rec, &mut output),
        0x0B => to_can(printer, s, rec, &mut output),
        0x0C => on_uart(printer, s, rec, &mut output, frame_uart::wrap),
        0x0D => on_uart(printer, s, rec, &mut output, frame_uart::unwrap),
        _ => Ok(s),
    }
}

// An event that calls the node, or sets it.
fn on_node<W: Write>(
    printer: &mut W,
    s: Session,
    kind: u8,
    rec: &[u8],
    flash: &mut [u8],
    eeprom: &mut [u8],
) -> io::Result<Session> {
    match kind {
        0x01 => restart(printer, s, rec, flash, eeprom),
        0x02 => can(printer, s, rec, flash, eeprom),
        0x03 => uart(printer, s, rec, flash, eeprom),
        0x04 => show(printer, s, rec, flash, eeprom),
        0x05 => Ok(s.with_node(handed::node(rec, s.old))),
        _ => Ok(s),
    }
}

// An event of the session itself.
fn on_session<W: Write>(
    printer: &mut W,
    s: Session,
    kind: u8,
    rec: &[u8],
    flash: &mut [u8],
    eeprom: &mut [u8],
) -> io::Result<Session> {
    match kind {
        0x06 => Ok(lend(s, rec)),
        0x07 => {
            poke(rec, flash, eeprom);
            Ok(s)
        }
        0x08 => Ok(begin(s, rec, flash, eeprom)),
        0x09 => end(printer, s, flash, eeprom),
        _ => Ok(s),
    }
}

// One record of the stream; its first byte is the code of a kind in second/PROTOCOL.md. One that is none of these is passed over. The codes
// are matched in three parts, since a function has a dozen returns at most; an enum of 16 kinds would name each code once more.
pub fn event<W: Write>(
    printer: &mut W,
    s: Session,
    rec: &[u8],
    flash: &mut [u8],
    eeprom: &mut [u8],
) -> io::Result<Session> {
    match byte_at(rec, 0) {
        kind @ 0x00..=0x05 => on_node(printer, s, kind, rec, flash, eeprom),
        kind @ 0x06..=0x09 => on_session(printer, s, kind, rec, flash, eeprom),
        kind @ 0x0A..=0x0D => converted(printer, s, kind, rec),
        0x0E => rule(printer, s, rec),
        0x11 => pieces::record(printer, s, rec, flash, eeprom),
        0x12 => Ok(s.meaning(1 < byte_at(rec, 1))),
        _ => Ok(s),
    }
}
