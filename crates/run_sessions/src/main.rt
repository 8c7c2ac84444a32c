// Reads a stream of session events (second/PROTOCOL.md) from standard input, hands each to the proved crates and prints what that page
// says. Nothing is decided here: this program only takes records apart and writes answers down.
#![tactic(auto)]

mod closing;
mod event;
mod handed;
mod pieces;
mod session;
mod telling;

use run_stream::RECORD;
use session::Session;
use std::io;
use std::io::{BufWriter, Read, Write};

// The records that stand whole in a piece of the stream, one after the other.
fn piece<W: Write>(
    printer: &mut W,
    s: Session,
    bytes: &[u8],
    flash: &mut [u8],
    eeprom: &mut [u8],
) -> io::Result<Session> {
    let mut now = s;
    for record in bytes.chunks_exact(RECORD) {
        now = event::event(printer, now, record, flash, eeprom)?;
    }
    Ok(now)
}

// The whole stream, in pieces of 1,024 records.
fn stream<R: Read, W: Write>(
    input: &mut R,
    printer: &mut W,
    space: &mut [u8],
    flash: &mut [u8],
    eeprom: &mut [u8],
) -> io::Result<()> {
    let mut s = session::start();
    run_stream::each_piece(input, space, |_, bytes| {
        s = piece(printer, s, bytes, flash, eeprom)?;
        Ok(())
    })
}

fn main(rt: HostRuntime) -> io::Result<()> {
    let alloc = rt.alloc();
    let mut space = vec![in alloc; 0u8; 65_536]?;
    let mut flash = vec![in alloc; 0u8; 131_136]?;
    let mut eeprom = vec![in alloc; 0u8; 65_600]?;
    let mut input = rt.reader();
    let mut printer = BufWriter::new(alloc, io::writer(&rt))?;
    stream(
        &mut input,
        &mut printer,
        &mut space,
        &mut flash,
        &mut eeprom,
    )?;
    printer.flush()
}
