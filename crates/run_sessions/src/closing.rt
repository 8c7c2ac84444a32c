// The closing line of a session.
use crate::session::Session;
use std::io;
use std::io::Write;

// A word, and counts.
fn tell_counts<W: Write>(printer: &mut W, word: &str, counts: &[u64]) -> io::Result<()> {
    write!(printer, " {word}")?;
    for count in counts {
        write!(printer, " {count}")?;
    }
    Ok(())
}

// Prints the closing line. The counts of pieces are in it where one was handed over.
pub fn close<W: Write>(
    printer: &mut W,
    s: &Session,
    flash: &[u8],
    eeprom: &[u8],
) -> io::Result<()> {
    let number = s.number;
    let events = s.events;
    let digest = s.digest;
    let flash = run_digest::with_bytes(0, flash);
    let eeprom = run_digest::with_bytes(0, eeprom);
    write!(printer, "session {number} events {events} digest {digest}")?;
    write!(printer, " flash {flash} eeprom {eeprom}")?;
    tell_counts(printer, "restart", &s.restarts)?;
    tell_counts(printer, "can", &s.frames)?;
    tell_counts(printer, "uart", &s.bytes)?;
    if s.pieces.iter().any(|count| *count != 0) {
        tell_counts(printer, "piece", &s.pieces)?;
    }
    writeln!(printer)
}
