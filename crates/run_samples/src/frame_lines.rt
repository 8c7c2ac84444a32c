// Lines for the frames. Each has a name, what is handed in, document 01's number, and what stands in the lent output afterwards: a
// refusal leaves the EE that it was filled with.
use crate::print;
use frame_can::Refusal;
use std::io;
use std::io::Write;

// Document 01's number of an outcome.
fn number_of(outcome: Result<(), Refusal>) -> u8 {
    match outcome {
        Ok(()) => 0,
        Err(refusal) => refusal.number(),
    }
}

// Identifier and data to a frame.
pub fn to_frame<W: Write>(
    printer: &mut W,
    name: &str,
    identifier: u32,
    data: &[u8],
    frame: &mut [u8],
) -> io::Result<()> {
    let outcome = frame_can::to_hapcan(identifier, data, frame);
    print::identifier(printer, name, identifier)?;
    print::bytes(printer, " with", data)?;
    print::answer(printer, number_of(outcome), ", frame", frame)
}

// A frame to identifier and data.
pub fn to_identifier<W: Write>(
    printer: &mut W,
    name: &str,
    frame: &[u8],
    data: &mut [u8],
) -> io::Result<()> {
    let (number, identifier) = match frame_can::to_can(frame, data) {
        Ok(identifier) => (0, identifier),
        Err(refusal) => (refusal.number(), 0),
    };
    print::bytes(printer, name, frame)?;
    write!(printer, " gives {number}")?;
    print::identifier(printer, ", identifier ", identifier)?;
    print::bytes(printer, " with", data)?;
    writeln!(printer)
}

// A frame wrapped for UART.
pub fn wrapping<W: Write>(
    printer: &mut W,
    name: &str,
    frame: &[u8],
    wrapped: &mut [u8],
) -> io::Result<()> {
    let outcome = frame_uart::wrap(frame, wrapped);
    print::bytes(printer, name, frame)?;
    print::answer(printer, number_of(outcome), ", wrapped", wrapped)
}

// What came on UART, unwrapped.
pub fn unwrapping<W: Write>(
    printer: &mut W,
    name: &str,
    wrapped: &[u8],
    frame: &mut [u8],
) -> io::Result<()> {
    let outcome = frame_uart::unwrap(wrapped, frame);
    print::bytes(printer, name, wrapped)?;
    print::answer(printer, number_of(outcome), ", frame", frame)
}
