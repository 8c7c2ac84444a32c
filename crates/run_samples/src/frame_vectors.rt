// Frame vectors of document 01, both ways, and what is refused. Each output is lent filled with EE.
use crate::frame_lines::{to_frame, to_identifier, unwrapping, wrapping};
use std::io;
use std::io::Write;

// The data that identifiers go with.
const DATA: [u8; 8] = [0x00, 0x01, 0x02, 0x03, 0x04, 0x05, 0x06, 0x07];

// S1, S2, an identifier of more than 29 bits, and lengths that are refused.
fn converts<W: Write>(printer: &mut W) -> io::Result<()> {
    to_frame(
        printer,
        "S1 identifier ",
        0x0200F0F0,
        &DATA,
        &mut [0xEE; 12],
    )?;
    to_frame(
        printer,
        "S2 identifier ",
        0x1FFFFFFF,
        &DATA,
        &mut [0xEE; 12],
    )?;
    to_frame(
        printer,
        "above 29 bits: identifier ",
        0x20000000,
        &DATA,
        &mut [0xEE; 12],
    )?;
    to_frame(
        printer,
        "7 data bytes: identifier ",
        0x0200F0F0,
        &DATA[..7],
        &mut [0xEE; 12],
    )?;
    to_frame(
        printer,
        "output of 11: identifier ",
        0x0200F0F0,
        &DATA,
        &mut [0xEE; 11],
    )
}

// S1 and S2 back, and a frame with the response flag.
fn backs<W: Write>(printer: &mut W) -> io::Result<()> {
    to_identifier(
        printer,
        "S1 frame",
        b"\x10\x00\xF0\xF0\x00\x01\x02\x03\x04\x05\x06\x07",
        &mut [0xEE; 8],
    )?;
    to_identifier(
        printer,
        "S2 frame",
        b"\xFF\xF1\xFF\xFF\x07\x06\x05\x04\x03\x02\x01\x00",
        &mut [0xEE; 8],
    )?;
    to_identifier(
        printer,
        "response flag: frame",
        b"\x10\x01\x05\x0A\xFF\xFF\x03\x04\xFF\xFF\xFF\xFF",
        &mut [0xEE; 8],
    )
}

// Upper flags and lengths that are refused.
fn backs_refused<W: Write>(printer: &mut W) -> io::Result<()> {
    to_identifier(
        printer,
        "upper flag: frame",
        b"\x10\x02\xF0\xF0\x00\x01\x02\x03\x04\x05\x06\x07",
        &mut [0xEE; 8],
    )?;
    to_identifier(
        printer,
        "upper flag: frame",
        b"\x10\x08\xF0\xF0\x00\x01\x02\x03\x04\x05\x06\x07",
        &mut [0xEE; 8],
    )?;
    to_identifier(
        printer,
        "11 bytes: frame",
        b"\x10\x00\xF0\xF0\x00\x01\x02\x03\x04\x05\x06",
        &mut [0xEE; 8],
    )?;
    to_identifier(
        printer,
        "output of 7: frame",
        b"\x10\x00\xF0\xF0\x00\x01\x02\x03\x04\x05\x06\x07",
        &mut [0xEE; 7],
    )
}

// The wrappings of S3 and S4, of upper flags, which are not looked at, and lengths that are refused.
fn wraps<W: Write>(printer: &mut W) -> io::Result<()> {
    wrapping(
        printer,
        "S3 frame",
        b"\x10\x00\xF0\xF0\xFF\xFF\x05\x0A\xFF\xFF\xFF\xFF",
        &mut [0xEE; 15],
    )?;
    wrapping(
        printer,
        "S4 frame",
        b"\x10\x01\x05\x0A\xFF\xFF\x03\x04\xFF\xFF\xFF\xFF",
        &mut [0xEE; 15],
    )?;
    wrapping(
        printer,
        "upper flags: frame",
        b"\x10\x0E\xF0\xF0\xFF\xFF\x05\x0A\xFF\xFF\xFF\xFF",
        &mut [0xEE; 15],
    )?;
    wrapping(
        printer,
        "11 bytes: frame",
        b"\x10\x00\xF0\xF0\xFF\xFF\x05\x0A\xFF\xFF\xFF",
        &mut [0xEE; 15],
    )?;
    wrapping(
        printer,
        "output of 14: frame",
        b"\x10\x00\xF0\xF0\xFF\xFF\x05\x0A\xFF\xFF\xFF\xFF",
        &mut [0xEE; 14],
    )
}

// S3 and S4 unwrapped.
fn unwraps<W: Write>(printer: &mut W) -> io::Result<()> {
    unwrapping(
        printer,
        "S3 wrapped",
        b"\xAA\x10\x00\xF0\xF0\xFF\xFF\x05\x0A\xFF\xFF\xFF\xFF\xF9\xA5",
        &mut [0xEE; 12],
    )?;
    unwrapping(
        printer,
        "S4 wrapped",
        b"\xAA\x10\x01\x05\x0A\xFF\xFF\x03\x04\xFF\xFF\xFF\xFF\x21\xA5",
        &mut [0xEE; 12],
    )
}

// Start, sum, stop and lengths that are refused.
fn unwraps_refused<W: Write>(printer: &mut W) -> io::Result<()> {
    unwrapping(
        printer,
        "wrong start: wrapped",
        b"\xAB\x10\x00\xF0\xF0\xFF\xFF\x05\x0A\xFF\xFF\xFF\xFF\xF9\xA5",
        &mut [0xEE; 12],
    )?;
    unwrapping(
        printer,
        "wrong sum: wrapped",
        b"\xAA\x10\x00\xF0\xF0\xFF\xFF\x05\x0A\xFF\xFF\xFF\xFF\xF8\xA5",
        &mut [0xEE; 12],
    )?;
    unwrapping(
        printer,
        "wrong stop: wrapped",
        b"\xAA\x10\x00\xF0\xF0\xFF\xFF\x05\x0A\xFF\xFF\xFF\xFF\xF9\xA4",
        &mut [0xEE; 12],
    )?;
    unwrapping(
        printer,
        "14 bytes: wrapped",
        b"\xAA\x10\x00\xF0\xF0\xFF\xFF\x05\x0A\xFF\xFF\xFF\xFF\xF9",
        &mut [0xEE; 12],
    )?;
    unwrapping(
        printer,
        "wrong sum, output of 11: wrapped",
        b"\xAA\x10\x00\xF0\xF0\xFF\xFF\x05\x0A\xFF\xFF\xFF\xFF\xF8\xA5",
        &mut [0xEE; 11],
    )
}

// All of them.
pub fn run<W: Write>(printer: &mut W) -> io::Result<()> {
    converts(printer)?;
    backs(printer)?;
    backs_refused(printer)?;
    wraps(printer)?;
    unwraps(printer)?;
    unwraps_refused(printer)
}
