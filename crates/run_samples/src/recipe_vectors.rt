// S11, and two refusals: of an item, and of the output. Each output is lent filled with EE.
use crate::recipe_lines::translation;
use std::io;
use std::io::Write;

// All of them: 36 bytes are room for three frames, and 35 one byte too few.
pub fn run<W: Write>(printer: &mut W) -> io::Result<()> {
    translation(
        printer,
        "S11 recipe",
        b"\x01\x05\x0A\x03\xF0\x00\x30\x41\x42\x43\x44\x45\x46\x47\x48\x0F",
        &mut [0xEE; 36],
    )?;
    translation(
        printer,
        "Row in FLASH: recipe",
        b"\x01\x05\x0A\x03\x00\x10\x00\x41\x42\x43\x44\x45\x46\x47\x48\x0F",
        &mut [0xEE; 36],
    )?;
    translation(
        printer,
        "output of 35: recipe",
        b"\x01\x05\x0A\x03\xF0\x00\x30\x41\x42\x43\x44\x45\x46\x47\x48\x0F",
        &mut [0xEE; 35],
    )
}
