// The line of a recipe.
use std::io;
use std::io::Write;

// What a line says beside the recipe's place in the stream. A number and a place, no Result: second/PROTOCOL.md has both in each line.
#[derive(Clone, Copy)]
pub struct Line {
    pub number: u8,
    pub place: usize,
    pub frames: u64,
    pub answers: u64,
    pub flash: u64,
    pub eeprom: u64,
    pub node: u64,
}

// Prints the line of the recipe with this place in the stream, from 1.
pub fn print<W: Write>(printer: &mut W, at: u64, line: Line) -> io::Result<()> {
    let Line {
        number,
        place,
        frames,
        answers,
        flash,
        eeprom,
        node,
    } = line;
    write!(
        printer,
        "recipe {at} number {number} place {place} frames {frames} answers {answers}"
    )?;
    writeln!(printer, " flash {flash} eeprom {eeprom} node {node}")
}
