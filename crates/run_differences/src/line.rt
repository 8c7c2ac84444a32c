// The line of a recipe.
use std::io;
use std::io::Write;

// What a line says beside the recipe's place in the stream. A number and a value, no Result: second/PROTOCOL.md has both in each line.
#[derive(Clone, Copy)]
pub struct Line {
    pub number: u8,
    pub value: usize,
    pub erases: usize,
    pub output: u64,
}

// Prints the line of the recipe with this place in the stream, from 1.
pub fn print<W: Write>(printer: &mut W, at: u64, line: Line) -> io::Result<()> {
    let Line {
        number,
        value,
        erases,
        output,
    } = line;
    writeln!(
        printer,
        "differences {at} number {number} value {value} erases {erases} output {output}"
    )
}
