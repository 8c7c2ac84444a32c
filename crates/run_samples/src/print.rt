// What the lines are made of: numbers as document 01 writes them, and bytes as upper-case pairs.
use std::io;
use std::io::Write;

// A word, and the bytes that it is about: each as two digits, with a blank in front.
pub fn bytes<W: Write>(printer: &mut W, word: &str, all: &[u8]) -> io::Result<()> {
    write!(printer, "{word}")?;
    for byte in all {
        write!(printer, " {byte:02X}")?;
    }
    Ok(())
}

// A word, and an address or a sum: 0x and six digits, or eight where six do not hold it.
pub fn hex<W: Write>(printer: &mut W, word: &str, number: u32) -> io::Result<()> {
    if number > 0xFFFFFF {
        return identifier(printer, word, number);
    }
    write!(printer, "{word}0x{number:06X}")
}

// A word, and an identifier: 0x and eight digits.
pub fn identifier<W: Write>(printer: &mut W, word: &str, number: u32) -> io::Result<()> {
    write!(printer, "{word}0x{number:08X}")
}

// What a call answers, and what stands in its output afterwards.
pub fn answer<W: Write>(printer: &mut W, number: u8, word: &str, output: &[u8]) -> io::Result<()> {
    write!(printer, " gives {number}")?;
    bytes(printer, word, output)?;
    writeln!(printer)
}
