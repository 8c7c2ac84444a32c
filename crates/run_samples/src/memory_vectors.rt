// The address rule's samples, a write, rows shown, and the sums of a blank FLASH.
use crate::memory_lines;
use memory_address::{ERASE, READ, WRITE};
use std::io;
use std::io::Write;

// S5 to S9.
fn samples<W: Write>(printer: &mut W) -> io::Result<()> {
    memory_lines::legal(printer, "S5 write at ", WRITE, 0x00FFF8)?;
    memory_lines::legal(printer, "S6 write at ", WRITE, 0x000FF8)?;
    memory_lines::legal(printer, "S6 write at ", WRITE, 0x010000)?;
    memory_lines::legal(printer, "S7 erase at ", ERASE, 0x00FFC0)?;
    memory_lines::legal(printer, "S8 erase at ", ERASE, 0x00FFC8)?;
    memory_lines::legal(printer, "S8 erase at ", ERASE, 0xF00000)?;
    memory_lines::legal(printer, "S9 write at ", WRITE, 0xF003F8)?;
    memory_lines::legal(printer, "S9 write at ", WRITE, 0xF00400)
}

// An erase 56 cells past the rim, reads, a number above 24 bits, and a command that is none.
fn more<W: Write>(printer: &mut W) -> io::Result<()> {
    memory_lines::legal(printer, "past the end: erase at ", ERASE, 0x00FFF8)?;
    memory_lines::legal(printer, "first row: read at ", READ, 0x001000)?;
    memory_lines::legal(printer, "no multiple of 8: read at ", READ, 0x001004)?;
    memory_lines::legal(printer, "above 24 bits: read at ", READ, 0x1001000)?;
    memory_lines::legal(printer, "no command: 0x04 at ", 0x04, 0x001000)
}

// S10, in eight cells.
fn combine<W: Write>(printer: &mut W) -> io::Result<()> {
    let mut cells = [0x0Fu8; 8];
    memory_lines::written(printer, "S10", &[0xF3u8; 8], &mut cells)
}

// Rows of two memories, legal and illegal to read.
fn shown<'a, W: Write>(printer: &mut W, flash: &'a [u8], eeprom: &'a [u8]) -> io::Result<()> {
    memory_lines::shown(printer, "written: row at ", flash, eeprom, 0x001000)?;
    memory_lines::shown(printer, "blank: row at ", flash, eeprom, 0x00FFF8)?;
    memory_lines::shown(printer, "written: row at ", flash, eeprom, 0xF00030)?;
    memory_lines::shown(printer, "blank: row at ", flash, eeprom, 0xF003F8)?;
    memory_lines::shown(printer, "below the rim: row at ", flash, eeprom, 0x000FF8)?;
    memory_lines::shown(printer, "behind EEPROM: row at ", flash, eeprom, 0xF00400)?;
    memory_lines::shown(
        printer,
        "EEPROM lent as FLASH: row at ",
        eeprom,
        eeprom,
        0x001000,
    )
}

// A row written in each of two memories, and shown.
fn written<W: Write>(printer: &mut W, flash: &mut [u8], eeprom: &mut [u8]) -> io::Result<()> {
    let new = [0x41u8, 0x42, 0x43, 0x44, 0x45, 0x46, 0x47, 0x48];
    let _ = memory_cells::write_flash(flash, memory_address::STORED_SUM, new);
    let _ = memory_cells::write_eeprom(eeprom, memory_address::DESCRIPTION, new);
    shown(printer, flash, eeprom)
}

// Blank memories, and a row written in each.
fn rows<W: Write>(printer: &mut W) -> io::Result<()> {
    let mut flash = [0xFFu8; 65536];
    let mut eeprom = [0xFFu8; 1024];
    written(printer, &mut flash, &mut eeprom)
}

// The sums of a blank FLASH, and of none.
fn sums<W: Write>(printer: &mut W) -> io::Result<()> {
    let flash = [0xFFu8; 65536];
    memory_lines::sums(printer, "blank FLASH: sum ", &flash)?;
    memory_lines::sums(printer, "no FLASH: sum ", b"")
}

// All of them.
pub fn run<W: Write>(printer: &mut W) -> io::Result<()> {
    samples(printer)?;
    more(printer)?;
    combine(printer)?;
    rows(printer)?;
    sums(printer)
}
