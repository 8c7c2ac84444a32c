// Lines for the address rule, the write, the rows shown and the sums.
use crate::print;
use memory_address::Address;
use std::io;
use std::io::Write;

// What the address rule says of a command at a number; `name` has the command's name in it.
pub fn legal<W: Write>(printer: &mut W, name: &str, command: u32, at: u32) -> io::Result<()> {
    print::hex(printer, name, at)?;
    match memory_address::rule(at, command) {
        Some(Address::Flash(_)) => writeln!(printer, " is legal in FLASH"),
        Some(Address::Eeprom(_)) => writeln!(printer, " is legal in EEPROM"),
        None => writeln!(printer, " is illegal"),
    }
}

// Bytes written over eight cells of FLASH.
pub fn written<W: Write>(
    printer: &mut W,
    name: &str,
    new: &[u8],
    cells: &mut [u8],
) -> io::Result<()> {
    print::bytes(printer, name, new)?;
    print::bytes(printer, " written over", cells)?;
    memory_cells::write_flash_cells(cells, new);
    print::bytes(printer, " leaves", cells)?;
    writeln!(printer)
}

// The row at an address, with the number that goes with it.
pub fn shown<'a, W: Write>(
    printer: &mut W,
    name: &str,
    flash: &'a [u8],
    eeprom: &'a [u8],
    at: u32,
) -> io::Result<()> {
    let number = memory_row::show_number(flash, eeprom, at);
    print::hex(printer, name, at)?;
    print::answer(
        printer,
        number,
        ", cells",
        memory_row::show_row(flash, eeprom, at),
    )
}

// Both sums of a FLASH, and whether its firmware starts.
pub fn sums<W: Write>(printer: &mut W, name: &str, flash: &[u8]) -> io::Result<()> {
    print::hex(printer, name, memory_sum::firmware_sum(flash))?;
    print::hex(printer, ", stored ", memory_sum::stored_sum(flash))?;
    if memory_start::firmware_starts(flash) {
        writeln!(printer, ", start")
    } else {
        writeln!(printer, ", no start")
    }
}
