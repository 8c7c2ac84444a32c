// Reads a stream of recipes (second/PROTOCOL.md) from standard input, has the proved translator translate each, hands the frames to
// the proved node and prints what that page says.
#![tactic(auto)]

mod apply;
mod hand;
mod header;
mod line;
mod pieces;
mod start;

use base::byte_at;
use header::Header;
use run_stream::{lent, part};
use std::io;
use std::io::{BufReader, BufWriter, Read, Write};

// One recipe: its bytes are read, and its line is printed.
fn handle<R: Read, W: Write>(
    input: &mut R,
    printer: &mut W,
    at: u64,
    h: Header,
    space: &mut [u8],
    output: &mut [u8],
    serial: &mut [u8],
    flash: &mut [u8],
    eeprom: &mut [u8],
) -> io::Result<()> {
    run_stream::read_padded(input, h.length, space)?;
    let recipe = part(space, 0, h.length);
    let out = lent(output, h.room);
    let l = apply::recipe(h, recipe, out, serial, flash, eeprom);
    line::print(printer, at, l)
}

// The whole stream: a header, and the recipe behind it; or a record that says which way after noise is meant from there on where nothing is
// said of it. Each program of a stream has buffers of its own: one loop for all is no plainer.
fn stream<R: Read, W: Write>(
    input: &mut R,
    printer: &mut W,
    space: &mut [u8],
    output: &mut [u8],
    serial: &mut [u8],
    flash: &mut [u8],
    eeprom: &mut [u8],
) -> io::Result<()> {
    let mut record = [0u8; run_stream::RECORD];
    let mut at: u64 = 0;
    let mut old = false;
    run_stream::each_piece(input, &mut record, |input, record| {
        if byte_at(record, 0) == 0x21 {
            old = 1 < byte_at(record, 1);
            return Ok(());
        }
        at = at.wrapping_add(1);
        handle(
            input,
            printer,
            at,
            header::read(record, old),
            space,
            output,
            serial,
            flash,
            eeprom,
        )
    })
}

fn main(rt: HostRuntime) -> io::Result<()> {
    let alloc = rt.alloc();
    let mut space = vec![in alloc; 0u8; 139_264]?;
    let mut output = vec![in alloc; 0u8; 441_948]?;
    let mut serial = vec![in alloc; 0u8; 552_435]?;
    let mut flash = vec![in alloc; 0u8; 65536]?;
    let mut eeprom = vec![in alloc; 0u8; 1024]?;
    let mut input = BufReader::new(alloc, rt.reader())?;
    let mut printer = BufWriter::new(alloc, io::writer(&rt))?;
    stream(
        &mut input,
        &mut printer,
        &mut space,
        &mut output,
        &mut serial,
        &mut flash,
        &mut eeprom,
    )?;
    printer.flush()
}
