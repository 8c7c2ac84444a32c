// Reads a stream of HEX texts (second/PROTOCOL.md) from standard input, has the proved call convert each and prints what that page says.
#![tactic(auto)]

mod header;
mod line;

use header::Header;
use line::Line;
use std::io;
use std::io::{BufReader, BufWriter, Read, Write};

// The line of a text, with the output that is lent for its recipe.
fn converted(h: Header, text: &[u8], output: &mut [u8]) -> Line {
    output.fill(0xEE);
    let (number, value) = match hex_read::convert(text, h.numbers, output) {
        Ok(size) => (0, size),
        Err(refusal) => (refusal.fault.number(), refusal.line),
    };
    Line {
        number,
        value,
        output: run_digest::with_bytes(0, output),
    }
}

// One text: its bytes are read, and its line is printed.
fn handle<R: Read, W: Write>(
    input: &mut R,
    printer: &mut W,
    at: u64,
    h: Header,
    space: &mut [u8],
    output: &mut [u8],
) -> io::Result<()> {
    run_stream::read_padded(input, h.length, space)?;
    let text = run_stream::part(space, 0, h.length);
    let l = converted(h, text, run_stream::lent(output, h.room));
    line::print(printer, at, l)
}

// The whole stream: a header, and the text behind it. Each program of a stream has buffers of its own: one loop for all is no plainer.
fn stream<R: Read, W: Write>(
    input: &mut R,
    printer: &mut W,
    space: &mut [u8],
    output: &mut [u8],
) -> io::Result<()> {
    let mut record = [0u8; run_stream::RECORD];
    let mut at: u64 = 0;
    run_stream::each_piece(input, &mut record, |input, record| {
        at = at.wrapping_add(1);
        handle(input, printer, at, header::read(record), space, output)
    })
}

fn main(rt: HostRuntime) -> io::Result<()> {
    let alloc = rt.alloc();
    let mut space = vec![in alloc; 0u8; 262_144]?;
    let mut output = vec![in alloc; 0u8; 70_000]?;
    let mut input = BufReader::new(alloc, rt.reader())?;
    let mut printer = BufWriter::new(alloc, io::writer(&rt))?;
    stream(&mut input, &mut printer, &mut space, &mut output)?;
    printer.flush()
}
