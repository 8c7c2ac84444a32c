// Reads a stream of recipes with images (second/PROTOCOL.md) from standard input, has the proved call make each shorter and prints what
// that page says.
#![tactic(auto)]

mod header;
mod line;
mod patches;

use differs_rules::Kept;
use header::Header;
use line::Line;
use run_stream::{lent, part};
use std::io;
use std::io::{BufReader, BufWriter, Read, Write};

// The line of a recipe over an image, with the output that is lent for the shorter one.
fn shortened(recipe: &[u8], image: &[u8], output: &mut [u8]) -> Line {
    output.fill(0xEE);
    let (number, value, erases) = match differs_write::differences(recipe, image, output) {
        Ok(Kept { erases, size }) => (0, size, erases),
        Err(refusal) => (refusal.fault.number(), refusal.place, 0),
    };
    Line {
        number,
        value,
        erases,
        output: run_digest::with_bytes(0, output),
    }
}

// The image: filled, and the patches put that the stream has for it.
fn read_image<R: Read>(input: &mut R, h: Header, image: &mut [u8]) -> io::Result<()> {
    run_stream::fill(image, h.fill, h.step, h.more);
    patches::read(input, h.patches, image)
}

// One recipe: its bytes and its image are read, and its line is printed.
fn handle<R: Read, W: Write>(
    input: &mut R,
    printer: &mut W,
    at: u64,
    h: Header,
    space: &mut [u8],
    cells: &mut [u8],
    output: &mut [u8],
) -> io::Result<()> {
    run_stream::read_padded(input, h.length, space)?;
    let image = lent(cells, h.cells);
    read_image(input, h, image)?;
    let recipe = part(space, 0, h.length);
    let l = shortened(recipe, image, lent(output, h.room));
    line::print(printer, at, l)
}

// The whole stream: a header, and the recipe and the patches behind it. Each program of a stream has buffers of its own: one loop for
// all is no plainer.
fn stream<R: Read, W: Write>(
    input: &mut R,
    printer: &mut W,
    space: &mut [u8],
    cells: &mut [u8],
    output: &mut [u8],
) -> io::Result<()> {
    let mut record = [0u8; run_stream::RECORD];
    let mut at: u64 = 0;
    run_stream::each_piece(input, &mut record, |input, record| {
        at = at.wrapping_add(1);
        handle(
            input,
            printer,
            at,
            header::read(record),
            space,
            cells,
            output,
        )
    })
}

fn main(rt: HostRuntime) -> io::Result<()> {
    let alloc = rt.alloc();
    let mut space = vec![in alloc; 0u8; 139_264]?;
    let mut cells = vec![in alloc; 0u8; 131_136]?;
    let mut output = vec![in alloc; 0u8; 139_264]?;
    let mut input = BufReader::new(alloc, rt.reader())?;
    let mut printer = BufWriter::new(alloc, io::writer(&rt))?;
    stream(
        &mut input,
        &mut printer,
        &mut space,
        &mut cells,
        &mut output,
    )?;
    printer.flush()
}
