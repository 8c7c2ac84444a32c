// How a stream is taken in: whole pieces, and a shorter one only at the end; the pieces one by one; and parts and numbers of what came.
#![tactic(auto)]

ghost use Rattle.std.specs.Prelude.{◌≡◌, ◌+◌, ◌<◌, ◌≤◌, IfOk, OnOk, length, take, drop};
ghost use Rattle.std.specs.Int.{w16, w32, from_be_bytes};
ghost use Rattle.std.specs.Io.{ReadsAtMost};
ghost use Rattle.std.specs.Io.KnownBytes.{Consumes, IsAtEnd};
ghost use Rattle.run_stream.specs.Internal.Parts.{place_in};
ghost use Rattle.run_stream.specs.Internal.Pieces.{fewest, Whole};
ghost use Rattle.run_stream.specs.Internal.Filling.{next_cell, filled};

use std::io;
use std::io::Read;

// The bytes of a record (second/PROTOCOL.md).
pub const RECORD: usize = 64;

// Reads until the bytes are full or the input ends; answers how many were read.
pub fn read_full<R: Read>(input: &mut R, bytes: &mut [u8]) -> io::Result<usize>
    ensures within { ReadsAtMost result bytes.new }
    ensures read { IfOk result (λ n. Consumes (R.remaining input.old) (R.remaining input.new) (take n bytes.new)) }
    ensures end { IfOk result (λ n. n < length bytes.new → IsAtEnd (R.remaining input.new)) }
{
    let mut done = 0;
    // A while: each read says how far it went, so no index is counted.
    while done < bytes.len() {
        let more = input.read(&mut bytes[done..])?;
        if more == 0 {
            break;
        }
        done += more;
    }
    Ok(done)
}

// Fewer bytes than this end a stream that is read in pieces of so many: than a record where a piece is no longer than one, else than one.
fn fewest(room: usize) -> usize
    ensures { result ≡ fewest room }
{
    if room <= RECORD { RECORD } else { 1 }
}

// Reads the stream piece by piece, as many bytes as `piece` has or, at the end, fewer, and has each handled. A piece of one record ends the
// stream where it isn't whole; a longer one ends it only where nothing comes, however few bytes came before.
// A loop has to end, so turns are counted, up to a number that no stream uses up.
pub fn each_piece<R: Read, F: FnMut(&mut R, &[u8]) -> io::Result<()>>(
    input: &mut R,
    piece: &mut [u8],
    mut handle: F,
) -> io::Result<()>
    requires { F.IsAlwaysCallable handle }
    ensures { OnOk result (Whole F.FnMut R.remaining (length piece.old) handle input.old input.new) }
{
    let fewest = fewest(piece.len());
    for _ in 0..0xFFFFFFFFu32 {
        let n = read_full(input, piece)?;
        if n < fewest {
            break;
        }
        handle(input, &piece[..n])?;
    }
    Ok(())
}

// The n bytes from `from` on, or as many as there are: those bytes themselves, where they lie.
pub fn part(bytes: &[u8], from: usize, n: usize) -> &[u8]
    ensures bytes { result.now ≡ take n (drop from bytes.now) }
    ensures place { result.ref_ptr ≡ place_in bytes.entry from }
{
    let from = from.min(bytes.len());
    let rest = &bytes[from..];
    &rest[..n.min(rest.len())]
}

// The first n bytes, to be written, or as many as there are: those bytes themselves, where they lie.
pub fn lent(bytes: &mut [u8], n: usize) -> &mut [u8]
    ensures bytes { result.now ≡ take n bytes.old }
    ensures place { result.ref_ptr ≡ bytes.entry.ref_ptr }
{
    let n = n.min(bytes.len());
    &mut bytes[..n]
}

// Reads so many bytes, with what fills them up to whole records, into a space; nothing where the space has no room for them.
pub fn read_padded<R: Read>(input: &mut R, n: usize, space: &mut [u8]) -> io::Result<()>
    ensures { length space.old < n → space.new ≡ space.old }
{
    if n <= space.len() {
        let whole = n.div_ceil(RECORD) * RECORD;
        read_full(input, lent(space, whole))?;
    }
    Ok(())
}

// The four bytes from i on as a number, high byte first; 0 where fewer are left.
pub fn number(bytes: &[u8], i: usize) -> u32
    ensures whole { i + 4 ≤ length bytes.now → result ≡ from_be_bytes w32 (take 4 (drop i bytes.now)) }
    ensures cut { length bytes.now < i + 4 → result ≡ 0 }
{
    match part(bytes, i, 4).first_chunk() {
        Some(four) => u32::from_be_bytes(*four),
        None => 0,
    }
}

// The two bytes from i on as a number, high byte first; 0 where fewer are left.
pub fn short(bytes: &[u8], i: usize) -> u16
    ensures whole { i + 2 ≤ length bytes.now → result ≡ from_be_bytes w16 (take 2 (drop i bytes.now)) }
    ensures cut { length bytes.now < i + 2 → result ≡ 0 }
{
    match part(bytes, i, 2).first_chunk() {
        Some(two) => u16::from_be_bytes(*two),
        None => 0,
    }
}

// What the cell at i becomes, behind one that became `value`.
fn next(value: u8, i: usize, step: u8, more: u8) -> u8
    ensures { result ≡ next_cell value i step more }
{
    let next = value.wrapping_add(step);
    if i % 256 == 0 {
        return next.wrapping_add(more);
    }
    next
}

// The first cell becomes v, and each the one before it plus `step`, plus `more` too at each 256th.
pub fn fill(cells: &mut [u8], v: u8, step: u8, more: u8)
    ensures { cells.new ≡ filled (length cells.old) 0 v step more }
{
    let mut value = v;
    // By index: of a cell that comes through iter_mut the proof knows nothing.
    for i in 0..cells.len() {
        cells[i] = value;
        value = next(value, i + 1, step, more);
    }
}
