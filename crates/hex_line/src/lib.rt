// A line of an Intel HEX text, read as a record.
#![tactic(auto)]

mod digits;
mod ends;

ghost use Rattle.std.specs.Prelude.{◌≡◌};
ghost use Rattle.hex_rules.specs.Record.{bad_count};
ghost use Rattle.hex_line.specs.Internal.Lines.{line_at};

// A line that is a record in form: the place behind its ending, and its bytes, filled up with 0.
#[derive(Clone, Copy)]
pub struct Line {
    pub next: usize,
    // Room for the longest record, whose own count says how many bytes are its own: memory is fixed (docs/landings/06-a5.md).
    pub bytes: [u8; 260],
}

// Whether a record's type wants another count of data bytes: none for 01, two for 04.
fn bad_count(bytes: &[u8; 260]) -> bool
    ensures { result ≡ bad_count bytes.now }
{
    match bytes[3] {
        0x01 => bytes[0] != 0,
        0x04 => bytes[0] != 2,
        _ => false,
    }
}

// Reads the line that starts at a place of the text; none where it has a bad digit or a bad length.
pub fn line_at(text: &[u8], at: usize) -> Option<Line>
    ensures { result ≡ line_at text.now at }
{
    let rest = text.get(at..)?;
    let count = ends::count_at(rest)?;
    let size = 11 + 2 * count as usize;
    let digits = rest.get(1..size)?;
    let ending = ends::ending_at(&rest[size..])?;
    let bytes = digits::pairs_of(digits)?;
    if bad_count(&bytes) {
        return None;
    }
    Some(Line {
        next: at + size + ending,
        bytes,
    })
}
