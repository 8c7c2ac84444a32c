// Where a line starts and where it ends.
ghost use Rattle.std.specs.Prelude.{◌≡◌};
ghost use Rattle.hex_line.specs.Internal.Reading.{count_at, ending_at};

// The count of data bytes that a line says, which starts with a colon and two digits; none where it doesn't, or where fewer characters are
// left than the shortest record has.
pub fn count_at(text: &[u8]) -> Option<u8>
    ensures { result ≡ count_at text.now }
{
    if text.len() < 11 {
        return None;
    }
    if text[0] != b':' {
        return None;
    }
    crate::digits::byte_of(text[1], text[2])
}

// How many characters end a line here: none at the end of the text, one for LF, two for CR LF; none else ends it.
pub fn ending_at(behind: &[u8]) -> Option<usize>
    ensures { result ≡ ending_at behind.now }
{
    match behind {
        [] => Some(0),
        [b'\n', ..] => Some(1),
        [b'\r', b'\n', ..] => Some(2),
        _ => None,
    }
}
