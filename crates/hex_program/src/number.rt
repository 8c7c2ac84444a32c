// A number as an argument writes it: decimal, or hexadecimal behind `0x`.
ghost use Rattle.std.specs.Prelude.{◌≡◌, ◌≤◌};
ghost use Rattle.hex_program.specs.Internal.Numbers.{value_of, number_of};

// The number from 0 to 255 that digits of this base write; leading zeros change nothing. No digits write none.
fn value(word: &[u8], base: u32) -> Option<u8>
    requires { (2 ≤ base) × (base ≤ 16) }
    ensures { result ≡ value_of base word.now }
{
    if word.is_empty() {
        return None;
    }
    let mut value = 0;
    for c in word {
        value = base * value + char::from(*c).to_digit(base)?;
        if value > 255 {
            return None;
        }
    }
    Some(value as u8)
}

// The number that a word writes.
pub fn number(word: &[u8]) -> Option<u8>
    ensures { result ≡ number_of word.now }
{
    match word.strip_prefix(b"0x") {
        Some(digits) => value(digits, 16),
        None => value(word, 10),
    }
}
