// The sum that a wrapping carries.
#![tactic(auto)]

ghost use Rattle.std.specs.Prelude.{◌≡◌, ◌%◌};
ghost use Rattle.base.specs.Parts.{sum_of};

// The sum of the bytes, modulo 256.
pub fn sum_of(bytes: &[u8]) -> u8
    ensures { result ≡ sum_of bytes.now % 256 }
{
    bytes.iter().fold(0u8, |sum, b| sum.wrapping_add(*b))
}
