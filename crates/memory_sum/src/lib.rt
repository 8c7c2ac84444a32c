// The firmware sum and the stored sum.
#![tactic(auto)]

ghost use Rattle.std.specs.Prelude.{◌≡◌, ◌≤◌, ◌+◌, ◌*◌, length};
ghost use Rattle.base.specs.Parts.{sum_of};
ghost use Rattle.memory_sum.specs.Sum.{firmware_sum, stored_sum_of};

use memory_address::{FIRST_SUMMED, FLASH_CELLS, PAST_SUMMED, STORED_SUM};

// A sum with the cells of a part added to it, singly.
fn added_singly(sum: u32, s: &[u8]) -> u32
    requires { sum + 255 * length s.now ≤ 4294967295 }
    ensures { (result ≡ sum + sum_of s.now) × (result ≤ sum + 255 * length s.now) }
{
    let mut all = sum;
    for cell in s {
        all += u32::from(*cell);
    }
    all
}

// The sum of the cells of a part: eight cells a turn, the remainder singly, as request A3 says (docs/BENCH.md, "The firmware sum").
fn sum_of(s: &[u8]) -> u32
    requires { length s.now ≤ 65536 }
    ensures { (result ≡ sum_of s.now) × (result ≤ 255 * length s.now) }
{
    let eights = s.chunks_exact(8);
    let remainder = eights.remainder();
    let mut sum = 0;
    for eight in eights {
        sum = added_singly(sum, eight);
    }
    added_singly(sum, remainder)
}

// A number and no Option in both sums: `firmware_sum` and `stored_sum_of` of specs say 0 where FLASH has another length.
// The firmware sum: all cells 0x001003 to 0x007FFF. It never passes 24 bits. 0 where FLASH has another length than 65,536.
pub fn firmware_sum(flash: &[u8]) -> u32
    ensures { (result ≡ firmware_sum flash.now) × (result ≤ 7310595) }
{
    if flash.len() != FLASH_CELLS {
        return 0;
    }
    let first = FIRST_SUMMED.0 as usize;
    let past = PAST_SUMMED.0 as usize;
    sum_of(&flash[first..past])
}

// The stored sum: cells 0x001000 to 0x001002, high byte first. 0 where FLASH has another length than 65,536.
pub fn stored_sum(flash: &[u8]) -> u32
    ensures { result ≡ stored_sum_of flash.now }
{
    if flash.len() != FLASH_CELLS {
        return 0;
    }
    let at = STORED_SUM.0 as usize;
    u32::from_be_bytes([0, flash[at], flash[at + 1], flash[at + 2]])
}
