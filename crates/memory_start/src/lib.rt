// What the two flags say of a FLASH, and whether its firmware starts.
#![tactic(auto)]

ghost use Rattle.std.specs.Prelude.{◌≡◌};
ghost use Rattle.memory_start.specs.Start.{cells_differ, flags_of, starts};
ghost use Rattle.memory_start.specs.Internal.Examining.{examined};

use memory_address::{FLASH_CELLS, THREE_CELLS};

// What is found of a FLASH: the worked-out sum, and the flag byte, whose bit 0 says that the sums differ and bit 1 that the three
// cells do. The flags stay one byte, as the reply 0x1F1 sends them.
#[derive(Clone, Copy)]
pub struct Examined {
    pub sum: u32,
    pub flags: u8,
}

// Whether the three cells, 0x001010 to 0x001012, are others than 30 00 03. A cell that isn't there counts as 0.
#[tactic(auto, unfolding(crate::specs::Start::cells_differ))]
fn cells_differ(flash: &[u8]) -> bool
    ensures { result ≡ cells_differ flash.now }
{
    let at = THREE_CELLS.0 as usize;
    let cells = [
        base::byte_at(flash, at),
        base::byte_at(flash, at + 1),
        base::byte_at(flash, at + 2),
    ];
    cells != [0x30, 0x00, 0x03]
}

// The flag byte: bit 0 for the sums, bit 1 for the three cells.
fn flags_of(sums: bool, cells: bool) -> u8
    ensures { result ≡ flags_of sums cells }
{
    u8::from(sums) + 2 * u8::from(cells)
}

// What is found of a FLASH of any length: the worked-out sum and the flag byte, as it is when asked. Of another length than 65,536 both
// sums are 0.
pub fn examine(flash: &[u8]) -> Examined
    ensures { result ≡ examined flash.now }
{
    let sum = memory_sum::firmware_sum(flash);
    let sums = memory_sum::stored_sum(flash) != sum;
    let cells = cells_differ(flash);
    let flags = flags_of(sums, cells);
    Examined { sum, flags }
}

// Whether firmware starts: the three cells are 30 00 03 and the stored sum equals the firmware sum, so that no flag is set. Where the
// cells differ nothing is added up. Never where FLASH has another length than 65,536.
pub fn firmware_starts(flash: &[u8]) -> bool
    ensures { result ≡ starts flash.now }
{
    if flash.len() != FLASH_CELLS {
        return false;
    }
    !cells_differ(flash) && memory_sum::stored_sum(flash) == memory_sum::firmware_sum(flash)
}
