// Frames put into a lent output. Each function writes only the bytes that its contract names.
ghost use Rattle.std.specs.Prelude.{◌≡◌, ◌++◌, ◌+◌, ◌≤◌, ◌<◌, length};
ghost use Rattle.base.specs.Parts.{part, patch};
ghost use Rattle.recipe.specs.Items.{block, row};
ghost use Rattle.recipe.specs.Frames.{address_frame, data_frame, writes, item_frames, joined};

use memory_address::{EepromPlace, FlashAddress};
use recipe::Numbers;

// Puts a 0x030 frame and its 0x040 frame into the output at a byte.
pub fn put_pair(
    output: &mut [u8],
    at: usize,
    numbers: Numbers,
    command: u8,
    address: u32,
    cells: [u8; 8],
)
    requires { at + 24 ≤ length output.old }
    ensures { output.new
        ≡ patch output.old at (address_frame numbers.module.0 numbers.group.0 command address ++ data_frame numbers.module.0 numbers.group.0 cells) }
{
    base::put(
        output,
        at,
        &crate::frame::address_frame(numbers, command, address),
    );
    base::put(output, at + 12, &crate::frame::data_frame(numbers, cells));
}

// Puts the eight writes of a Block, upward, of the 64 bytes that the input has from a byte on.
pub fn put_writes(
    input: &[u8],
    from: usize,
    output: &mut [u8],
    at: usize,
    numbers: Numbers,
    address: u32,
)
    requires { (from + 64 ≤ length input.now) × (at + 192 ≤ length output.old) × (address < 0x1000000) }
    ensures { output.new
        ≡ patch output.old at (joined (writes numbers.module.0 numbers.group.0 8 address (part input.now from 64))) }
{
    // A range: the input's cells, the output's frames and the address go on by different steps of the same number.
    for i in 0..8 {
        put_pair(
            output,
            at + 24 * i,
            numbers,
            0x02,
            address + 8 * i as u32,
            base::eight(input, from + 8 * i),
        );
    }
}

// Puts the frames of the Block at a place: the erase, then the writes.
pub fn put_block(
    input: &[u8],
    place: usize,
    output: &mut [u8],
    at: usize,
    numbers: Numbers,
    address: FlashAddress,
)
    requires { (place + 68 ≤ length input.now) × (at + 216 ≤ length output.old) × (address.0 < 0x1000000) }
    ensures { output.new
        ≡ patch output.old at
        (joined (item_frames numbers.module.0 numbers.group.0 (block address.0 (part input.now (place + 4) 64)))) }
{
    let number = address.0;
    put_pair(output, at, numbers, 0x03, number, [0xFF; 8]);
    put_writes(input, place + 4, output, at + 24, numbers, number);
}

// Puts the frames of the Row at a place.
pub fn put_row(
    input: &[u8],
    place: usize,
    output: &mut [u8],
    at: usize,
    numbers: Numbers,
    address: EepromPlace,
)
    requires { (place + 12 ≤ length input.now) × (at + 24 ≤ length output.old) }
    ensures { output.new
        ≡ patch output.old at
        (joined (item_frames numbers.module.0 numbers.group.0 (row address.0 (part input.now (place + 4) 8)))) }
{
    put_pair(
        output,
        at,
        numbers,
        0x02,
        address.0,
        base::eight(input, place + 4),
    );
}
