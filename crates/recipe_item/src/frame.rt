// The frames of 12 bytes that a recipe becomes.
ghost use Rattle.std.specs.Prelude.{◌≡◌};
ghost use Rattle.recipe.specs.Frames.{address_frame, data_frame, leave_frame};

use recipe::Numbers;

// A 0x030 frame: the address of a command.
pub fn address_frame(numbers: Numbers, command: u8, a: u32) -> [u8; 12]
    ensures { result ≡ address_frame numbers.module.0 numbers.group.0 command a }
{
    let [_, high, middle, low] = a.to_be_bytes();
    [
        0x03,
        0x00,
        numbers.module.0,
        numbers.group.0,
        high,
        middle,
        low,
        0xFF,
        0xFF,
        command,
        0xFF,
        0xFF,
    ]
}

// A 0x040 frame: the eight bytes of a command.
pub fn data_frame(numbers: Numbers, cells: [u8; 8]) -> [u8; 12]
    ensures { result ≡ data_frame numbers.module.0 numbers.group.0 cells }
{
    let [a, b, c, d, e, f, g, h] = cells;
    [
        0x04,
        0x00,
        numbers.module.0,
        numbers.group.0,
        a,
        b,
        c,
        d,
        e,
        f,
        g,
        h,
    ]
}

// The 0x020 frame of Leave.
pub fn leave_frame(numbers: Numbers) -> [u8; 12]
    ensures { result ≡ leave_frame numbers.module.0 numbers.group.0 }
{
    [
        0x02,
        0x00,
        numbers.module.0,
        numbers.group.0,
        0xFF,
        0xFF,
        0xFF,
        0xFF,
        0xFF,
        0xFF,
        0xFF,
        0xFF,
    ]
}
