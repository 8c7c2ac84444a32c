// What more than one crate asks of a frame, of a mode and of the memories.
#![tactic(auto)]

ghost use Rattle.std.specs.Prelude.{◌≡◌, ◌<◌};
ghost use Rattle.frame_rules.specs.Frame.{type_of};
ghost use Rattle.memory_address.specs.Places.{full};
ghost use Rattle.node_rules.specs.Outcomes.{is_deaf};

use memory_address::{EEPROM_CELLS, FLASH_CELLS};
use node_rules::Mode;

// The 12 bits of type; a byte that the frame does not have counts as 0.
pub fn type_of(frame: &[u8]) -> u16
    ensures { (result ≡ type_of frame.now) × (result < 4096) }
{
    let first = base::byte_at(frame, 0);
    let second = base::byte_at(frame, 1);
    u16::from_be_bytes([first, second]) / 16
}

// Outcome 3: the mode takes no frame, as it is error or waiting for restart.
pub fn is_deaf(m: Mode) -> bool
    ensures { result ≡ is_deaf m }
{
    matches!(m, Mode::Error | Mode::Waiting)
}

// Outcome 1 is where this fails: whether both memories have their full size.
pub fn full(flash: &[u8], eeprom: &[u8]) -> bool
    ensures { result ≡ full flash.now eeprom.now }
{
    flash.len() == FLASH_CELLS && eeprom.len() == EEPROM_CELLS
}
