// The record after a restart: choices and verdict are taken, held bytes emptied, own numbers copied from EEPROM.
ghost use Rattle.std.specs.Prelude.{◌≡◌};
ghost use Rattle.node_rules.specs.Restart.{mode_reached, plate_read, restarted_in};

use memory_address::{BOOTFL, EEPROM_FIRST, GROUP, Group, MODULE, Module};
use node_rules::{Choices, Mode, Node, Plate, Staged};

// The mode that a restart reaches.
fn mode_reached(passed: bool, flash: &[u8], eeprom: &[u8]) -> Mode
    ensures { result ≡ mode_reached passed flash.now eeprom.now }
{
    if !passed {
        return Mode::Error;
    }
    let at = (BOOTFL.0 - EEPROM_FIRST) as usize;
    if base::byte_at(eeprom, at) == 0xFF {
        return Mode::Programming(Staged::Nothing);
    }
    Mode::Normal(memory_start::firmware_starts(flash))
}

// The plate with the own numbers that stand in EEPROM.
fn plate_read(p: Plate, eeprom: &[u8]) -> Plate
    ensures { result ≡ plate_read p eeprom.now }
{
    let module_at = (MODULE.0 - EEPROM_FIRST) as usize;
    let group_at = (GROUP.0 - EEPROM_FIRST) as usize;
    Plate {
        own: Module(base::byte_at(eeprom, module_at)),
        group: Group(base::byte_at(eeprom, group_at)),
        ..p
    }
}

// The record after a restart with these choices and this verdict. A cell that isn't there counts as 0; firmware does not start over a
// FLASH of another length.
pub fn restarted(n: Node, choices: Choices, passed: bool, flash: &[u8], eeprom: &[u8]) -> Node
    ensures { result ≡ restarted_in (mode_reached passed flash.now eeprom.now) n choices eeprom.now }
{
    Node {
        choices,
        plate: plate_read(n.plate, eeprom),
        receiver: node_record::none_held(),
        mode: mode_reached(passed, flash, eeprom),
    }
}
