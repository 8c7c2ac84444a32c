// What an effect does to the memories: they change here and nowhere else.
#![tactic(auto)]

ghost use Rattle.std.specs.Prelude.{◌≡◌};
ghost use Rattle.node_rules.specs.Requests.{data_in};
ghost use Rattle.node_rules.specs.Step.{bootfl_set, flash_after, eeprom_after};

use memory_address::{Address, BOOTFL, EEPROM_FIRST};
use node_rules::Memory;

// BOOTFL becomes v, where there is a cell for it.
fn set_bootfl(eeprom: &mut [u8], v: u8)
    ensures { eeprom.new ≡ bootfl_set eeprom.old v }
{
    let at = (BOOTFL.0 - EEPROM_FIRST) as usize;
    if at < eeprom.len() {
        eeprom[at] = v;
    }
}

// A write at either kind of address. A refused one leaves the memory as it is, and nobody asks for the reason.
fn put(at: Address, d: [u8; 8], flash: &mut [u8], eeprom: &mut [u8])
    ensures { (flash.new ≡ flash_after (Memory.Written at) d flash.old) ×
        (eeprom.new ≡ eeprom_after (Memory.Written at) d eeprom.old) }
{
    match at {
        Address::Flash(f) => {
            let _ = memory_cells::write_flash(flash, f, d);
        }
        Address::Eeprom(p) => {
            let _ = memory_cells::write_eeprom(eeprom, p, d);
        }
    }
}

// What becomes of the two memories, with the data of this frame. One of the wrong length stays as it is, but for BOOTFL where there is a
// cell for it.
pub fn change(m: Memory, frame: &[u8], flash: &mut [u8], eeprom: &mut [u8])
    ensures { (flash.new ≡ flash_after m (data_in frame.now) flash.old) ×
        (eeprom.new ≡ eeprom_after m (data_in frame.now) eeprom.old) }
{
    match m {
        Memory::Kept => {}
        Memory::Bootfl(v) => {
            set_bootfl(eeprom, v);
        }
        Memory::Written(at) => {
            put(at, base::eight(frame, 4), flash, eeprom);
        }
        Memory::Erased(at) => {
            let _ = memory_cells::erase_flash(flash, at);
        }
    }
}
