// Showing a row: the eight cells themselves, a part of FLASH or of EEPROM as the address says.
#![tactic(auto)]

ghost use Rattle.std.specs.Prelude.{◌≡◌};
ghost use Rattle.memory_row.specs.Shown.{shown, shown_at, shown_number};
ghost use Rattle.memory_row.specs.Internal.Says.{Says};

use memory_address::{Address, EEPROM_CELLS, EEPROM_FIRST, FLASH_CELLS, READ, Refusal};

// The eight cells at an address that is legal to read. Refused where a memory has the wrong length, and then where the address is
// illegal to read.
fn row_of<'a>(flash: &'a [u8], eeprom: &'a [u8], at: u32) -> Result<&'a [u8], Refusal>
    ensures { Says flash.entry eeprom.entry at result }
{
    if flash.len() != FLASH_CELLS || eeprom.len() != EEPROM_CELLS {
        return Err(Refusal::WrongLength);
    }
    match memory_address::rule(at, READ) {
        Some(Address::Flash(f)) => {
            let a = f.0 as usize;
            Ok(&flash[a..a + 8])
        }
        Some(Address::Eeprom(e)) => {
            let a = (e.0 - EEPROM_FIRST) as usize;
            Ok(&eeprom[a..a + 8])
        }
        None => Err(Refusal::Illegal),
    }
}

// Two calls, which `show_row_tight` and `show_number_tight` hold: "the number may come from a call of its own" (document 01).
// The eight cells at an address that is legal to read. The part is empty where a memory has the wrong length or the address is
// illegal to read; `show_number` says which.
pub fn show_row<'a>(flash: &'a [u8], eeprom: &'a [u8], at: u32) -> &'a [u8]
    ensures { (result.now ≡ shown flash.now eeprom.now at)
        × (result.ref_ptr ≡ shown_at flash.entry eeprom.entry at) }
{
    row_of(flash, eeprom, at).unwrap_or(&flash[..0])
}

// The number that goes with it: 1 where a memory has the wrong length, then 8 where the address is illegal to read, else 0.
pub fn show_number(flash: &[u8], eeprom: &[u8], at: u32) -> u8
    ensures { result ≡ shown_number flash.now eeprom.now at }
{
    match row_of(flash, eeprom, at) {
        Ok(_) => 0,
        Err(refusal) => refusal.number(),
    }
}
