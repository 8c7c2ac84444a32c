// What changes cells: the leaves, which touch only the cells lent to them, and the functions over a whole memory and an address,
// which lend them the row or the block in its middle.
#![tactic(auto)]

ghost use Rattle.std.specs.Prelude.{◌≡◌, eqb};
ghost use Rattle.memory_address.specs.Rule.{number_of, numbered};
ghost use Rattle.memory_cells.specs.Memory.{flash_number, eeprom_number, flash_written, flash_erased, eeprom_written};

use memory_address::{
    EEPROM_CELLS, EEPROM_FIRST, ERASE, EepromPlace, FLASH_CELLS, FlashAddress, Refusal, WRITE,
};
pub use memory_leaves::{erase_cells, write_eeprom_cells, write_flash_cells};

// Whether a memory of so many cells has its size, and then whether the address is legal.
fn tested(cells: usize, size: usize, legal: bool) -> Result<(), Refusal>
    ensures { number_of result ≡ numbered (eqb cells size) legal }
{
    if cells != size {
        return Err(Refusal::WrongLength);
    }
    if !legal {
        return Err(Refusal::Illegal);
    }
    Ok(())
}

// Each of these three lends its own part: no clause can say where a part lies that a call answers within a Result.
// Writes a row of FLASH. Refused where FLASH has another length than 65,536, and then where the address is illegal to write; both
// leave it as it was.
pub fn write_flash(flash: &mut [u8], at: FlashAddress, new: [u8; 8]) -> Result<(), Refusal>
    ensures { (number_of result ≡ flash_number flash.old at.0 0x02)
        × (flash.new ≡ flash_written flash.old at.0 new) }
{
    tested(
        flash.len(),
        FLASH_CELLS,
        memory_address::legal_flash(at, WRITE),
    )?;
    let a = at.0 as usize;
    write_flash_cells(&mut flash[a..a + 8], &new);
    Ok(())
}

// Erases a block of FLASH. Refused as above.
pub fn erase_flash(flash: &mut [u8], at: FlashAddress) -> Result<(), Refusal>
    ensures { (number_of result ≡ flash_number flash.old at.0 0x03)
        × (flash.new ≡ flash_erased flash.old at.0) }
{
    tested(
        flash.len(),
        FLASH_CELLS,
        memory_address::legal_flash(at, ERASE),
    )?;
    let a = at.0 as usize;
    erase_cells(&mut flash[a..a + 64]);
    Ok(())
}

// Writes a row of EEPROM. Refused where EEPROM has another length than 1,024, and then where the place is illegal to write; both leave
// it as it was.
pub fn write_eeprom(eeprom: &mut [u8], place: EepromPlace, new: [u8; 8]) -> Result<(), Refusal>
    ensures { (number_of result ≡ eeprom_number eeprom.old place.0 0x02)
        × (eeprom.new ≡ eeprom_written eeprom.old place.0 new) }
{
    tested(
        eeprom.len(),
        EEPROM_CELLS,
        memory_address::legal_eeprom(place, WRITE),
    )?;
    let a = (place.0 - EEPROM_FIRST) as usize;
    write_eeprom_cells(&mut eeprom[a..a + 8], &new);
    Ok(())
}
