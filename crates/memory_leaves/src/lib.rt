// The leaves. Each touches only the cells lent to it, and only where their number, and that of the new bytes, is right.
#![tactic(auto)]

ghost use Rattle.std.specs.Prelude.{◌≡◌};
ghost use Rattle.memory_leaves.specs.Leaves.{flash_cells_after, eeprom_cells_after, erased_cells};

// Each of eight cells keeps the bits that it and the new byte both have. Other lengths leave the cells alone.
#[tactic(auto, unfolding(crate::specs::Leaves::flash_cells_after))]
pub fn write_flash_cells(cells: &mut [u8], new: &[u8])
    ensures { cells.new ≡ flash_cells_after cells.old new.now }
{
    if cells.len() == 8 && new.len() == 8 {
        // By its number: of cells written through `iter_mut` a proof knows nothing once the loop is over.
        for (i, bits) in new.iter().enumerate() {
            cells[i] &= *bits;
        }
    }
}

// Eight cells become the new bytes. Other lengths leave the cells alone.
#[tactic(auto, unfolding(crate::specs::Leaves::eeprom_cells_after))]
pub fn write_eeprom_cells(cells: &mut [u8], new: &[u8])
    ensures { cells.new ≡ eeprom_cells_after cells.old new.now }
{
    if cells.len() == 8 && new.len() == 8 {
        cells.copy_from_slice(new);
    }
}

// Sixty-four cells become 0xFF. Another number of cells is left alone.
#[tactic(auto, unfolding(crate::specs::Leaves::erased_cells))]
pub fn erase_cells(cells: &mut [u8])
    ensures { cells.new ≡ erased_cells cells.old }
{
    if cells.len() == 64 {
        cells.fill(0xFF);
    }
}
