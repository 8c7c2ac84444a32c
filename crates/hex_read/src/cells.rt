// A record's cells, given to a table of places.
ghost use Rattle.std.specs.Prelude.{◌≡◌, ◌&&◌, cond, leb, ◌+◌, ◌≤◌, length, OnOk};
ghost use Rattle.hex_put.specs.Internal.Table.{some_marked};
ghost use Rattle.hex_read.specs.Internal.Giving.{number_or_0, index_of, entries, giving_fault, with_cells};

use hex_rules::Fault;
use memory_address::{EEPROM_FIRST, LAST_BLOCK, LAST_EEPROM_ROW, RIM};

// Whether a part from `start` to `end` lies between two bounds.
fn within(low: usize, high: usize, start: usize, end: usize) -> bool
    ensures { result ≡ (leb low start && leb end high) }
{
    low <= start && end <= high
}

// The index of the first of `count` cells from a place on, where all of them are of the legal areas.
fn index_of(start: usize, count: usize) -> Option<usize>
    requires { (start ≤ 0xFFFFFFFF) × (count ≤ 255) }
    ensures { result ≡ index_of start count }
{
    let end = start + count;
    if within(RIM as usize, LAST_BLOCK as usize + 64, start, end) {
        return Some(start);
    }
    if within(
        EEPROM_FIRST as usize,
        LAST_EEPROM_ROW as usize + 8,
        start,
        end,
    ) {
        return Some(65536 + (start - EEPROM_FIRST as usize));
    }
    None
}

// Marks places with bytes, 256 more than each, up to the first that is marked already: then the places are of no more use.
fn mark(bytes: &[u8], places: &mut [u16]) -> Result<(), Fault>
    requires { length places.old ≡ length bytes.now }
    ensures { (number_or_0 result ≡ cond (some_marked places.old) 34 0)
        × OnOk result (places.new ≡ entries bytes.now)
        × (length places.new ≡ length places.old) }
{
    // By its number: of cells written through `iter_mut` a proof knows nothing once the loop is over.
    for (i, byte) in bytes.iter().enumerate() {
        if places[i] > 255 {
            return Err(Fault::CellTwice);
        }
        places[i] = 256 + *byte as u16;
    }
    Ok(())
}

// Gives the cells of bytes from a place on to the table, where none is outside the legal areas, and none is given already. After a refusal
// the table is of no more use.
pub fn give(bytes: &[u8], start: usize, table: &mut [u16; 66560]) -> Result<(), Fault>
    requires { (start ≤ 0xFFFFFFFF) × (length bytes.now ≤ 255) }
    ensures { (number_or_0 result ≡ giving_fault bytes.now start table.old)
        × OnOk result (table.new ≡ with_cells bytes.now start table.old) }
{
    let count = bytes.len();
    if count == 0 {
        return Ok(());
    }
    let index = index_of(start, count).ok_or(Fault::CellOutside)?;
    let end = index + count;
    mark(bytes, &mut table[index..end])
}
