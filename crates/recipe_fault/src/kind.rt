// What the kind of an item fixes: its place among the items, its address.
ghost use Rattle.std.specs.Prelude.{◌≡◌};
ghost use Rattle.recipe.specs.Faults.{out_of_place, address_illegal};
ghost use Rattle.recipe.specs.Internal.Kinds.{code};

use memory_address::{EepromPlace, FlashAddress};
use recipe::Kind;

// Whether an item is out of place: anything after Leave, Open behind the first item, or anything else as the first item.
pub fn out_of_place(kind: Kind, number: usize, ended: bool) -> bool
    ensures { result ≡ out_of_place (code kind) number ended }
{
    ended || matches!(kind, Kind::Open) != (number == 1)
}

// Whether the address of the item at a place is illegal: a Block's as erase, a Row's as EEPROM write.
pub fn is_illegal(kind: Kind, address: u32) -> bool
    ensures { result ≡ address_illegal (code kind) address }
{
    match kind {
        Kind::Block => !memory_address::legal_flash(FlashAddress(address), memory_address::ERASE),
        Kind::Row => !memory_address::legal_eeprom(EepromPlace(address), memory_address::WRITE),
        Kind::Open | Kind::Leave => false,
    }
}
