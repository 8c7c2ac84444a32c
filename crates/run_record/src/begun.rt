// What the byte codes of a record's beginning say: the pin, the way after noise, and what is staged.
ghost use Rattle.std.specs.Prelude.{◌≡◌};
ghost use Rattle.run_record.specs.Internal.Begun.{pin_of, way_of, address_of, staged_of};

use memory_address::{Address, EepromPlace, FlashAddress};
use node_rules::{Noise, Pin, Staged};

// 0 says CAN only, anything else CAN and UART.
pub fn pin(b: u8) -> Pin
    ensures { result ≡ pin_of b }
{
    if b == 0 {
        return Pin::CanOnly;
    }
    Pin::CanAndUart
}

// The way after noise: 1 the new one, more the old one. 0 says nothing of it: none, or the old one where that is meant.
pub fn way(b: u8, old: bool) -> Option<Noise>
    ensures { result ≡ way_of b old }
{
    match (b, old) {
        (0, false) => None,
        (1, _) => Some(Noise::KeepFromNext),
        _ => Some(Noise::DropAll),
    }
}

// The address as its kind says: 0 FLASH, else EEPROM.
fn address(kind: u8, a: u32) -> Address
    ensures { result ≡ address_of kind a }
{
    if kind == 0 {
        return Address::Flash(FlashAddress(a));
    }
    Address::Eeprom(EepromPlace(a))
}

// What is staged: 1 a read, 2 a write, 3 an erase, else nothing.
pub fn staged(command: u8, kind: u8, a: u32) -> Staged
    ensures { result ≡ staged_of command kind a }
{
    match command {
        1 => Staged::Read(address(kind, a)),
        2 => Staged::Write(address(kind, a)),
        3 => Staged::Erase(FlashAddress(a)),
        _ => Staged::Nothing,
    }
}
