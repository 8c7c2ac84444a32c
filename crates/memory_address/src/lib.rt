// Addresses: two kinds of number that can't be mixed, the places of document 01, and the one rule that says which are legal.
#![tactic(auto)]

ghost use Rattle.std.specs.Prelude.{◌≡◌, ◌<◌};
ghost use Rattle.memory_address.specs.Rule.{multiple_in, row_of, block_of, ruled, legal_flash, legal_eeprom, refusal_number};

// An address of FLASH, 0x000000 to 0x00FFFF.
#[derive(Clone, Copy, PartialEq, Eq)]
pub struct FlashAddress(pub u32);

// A place of EEPROM, 0xF00000 to 0xF003FF.
#[derive(Clone, Copy, PartialEq, Eq)]
pub struct EepromPlace(pub u32);

// A module number.
#[derive(Clone, Copy, PartialEq, Eq)]
pub struct Module(pub u8);

// A group number.
#[derive(Clone, Copy, PartialEq, Eq)]
pub struct Group(pub u8);

// The cells that an address selects.
#[derive(Clone, Copy, PartialEq, Eq)]
pub enum Address {
    Flash(FlashAddress),
    Eeprom(EepromPlace),
}

// Why a call that works at an address is refused: a memory of the wrong length, or else an illegal address or command.
#[derive(Clone, Copy, PartialEq, Eq)]
pub enum Refusal {
    WrongLength,
    Illegal,
}

impl Refusal {
    // Document 01's number for it.
    pub fn number(self) -> u8
        ensures { result ≡ refusal_number self }
    {
        match self {
            Refusal::WrongLength => 1,
            Refusal::Illegal => 8,
        }
    }
}

// The commands. A command stays a number: `rule` takes any, as a frame or a caller brings it, and others are illegal.
pub const READ: u32 = 0x01;

pub const WRITE: u32 = 0x02;

pub const ERASE: u32 = 0x03;

// The sizes of the two memories, and the number of EEPROM's first place.
pub const FLASH_CELLS: usize = 65536;

pub const EEPROM_CELLS: usize = 1024;

pub const EEPROM_FIRST: u32 = 0xF00000;

// The first and the last row of each memory that may be read or written, and the last block that may be erased. The first row of
// FLASH is the rim: the loader lies below it.
pub const RIM: u32 = 0x001000;

const LAST_FLASH_ROW: u32 = 0x00FFF8;

pub const LAST_BLOCK: u32 = 0x00FFC0;

pub const LAST_EEPROM_ROW: u32 = 0xF003F8;

// The places of document 01, each once.
pub const BOOTFL: EepromPlace = EepromPlace(0xF00000);

pub const MODULE: EepromPlace = EepromPlace(0xF00026);

pub const GROUP: EepromPlace = EepromPlace(0xF00027);

pub const DESCRIPTION: EepromPlace = EepromPlace(0xF00030);

pub const STORED_SUM: FlashAddress = FlashAddress(0x001000);

pub const FIRST_SUMMED: FlashAddress = FlashAddress(0x001003);

pub const PAST_SUMMED: FlashAddress = FlashAddress(0x008000);

pub const ATYPE: FlashAddress = FlashAddress(0x001013);

pub const AVERS: FlashAddress = FlashAddress(0x001014);

pub const FVERS: FlashAddress = FlashAddress(0x001015);

// The first of the three cells that firmware needs to be 30 00 03.
pub const THREE_CELLS: FlashAddress = FlashAddress(0x001010);

// Whether a is a multiple of step from low to high, both in it.
fn multiple_in(step: u32, low: u32, high: u32, a: u32) -> bool
    requires { 0 < step }
    ensures { result ≡ multiple_in step low high a }
{
    (low..=high).contains(&a) && a % step == 0
}

// A row that may be read or written.
fn row_of(a: u32) -> Option<Address>
    ensures { result ≡ row_of a }
{
    if multiple_in(8, RIM, LAST_FLASH_ROW, a) {
        Some(Address::Flash(FlashAddress(a)))
    } else if multiple_in(8, EEPROM_FIRST, LAST_EEPROM_ROW, a) {
        Some(Address::Eeprom(EepromPlace(a)))
    } else {
        None
    }
}

// A block that may be erased.
fn block_of(a: u32) -> Option<Address>
    ensures { result ≡ block_of a }
{
    multiple_in(64, RIM, LAST_BLOCK, a).then_some(Address::Flash(FlashAddress(a)))
}

// The address rule: the cells that a command may work on at a number, or none where address or command is illegal. Numbers of more than
// 24 bits and commands other than read, write and erase are illegal.
#[tactic(auto, unfolding(crate::specs::Rule::ruled))]
pub fn rule(address: u32, command: u32) -> Option<Address>
    ensures { result ≡ ruled address command }
{
    match command {
        READ | WRITE => row_of(address),
        ERASE => block_of(address),
        _ => None,
    }
}

// Whether a command is legal on FLASH at this address. A tuple struct can hold any number: one that is no FLASH address is not.
pub fn legal_flash(at: FlashAddress, command: u32) -> bool
    ensures { result ≡ legal_flash at.0 command }
{
    matches!(rule(at.0, command), Some(Address::Flash(_)))
}

// Whether a command is legal on EEPROM at this place.
pub fn legal_eeprom(place: EepromPlace, command: u32) -> bool
    ensures { result ≡ legal_eeprom place.0 command }
{
    matches!(rule(place.0, command), Some(Address::Eeprom(_)))
}
