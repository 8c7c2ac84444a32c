// Intel HEX read: what a text of records gives, what refuses it and at which line, and the recipe of the cells given. Definitions and laws;
// the code that reads is in the crate hex_read.
#![tactic(auto)]

ghost use Rattle.std.specs.Prelude.{◌≡◌};
ghost use Rattle.hex_rules.specs.Refusing.{fault_number};

// What refuses a text: the first check that a line fails, a text whose end record is missing or early, or an output that is too short.
#[derive(Clone, Copy, PartialEq, Eq)]
pub enum Fault {
    BadForm,
    BadSum,
    OtherType,
    CellOutside,
    CellTwice,
    WrongEnd,
    NoRoom,
}

impl Fault {
    // Its number in document 02.
    pub fn number(self) -> u8
        ensures { result ≡ fault_number self }
    {
        match self {
            Fault::BadForm => 30,
            Fault::BadSum => 31,
            Fault::OtherType => 32,
            Fault::CellOutside => 33,
            Fault::CellTwice => 34,
            Fault::WrongEnd => 35,
            Fault::NoRoom => 26,
        }
    }
}

// A refusal of a text: what is wrong, and the line; an output that is too short names line 0.
// Its own type beside recipe's: what it names is a line, not a place, as `in_numbers` of specs/Refusing.antt tells.
#[derive(Clone, Copy, PartialEq, Eq)]
pub struct Refusal {
    pub fault: Fault,
    pub line: usize,
}
