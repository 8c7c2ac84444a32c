// The recipe: what its bytes mean, which frames it becomes, and what it leaves in the memories. Definitions and laws; the code that
// translates is in the crate translate.
#![tactic(auto)]

ghost use Rattle.std.specs.Prelude.{◌≡◌};
ghost use Rattle.recipe.specs.Internal.Kinds.{kind_named};
ghost use Rattle.recipe.specs.Translation.{fault_number};

use memory_address::{Group, Module};

// The numbers that a recipe is for.
#[derive(Clone, Copy, PartialEq, Eq)]
pub struct Numbers {
    pub module: Module,
    pub group: Group,
}

// The kinds of item.
#[derive(Clone, Copy, PartialEq, Eq)]
pub enum Kind {
    Open,
    Block,
    Row,
    Leave,
}

impl Kind {
    // The kind that a byte names, where it names one.
    pub fn of(byte: u8) -> Option<Kind>
        ensures { result ≡ kind_named byte }
    {
        match byte {
            0x01 => Some(Kind::Open),
            0x02 => Some(Kind::Block),
            0x03 => Some(Kind::Row),
            0x0F => Some(Kind::Leave),
            _ => None,
        }
    }
}

// Why a recipe is refused.
#[derive(Clone, Copy, PartialEq, Eq)]
pub enum Fault {
    NoLeave,
    UnknownKind,
    CutShort,
    OutOfPlace,
    IllegalAddress,
    TooManyItems,
    ShortOutput,
}

impl Fault {
    // Document 01's number of a fault.
    pub fn number(self) -> u8
        ensures { result ≡ fault_number self }
    {
        match self {
            Fault::NoLeave => 20,
            Fault::UnknownKind => 21,
            Fault::CutShort => 22,
            Fault::OutOfPlace => 23,
            Fault::IllegalAddress => 24,
            Fault::TooManyItems => 25,
            Fault::ShortOutput => 26,
        }
    }
}

// A refused recipe: the fault, and the place that it names.
#[derive(Clone, Copy, PartialEq, Eq)]
pub struct Refusal {
    pub fault: Fault,
    pub place: usize,
}
