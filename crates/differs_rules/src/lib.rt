// Erase only what differs: which Blocks of a recipe are kept over an image of FLASH, and what is answered. Definitions and laws; the code
// is in the crate differs_write.
#![tactic(auto)]

ghost use Rattle.std.specs.Prelude.{◌≡◌};
ghost use Rattle.differs_rules.specs.Differences.{fault_number};
ghost use Rattle.differs_rules.specs.Internal.OfRecipe.{of_recipe};

// What is kept of a recipe over an image: how many erases the shorter recipe has, and how many bytes.
#[derive(Clone, Copy, PartialEq, Eq)]
pub struct Kept {
    pub erases: usize,
    pub size: usize,
}

// Why there is no shorter recipe: a fault of the recipe's own or an output too short for the shorter one, or an image of another length
// than FLASH.
#[derive(Clone, Copy, PartialEq, Eq)]
pub enum Fault {
    Recipe(recipe::Fault),
    OtherLength,
}

impl Fault {
    // The number of a fault: the translator's, or 36.
    pub fn number(self) -> u8
        ensures { result ≡ fault_number self }
    {
        match self {
            Fault::Recipe(fault) => fault.number(),
            Fault::OtherLength => 36,
        }
    }
}

// A refusal: the fault, and the place that it names.
#[derive(Clone, Copy, PartialEq, Eq)]
pub struct Refusal {
    pub fault: Fault,
    pub place: usize,
}

// A refusal of the recipe's own, at its place.
impl From<recipe::Refusal> for Refusal {
    ghost from_gives = { λ refusal result. result ≡ of_recipe refusal };

    fn from(refusal: recipe::Refusal) -> Refusal {
        Refusal {
            fault: Fault::Recipe(refusal.fault),
            place: refusal.place,
        }
    }
}
