// The walk over a recipe's items: each is looked at for a fault, and whether it is kept.
ghost use Rattle.std.specs.Prelude.{◌≡◌, ◌≤◌, length, eqb, replicate};
ghost use Rattle.memory_address.specs.Places.{flash_cells};
ghost use Rattle.differs_write.specs.Internal.Steps.{erases_of_kind, next_walk, Small, Found};

use recipe::{Fault, Kind, Refusal};

// Where a walk stands: the place, the number of the item there, whether Leave has come; and of the items before it how many are dropped,
// and how many erases those are that are kept.
#[derive(Clone, Copy)]
pub struct Walk {
    pub place: usize,
    pub number: usize,
    pub ended: bool,
    pub dropped: usize,
    pub erases: usize,
}

// The walk at the first item.
const START: Walk = Walk {
    place: 0,
    number: 1,
    ended: false,
    dropped: 0,
    erases: 0,
};

impl Walk {
    // The walk behind an item of a kind, which is kept or not.
    fn next(self, kind: u8, kept: bool) -> Walk
        requires { Small self }
        ensures { result ≡ next_walk self kind kept }
    {
        let behind = Walk {
            place: self.place + recipe_fault::size_of_kind(kind),
            number: self.number + 1,
            ended: matches!(Kind::of(kind), Some(Kind::Leave)),
            ..self
        };
        if kept {
            Walk {
                erases: self.erases + erases_of_kind(kind),
                ..behind
            }
        } else {
            Walk {
                dropped: self.dropped + 1,
                ..behind
            }
        }
    }
}

// How many erases an item of a kind is.
fn erases_of_kind(kind: u8) -> usize
    ensures { (result ≡ erases_of_kind kind) × (result ≤ 1) }
{
    match Kind::of(kind) {
        Some(Kind::Block) => 1,
        Some(Kind::Open | Kind::Row | Kind::Leave) | None => 0,
    }
}

// Whether an item of a kind is a Block.
fn is_block(kind: u8) -> bool
    ensures { result ≡ eqb kind 0x02 }
{
    matches!(Kind::of(kind), Some(Kind::Block))
}

// Looks at every item: for a fault, and whether it is kept. It answers the walk at the end, and `places` gets the places of the items that
// are dropped.
pub fn look_over(
    recipe: &[u8],
    image: &[u8],
    last: &mut [u32],
    places: &mut [u32],
) -> Result<Walk, Refusal>
    requires { (length image.now ≡ flash_cells) × (last.old ≡ replicate 1024 0) × (length places.old ≡ 2048) }
    ensures { Found recipe.now image.now result places.new }
{
    let mut w = START;
    // An item's size says where the next one is: that is no index that counts, which a `for` has.
    while w.place < recipe.len() {
        let place = w.place;
        if let Err(fault) = recipe_fault::fault_at(recipe, place, w.number, w.ended) {
            return Err(Refusal { fault, place });
        }
        places[w.dropped] = place as u32;
        let kind = recipe[place];
        w = if is_block(kind) {
            w.next(kind, !crate::block::turn(recipe, place, image, last))
        } else {
            w.next(kind, true)
        };
    }
    if !w.ended {
        return Err(Refusal {
            fault: Fault::NoLeave,
            place: recipe.len(),
        });
    }
    Ok(w)
}
