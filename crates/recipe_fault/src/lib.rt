// The faults of a recipe's items: what is wrong at a place, and how many bytes an item takes. Who walks a recipe asks the one and goes on
// by the other.
#![tactic(auto)]

mod kind;

ghost use Rattle.std.specs.Prelude.{◌≡◌, ◌+◌, ◌≤◌, drop};
ghost use Rattle.recipe.specs.Faults.{body_length, fault_at};
ghost use Rattle.recipe.specs.Internal.Found.{found_number};

use recipe::{Fault, Kind};

// How many bytes an item of a kind takes: its kind and its body. The kind is a byte, so that a byte that names none takes one, too.
pub fn size_of_kind(kind: u8) -> usize
    ensures { (result ≡ 1 + body_length kind) × (1 ≤ result) × (result ≤ 68) }
{
    match Kind::of(kind) {
        Some(Kind::Open) => 3,
        Some(Kind::Block) => 68,
        Some(Kind::Row) => 12,
        Some(Kind::Leave) | None => 1,
    }
}

// The first refusal that holds of the item at a place. Behind the end there is no kind: that is an unknown one.
// Place, number and ended are no struct: the contract says the definition of them, one by one.
pub fn fault_at(input: &[u8], place: usize, number: usize, ended: bool) -> Result<(), Fault>
    ensures { found_number result ≡ fault_at (drop place input.now) number ended }
{
    if number == 2049 {
        return Err(Fault::TooManyItems);
    }
    if input.len() <= place {
        return Err(Fault::UnknownKind);
    }
    let byte = input[place];
    let Some(kind) = Kind::of(byte) else {
        return Err(Fault::UnknownKind);
    };
    if kind::out_of_place(kind, number, ended) {
        return Err(Fault::OutOfPlace);
    }
    if input.len() - place < size_of_kind(byte) {
        return Err(Fault::CutShort);
    }
    if kind::is_illegal(kind, recipe_address::address_of(input, place)) {
        return Err(Fault::IllegalAddress);
    }
    Ok(())
}
