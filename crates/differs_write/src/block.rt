// A Block at a place of a recipe: whether its cells stand already, as the Blocks before it leave them.
ghost use Rattle.std.specs.Prelude.{◌≡◌, ◌+◌, ◌/◌, ◌≤◌, length, get_or, drop};
ghost use Rattle.base.specs.Parts.{part};
ghost use Rattle.memory_same.specs.Same.{same};
ghost use Rattle.recipe.specs.Faults.{address_of};
ghost use Rattle.differs_write.specs.Internal.Standing.{standing, AtBlock};
ghost use Rattle.differs_write.specs.Internal.Steps.{remembered_at};

use std::mem;

// The cells of the block at an address: the recipe's own from `last` on, where a Block before named the block, else, where `last` is 0, the
// image's.
fn standing<'a>(recipe: &'a [u8], image: &'a [u8], address: usize, last: usize) -> &'a [u8]
    requires { (address + 64 ≤ length image.now) × (last + 64 ≤ length recipe.now) }
    ensures { result.now ≡ standing recipe.now image.now address last }
{
    if last == 0 {
        &image[address..address + 64]
    } else {
        &recipe[last..last + 64]
    }
}

// Whether the Block at a place stands already; from now on it is the last of its block. `last` has, for each block of FLASH, where in the
// recipe the cells of the last Block for it begin, 0 where there was none, since no cells begin at 0.
pub fn turn(recipe: &[u8], place: usize, image: &[u8], last: &mut [u32]) -> bool
    requires { AtBlock recipe.now place image.now last.old }
    ensures { (result
        ≡ same
        (standing recipe.now image.now (address_of (drop place recipe.now))
        (get_or last.old (address_of (drop place recipe.now) / 64) 0))
        (part recipe.now (place + 4) 64))
        × (last.new ≡ remembered_at recipe.now place last.old) }
{
    let address = recipe_address::address_of(recipe, place) as usize;
    let from = place + 4;
    let before = mem::replace(&mut last[address / 64], from as u32) as usize;
    memory_same::same(
        standing(recipe, image, address, before),
        &recipe[from..from + 64],
    )
}
