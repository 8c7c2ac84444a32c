// A recipe without the Blocks that already stand in an image of FLASH, in a lent output. One walk looks at every item: for a fault, and,
// of a Block, whether its cells stand already; a second one copies what is kept, since a refusal leaves the output as it was.
#![tactic(auto)]

mod block;
mod copy;
mod walk;

ghost use Rattle.std.specs.Prelude.{◌≡◌, length};
ghost use Rattle.differs_rules.specs.Differences.{in_numbers};
ghost use Rattle.differs_rules.specs.Writing.{differences, differences_output};
ghost use Rattle.differs_write.specs.Taken.{BytesIfKept};

use differs_rules::{Fault, Kept, Refusal};
use memory_address::FLASH_CELLS;

// Writes a recipe without each Block whose 64 bytes already stand in the image, as the earlier items leave it; Rows all stay. It answers
// the erase count and the length of what is written. A refusal leaves the output as it was, and bytes behind the recipe stay.
pub fn differences(recipe: &[u8], image: &[u8], output: &mut [u8]) -> Result<Kept, Refusal>
    ensures { (in_numbers result ≡ differences recipe.now image.now (length output.old))
        × (output.new ≡ differences_output recipe.now image.now output.old)
        × BytesIfKept (in_numbers result) recipe.now }
{
    if image.len() != FLASH_CELLS {
        recipe_translate::check(recipe)?;
        return Err(Refusal {
            fault: Fault::OtherLength,
            place: 0,
        });
    }
    let mut last = [0u32; 1024];
    // A count stands beside the places: there is no heap, and an array has its length.
    let mut places = [0u32; 2048];
    let walk = walk::look_over(recipe, image, &mut last, &mut places)?;
    let size = recipe.len() - 68 * walk.dropped;
    if output.len() < size {
        return Err(Refusal {
            fault: Fault::Recipe(recipe::Fault::ShortOutput),
            place: 0,
        });
    }
    copy::put_kept(recipe, &places[..walk.dropped], output);
    Ok(Kept {
        erases: walk.erases,
        size,
    })
}
