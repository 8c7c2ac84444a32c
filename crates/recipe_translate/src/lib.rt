// The translator: from a recipe's bytes to frames of 12 bytes each in a lent output.
#![tactic(auto)]

mod cursor;
mod kind;

ghost use Rattle.std.specs.Prelude.{true, ◌++◌, ◌≡◌, ◌*◌, ◌≤◌, length, drop};
ghost use Rattle.recipe.specs.Frames.{frames_of, joined, frame_count};
ghost use Rattle.recipe.specs.Reading.{at_end, reading, recipe_of};
ghost use Rattle.recipe.specs.Translation.{checked, in_numbers, translated, translated_output};
ghost use Rattle.recipe_translate.specs.Taken.{BytesIfTaken};

use cursor::START;
use memory_address::{Group, Module};
use recipe::{Fault, Numbers, Refusal};

// Reads a recipe through: its frame count, or the refusal of the first item at fault, or of the end. A recipe that is taken was
// read, and so is known to hold bytes.
pub fn check(input: &[u8]) -> Result<usize, Refusal>
    ensures { (in_numbers result ≡ checked input.now) × BytesIfTaken (in_numbers result) input.now }
{
    let mut c = START;
    // A while: each step is as long as the item that it reads, so that no range or chunk has the places.
    while c.place < input.len() {
        let place = c.place;
        if let Err(fault) = recipe_fault::fault_at(input, place, c.number, c.ended) {
            return Err(Refusal { fault, place });
        }
        c = cursor::next(input, c);
    }
    if !c.ended {
        return Err(Refusal {
            fault: Fault::NoLeave,
            place: input.len(),
        });
    }
    Ok(c.frames)
}

// Puts all frames of a recipe without fault, item by item. Bytes behind the last frame stay.
fn put_frames(input: &[u8], output: &mut [u8])
    requires { ((reading input.now).stop ≡ at_end true) × (12 * frame_count (recipe_of input.now) ≤ length output.old) }
    ensures { output.new
        ≡ joined (frames_of (recipe_of input.now))
        ++ drop (12 * frame_count (recipe_of input.now)) output.old }
{
    let numbers = Numbers {
        module: Module(base::byte_at(input, 1)),
        group: Group(base::byte_at(input, 2)),
    };
    let mut c = START;
    // A while, as in `check`.
    while c.place < input.len() {
        recipe_item::put_item(input, c.place, output, 12 * c.frames, numbers);
        c = cursor::next(input, c);
    }
}

// Translates a recipe into frames of 12 bytes each in a lent output. A refusal leaves the output as it was; bytes behind the last frame
// stay. A recipe that is taken was read, and so is known to hold bytes.
pub fn translate(recipe: &[u8], output: &mut [u8]) -> Result<usize, Refusal>
    ensures { (in_numbers result ≡ translated recipe.now (length output.old))
        × (output.new ≡ translated_output recipe.now output.old)
        × BytesIfTaken (in_numbers result) recipe.now }
{
    let count = check(recipe)?;
    if output.len() / 12 < count {
        return Err(Refusal {
            fault: Fault::ShortOutput,
            place: 0,
        });
    }
    put_frames(recipe, output);
    Ok(count)
}
