// The frames of one item of a recipe, put into a lent output.
#![tactic(auto)]

mod frame;
mod put;

ghost use Rattle.std.specs.Prelude.{◌&&◌, ◌≡◌, ◌+◌, leb, drop};
ghost use Rattle.recipe_item.specs.Internal.Emitted.{item_put};

use memory_address::{EepromPlace, FlashAddress};
use recipe::{Kind, Numbers};

// Whether as many bytes as `count`, from a byte on, lie within a size.
fn within(size: usize, from: usize, count: usize) -> bool
    ensures { result ≡ leb (from + count) size }
{
    from <= size && count <= size - from
}

// Whether an item of `size` bytes is whole in the input, and its `count` bytes of frames have room in the output.
fn whole_with_room(
    bytes: usize,
    place: usize,
    size: usize,
    room: usize,
    at: usize,
    count: usize,
) -> bool
    ensures { result ≡ (leb (place + size) bytes && leb (at + count) room) }
{
    within(bytes, place, size) && within(room, at, count)
}

// Puts the frames of the item at a place into the output at a byte. Where the item is cut short, or the output has no room for all of
// its frames, the output stays as it was.
pub fn put_item(input: &[u8], place: usize, output: &mut [u8], at: usize, numbers: Numbers)
    ensures { output.new ≡ item_put numbers.module.0 numbers.group.0 (drop place input.now) output.old at }
{
    // Each kind with its sizes: the table that has them as code is recipe_translate's, a crate above.
    match Kind::of(base::byte_at(input, place)) {
        Some(Kind::Block) => {
            if whole_with_room(input.len(), place, 68, output.len(), at, 216) {
                put::put_block(
                    input,
                    place,
                    output,
                    at,
                    numbers,
                    FlashAddress(recipe_address::address_of(input, place)),
                );
            }
        }
        Some(Kind::Row) => {
            if whole_with_room(input.len(), place, 12, output.len(), at, 24) {
                put::put_row(
                    input,
                    place,
                    output,
                    at,
                    numbers,
                    EepromPlace(recipe_address::address_of(input, place)),
                );
            }
        }
        Some(Kind::Leave) => {
            if whole_with_room(input.len(), place, 1, output.len(), at, 12) {
                base::put(output, at, &frame::leave_frame(numbers));
            }
        }
        // Two arms, tried as one: of `Some(Kind::Open) | None` the proof has only tags, by names that may change.
        Some(Kind::Open) => {}
        None => {}
    }
}
