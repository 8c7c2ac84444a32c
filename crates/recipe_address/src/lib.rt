// The address that an item of a recipe names.
#![tactic(auto)]

ghost use Rattle.std.specs.Prelude.{◌≡◌, ◌<◌, drop};
ghost use Rattle.recipe.specs.Faults.{address_of};

// The address in the body of the item at a place, high byte first; bytes behind the end count as 0.
pub fn address_of(input: &[u8], place: usize) -> u32
    ensures { (result ≡ address_of (drop place input.now)) × (result < 0x1000000) }
{
    match input.get(place..) {
        Some([_, high, middle, low, ..]) => u32::from_be_bytes([0, *high, *middle, *low]),
        Some([_, high, middle]) => u32::from_be_bytes([0, *high, *middle, 0]),
        Some([_, high]) => u32::from_be_bytes([0, *high, 0, 0]),
        _ => 0,
    }
}
