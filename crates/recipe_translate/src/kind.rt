// What the kind of an item fixes: its frames, and whether it is the last.
ghost use Rattle.std.specs.Prelude.{◌≡◌, ◌<◌, eqb};
ghost use Rattle.recipe_item.specs.Internal.Emitted.{frames_of_kind};

use recipe::Kind;

// How many frames an item of a kind becomes.
pub fn frames_of_kind(kind: u8) -> usize
    ensures { (result ≡ frames_of_kind kind) × (result < 19) }
{
    match Kind::of(kind) {
        Some(Kind::Block) => 18,
        Some(Kind::Row) => 2,
        Some(Kind::Leave) => 1,
        Some(Kind::Open) | None => 0,
    }
}

// Whether an item of a kind is Leave.
pub fn is_leave(kind: u8) -> bool
    ensures { result ≡ eqb kind 0x0F }
{
    matches!(Kind::of(kind), Some(Kind::Leave))
}
