// A place in a recipe, and the place behind the item there.
ghost use Rattle.std.specs.Prelude.{◌≡◌};
ghost use Rattle.base.specs.Parts.{Bytes};
ghost use Rattle.recipe_translate.specs.Internal.Steps.{next_of, AtCursor};

// Where a reading stands: the place, the number of the item there, whether Leave has come, and the frames of the items before it.
#[derive(Clone, Copy)]
pub struct Cursor {
    pub place: usize,
    pub number: usize,
    pub ended: bool,
    pub frames: usize,
}

// The first item, before which nothing stands.
pub const START: Cursor = Cursor {
    place: 0,
    number: 1,
    ended: false,
    frames: 0,
};

// The cursor behind the item that it stands at. It reads the input, which so is known to hold bytes.
pub fn next(input: &[u8], c: Cursor) -> Cursor
    requires { AtCursor input.now c }
    ensures { (result ≡ next_of input.now c) × Bytes input.now }
{
    let place = c.place;
    let kind = input[place];
    Cursor {
        place: place + recipe_fault::size_of_kind(kind),
        number: c.number + 1,
        ended: crate::kind::is_leave(kind),
        frames: c.frames + crate::kind::frames_of_kind(kind),
    }
}
