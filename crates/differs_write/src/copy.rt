// What is kept of a recipe, copied.
ghost use Rattle.std.specs.Prelude.{◌≡◌, ◌≤◌, length};
ghost use Rattle.base.specs.Parts.{patch};
ghost use Rattle.differs_write.specs.Internal.Cutting.{cut_out, Upward};

// Puts a recipe without the Blocks at these places into an output: what stands between them, one part behind the other. What is behind it
// in the output stays.
pub fn put_kept(recipe: &[u8], places: &[u32], output: &mut [u8])
    requires { Upward 0 places.now (length recipe.now) × (length (cut_out recipe.now 0 places.now) ≤ length output.old) }
    ensures { output.new ≡ patch output.old 0 (cut_out recipe.now 0 places.now) }
{
    let mut from: usize = 0;
    let mut at: usize = 0;
    for &place in places {
        let place = place as usize;
        base::put(output, at, &recipe[from..place]);
        at += place - from;
        from = place + 68;
    }
    base::put(output, at, &recipe[from..]);
}
