// What every crate may use: readers and a writer that never run past the end, and the laws of parts, patches, choices and stores.
#![tactic(auto)]

ghost use Rattle.std.specs.Prelude.{◌≡◌, get_or};
ghost use Rattle.base.specs.Parts.{listed};
ghost use Rattle.base.specs.Internal.Putting.{put_at};

// The byte at i, or 0 behind the end.
pub fn byte_at(s: &[u8], i: usize) -> u8
    ensures { result ≡ get_or s.now i 0 }
{
    s.get(i).copied().unwrap_or(0)
}

// The first eight bytes, 0 behind the end.
fn first_eight(s: &[u8]) -> [u8; 8]
    ensures { result ≡ listed s.now 0 8 }
{
    match s.first_chunk() {
        Some(cells) => *cells,
        None => std::array::from_fn(|k| byte_at(s, k)),
    }
}

// Eight bytes from i on, 0 behind the end.
pub fn eight(s: &[u8], i: usize) -> [u8; 8]
    ensures { result ≡ listed s.now i 8 }
{
    s.get(i..).map_or([0; 8], first_eight)
}

// Puts bytes into an output at a place; where they don't fit all of the output stays as it is.
#[tactic(auto, unfolding(crate::specs::Internal::Putting::put_at, crate::specs::Parts::patch))]
pub fn put(output: &mut [u8], at: usize, new: &[u8])
    ensures { output.new ≡ put_at output.old at new.now }
{
    if new.len() <= output.len() && at <= output.len() - new.len() {
        output[at..at + new.len()].copy_from_slice(new);
    }
}
