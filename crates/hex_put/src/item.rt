// One item: whether a place of it is marked, and its bytes.
ghost use Rattle.std.specs.Prelude.{◌≡◌, ◌+◌, ◌≤◌, length};
ghost use Rattle.base.specs.Parts.{patch};
ghost use Rattle.recipe.specs.Internal.Kinds.{code};
ghost use Rattle.hex_put.specs.Internal.Table.{some_marked, low_bytes, item_bytes, touched_bytes};

use recipe::Kind;

// The byte that names a kind of item.
pub fn byte_of(kind: Kind) -> u8
    ensures { result ≡ code kind }
{
    match kind {
        Kind::Open => 0x01,
        Kind::Block => 0x02,
        Kind::Row => 0x03,
        Kind::Leave => 0x0F,
    }
}

// Whether one of these places is marked. All are looked at, so the compiler takes several at once: `any` would stop at the first.
fn is_touched(places: &[u16]) -> bool
    ensures { result ≡ some_marked places.now }
{
    let mut marked = false;
    for place in places {
        marked |= *place > 255;
    }
    marked
}

// Puts the bytes of these places.
fn put_low(places: &[u16], output: &mut [u8])
    requires { length output.old ≡ length places.now }
    ensures { output.new ≡ low_bytes places.now }
{
    // By its number: of cells written through `iter_mut` a proof knows nothing once the loop is over.
    for (i, place) in places.iter().enumerate() {
        output[i] = (*place % 256) as u8;
    }
}

// Puts an item into the output at a byte: its kind, its address and the bytes of its places.
fn put_item(kind: Kind, address: u32, places: &[u16], output: &mut [u8], at: usize)
    requires { at + (4 + length places.now) ≤ length output.old }
    ensures { output.new ≡ patch output.old at (item_bytes (code kind) address places.now) }
{
    let [_, upper, high, low] = address.to_be_bytes();
    base::put(output, at, &[byte_of(kind), upper, high, low]);
    let from = at + 4;
    let end = from + places.len();
    put_low(places, &mut output[from..end]);
}

// How many bytes an item of these places takes: none where it is not touched.
pub fn size_of(places: &[u16]) -> usize
    requires { length places.now ≤ 64 }
    ensures { (result ≡ length (touched_bytes 0 0 places.now)) × (result ≤ 68) }
{
    if is_touched(places) {
        return 4 + places.len();
    }
    0
}

// Puts an item into the output at a byte where it is touched; the byte behind it.
pub fn put_touched(kind: Kind, address: u32, places: &[u16], output: &mut [u8], at: usize) -> usize
    requires { at + length (touched_bytes (code kind) address places.now) ≤ length output.old }
    ensures { (result ≡ at + length (touched_bytes (code kind) address places.now))
        × (output.new ≡ patch output.old at (touched_bytes (code kind) address places.now)) }
{
    if is_touched(places) {
        put_item(kind, address, places, output, at);
        return at + (4 + places.len());
    }
    at
}
