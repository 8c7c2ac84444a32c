// The recipe of the places that are marked, put into a lent output.
#![tactic(auto)]

mod item;

ghost use Rattle.std.specs.Prelude.{◌≡◌, ◌+◌, ◌*◌, ◌/◌, ◌≤◌, ◌<◌, length};
ghost use Rattle.base.specs.Parts.{patch};
ghost use Rattle.recipe.specs.Internal.Kinds.{code};
ghost use Rattle.hex_put.specs.Internal.Table.{printed_in, bytes_in, table_bytes, put_length, put_output, Items};

use memory_address::EEPROM_FIRST;
use recipe::{Kind, Numbers};

// How many bytes the touched ones of the items of one size take that lie in these places.
fn size_of_items(places: &[u16], size: usize) -> usize
    requires { Items places.now size }
    ensures { (result ≡ length (printed_in 0 size places.now (length places.now / size) 0 0)) × (result ≤ 68 * (length places.now / size)) }
{
    let mut all: usize = 0;
    for item in places.chunks_exact(size) {
        all += item::size_of(item);
    }
    all
}

// Puts the touched ones of the items of one size that lie in these places, the first with this address, into the output at a byte; the
// byte behind them.
fn put_items(
    kind: Kind,
    first: u32,
    places: &[u16],
    size: usize,
    output: &mut [u8],
    at: usize,
) -> usize
    requires { Items places.now size
        × (first ≤ 0xF00000)
        × (at + length (printed_in (code kind) size places.now (length places.now / size) 0 first) ≤ length output.old) }
    ensures { (result ≡ at + length (printed_in (code kind) size places.now (length places.now / size) 0 first))
        × (output.new ≡ patch output.old at (printed_in (code kind) size places.now (length places.now / size) 0 first)) }
{
    let mut to = at;
    let mut address = first;
    for item in places.chunks_exact(size) {
        to = item::put_touched(kind, address, item, output, to);
        address += size as u32;
    }
    to
}

// Puts the recipe: Open, the touched blocks, the touched rows, Leave.
fn put_recipe(blocks: &[u16], rows: &[u16], numbers: Numbers, output: &mut [u8])
    requires { (length blocks.now ≡ 65536) × (length rows.now ≡ 1024)
        × (length (bytes_in numbers.module.0 numbers.group.0 blocks.now rows.now) ≤ length output.old) }
    ensures { output.new ≡ patch output.old 0 (bytes_in numbers.module.0 numbers.group.0 blocks.now rows.now) }
{
    base::put(
        output,
        0,
        &[item::byte_of(Kind::Open), numbers.module.0, numbers.group.0],
    );
    let behind = put_items(Kind::Block, 0, blocks, 64, output, 3);
    let last = put_items(Kind::Row, EEPROM_FIRST, rows, 8, output, behind);
    base::put(output, last, &[item::byte_of(Kind::Leave)]);
}

// Puts the recipe of the marked places of a table into a lent output; its length in bytes. Where the output has no room for it, or the
// table has other than 66,560 places, there is none, and the output stays as it was.
pub fn put(table: &[u16], numbers: Numbers, output: &mut [u8]) -> Option<usize>
    ensures { (result ≡ put_length (table_bytes numbers.module.0 numbers.group.0 table.now) (length table.now) (length output.old))
        × (output.new
        ≡ put_output (table_bytes numbers.module.0 numbers.group.0 table.now) (length table.now) output.old) }
{
    if table.len() != 66560 {
        return None;
    }
    let (blocks, rows) = table.split_at(65536);
    let size = 4 + size_of_items(blocks, 64) + size_of_items(rows, 8);
    if output.len() < size {
        return None;
    }
    put_recipe(blocks, rows, numbers, output);
    Some(size)
}
