// The patches of an image: a record each, with a place and cells.
use base::byte_at;
use run_stream::{RECORD, number, part};
use std::io;
use std::io::Read;

// Puts a record's cells into the image at its place; where one would lie behind the end the image stays as it is.
fn put(record: &[u8], image: &mut [u8]) {
    let place = number(record, 1) as usize;
    let count = byte_at(record, 5) as usize;
    base::put(image, place, part(record, 6, count));
}

// Reads so many patches, and puts each in its turn.
pub fn read<R: Read>(input: &mut R, count: u16, image: &mut [u8]) -> io::Result<()> {
    for _ in 0..count {
        let mut record = [0u8; RECORD];
        run_stream::read_full(input, &mut record)?;
        put(&record, image);
    }
    Ok(())
}
