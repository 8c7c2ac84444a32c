// The header record of a recipe and its image.
use base::byte_at;
use run_stream::{number, short};

// A header: the recipe's length, the image's and that of the lent output, the image's fill with its steps, and how many patches follow.
// The fill and its steps are numbers of the record (second/PROTOCOL.md), handed on once: a struct of three is no plainer.
#[derive(Clone, Copy)]
pub struct Header {
    pub length: usize,
    pub cells: usize,
    pub room: usize,
    pub fill: u8,
    pub step: u8,
    pub more: u8,
    pub patches: u16,
}

// The header in this record.
pub fn read(record: &[u8]) -> Header {
    Header {
        length: number(record, 1) as usize,
        cells: number(record, 5) as usize,
        room: number(record, 9) as usize,
        fill: byte_at(record, 13),
        step: byte_at(record, 14),
        more: byte_at(record, 15),
        patches: short(record, 16),
    }
}
