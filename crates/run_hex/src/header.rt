// The header record of a text.
use base::byte_at;
use memory_address::{Group, Module};
use recipe::Numbers;
use run_stream::number;

// A header: the numbers for the recipe, the text's length and that of the lent output.
#[derive(Clone, Copy)]
pub struct Header {
    pub numbers: Numbers,
    pub length: usize,
    pub room: usize,
}

// The header in this record.
pub fn read(record: &[u8]) -> Header {
    Header {
        numbers: Numbers {
            module: Module(byte_at(record, 1)),
            group: Group(byte_at(record, 2)),
        },
        length: number(record, 3) as usize,
        room: number(record, 7) as usize,
    }
}
