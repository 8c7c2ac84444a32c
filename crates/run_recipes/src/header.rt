// The header record of a recipe.
use crate::start;
use crate::start::Begin;
use base::byte_at;
use run_stream::{number, short};

// How the frames come: on CAN, or on UART byte by byte or in pieces of so many bytes.
#[derive(Clone, Copy)]
pub enum Port {
    Can,
    Bytes,
    Pieces(u16),
}

// A header: the port, the fills and their steps, the own numbers, the recipe's length and that of the lent output, and the record that
// the delivery begins with. The fills and their steps are numbers of the record (second/PROTOCOL.md): a struct of them is no plainer.
#[derive(Clone, Copy)]
pub struct Header {
    pub port: Port,
    pub flash: u8,
    pub eeprom: u8,
    pub step: u8,
    pub more: u8,
    pub own: u8,
    pub group: u8,
    pub length: usize,
    pub room: usize,
    pub begin: Begin,
}

// The port: 0 says CAN, anything else UART, in pieces of a length other than 0.
fn port_of(b: u8, piece: u16) -> Port {
    match (b, piece) {
        (0, _) => Port::Can,
        (_, 0) => Port::Bytes,
        _ => Port::Pieces(piece),
    }
}

// The header in this record; where it says nothing of the way, the old one may be meant.
pub fn read(record: &[u8], old: bool) -> Header {
    Header {
        port: port_of(byte_at(record, 1), short(record, 38)),
        flash: byte_at(record, 2),
        eeprom: byte_at(record, 3),
        step: byte_at(record, 14),
        more: byte_at(record, 15),
        own: byte_at(record, 4),
        group: byte_at(record, 5),
        length: number(record, 6) as usize,
        room: number(record, 10) as usize,
        begin: start::read(record, old),
    }
}
