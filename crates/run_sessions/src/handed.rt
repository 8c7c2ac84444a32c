// What a record of the stream hands in: numbers, fixed bytes, a node's record.
use base::byte_at;
use memory_address::{Group, Module};
use node_rules::{Choices, Mode, Node, Noise, Plate, Receiver};
use run_record::begun;
use run_stream::{number, part};

// A length at place i: more than 20 counts as 20.
pub fn length(s: &[u8], i: usize) -> usize {
    byte_at(s, i).min(20) as usize
}

// The six bytes from i on.
pub fn six(s: &[u8], i: usize) -> [u8; 6] {
    match part(s, i, 6).first_chunk() {
        Some(six) => *six,
        None => [0; 6],
    }
}

// The mode, as its number says: 2 programming, with what is staged.
fn mode(m: u8, s: u8, kind: u8, a: u32) -> Mode {
    match m {
        0 => Mode::Normal(false),
        1 => Mode::Normal(true),
        2 => Mode::Programming(begun::staged(s, kind, a)),
        3 => Mode::Error,
        _ => Mode::Waiting,
    }
}

// The 14 held bytes, from the record's tenth argument on, and a fifteenth that stands behind the record.
fn held(s: &[u8]) -> [u8; 15] {
    let mut held = [0; 15];
    base::put(&mut held, 0, part(s, 11, 14));
    held[14] = byte_at(s, 36);
    held
}

// The count of held bytes: its low byte, and the number above it. By hand: the five bytes don't lie beside each other.
fn count(low: u8, high: u32) -> usize {
    high as usize * 256 + low as usize
}

// The node's record of a hand-in, as it stands: nothing is tidied. Where it says nothing of the way, the old one may be meant.
pub fn node(s: &[u8], old: bool) -> Node {
    Node {
        choices: Choices {
            pin: begun::pin(byte_at(s, 1)),
            noise: begun::way(byte_at(s, 37), old).unwrap_or(Noise::KeepFromNext),
        },
        plate: Plate {
            fixed: six(s, 2),
            own: Module(byte_at(s, 8)),
            group: Group(byte_at(s, 9)),
        },
        receiver: Receiver {
            held: held(s),
            count: count(byte_at(s, 10), number(s, 32)),
        },
        mode: mode(
            byte_at(s, 25),
            byte_at(s, 26),
            byte_at(s, 27),
            number(s, 28),
        ),
    }
}
