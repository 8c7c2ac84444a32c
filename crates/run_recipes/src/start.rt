// The record that a delivery begins with: restarted, with something staged and bytes held.
use base::byte_at;
use node_rules::{Choices, Mode, Node, Noise, Pin, Receiver, Restarted, Staged};
use run_record::begun;
use run_stream::{number, part};

// What a header says of it: the pin, the way where one is asked for, what is staged, and the held bytes with their count.
#[derive(Clone, Copy)]
pub struct Begin {
    pub pin: Pin,
    pub way: Option<Noise>,
    pub staged: Staged,
    pub count: usize,
    pub held: [u8; 15],
}

// The 14 held bytes, from the header's byte 24 on, and a 0.
fn held(record: &[u8]) -> [u8; 15] {
    let mut held = [0; 15];
    base::put(&mut held, 0, part(record, 24, 14));
    held
}

// What the header in this record says; where it says nothing of the way, the old one may be meant.
pub fn read(record: &[u8], old: bool) -> Begin {
    let staged = begun::staged(byte_at(record, 17), byte_at(record, 18), number(record, 19));
    Begin {
        pin: begun::pin(byte_at(record, 16)),
        way: begun::way(byte_at(record, 40), old),
        staged,
        count: byte_at(record, 23) as usize,
        held: held(record),
    }
}

// A fresh node with fixed bytes 0, restarted with a passing self-test: plainly, where nothing is said of the way.
pub fn restarted(b: Begin, flash: &[u8], eeprom: &[u8]) -> Restarted {
    let fresh = node::fresh([0; 6]);
    match b.way {
        None => node::restart(fresh, b.pin, true, flash, eeprom),
        Some(noise) => {
            let choices = Choices { pin: b.pin, noise };
            node::restart_with(fresh, choices, true, flash, eeprom)
        }
    }
}

// The restarted record with these held bytes, in programming mode with this staged. Nothing is tidied.
pub fn begun(b: Begin, n: Node) -> Node {
    let held = b.held;
    Node {
        choices: n.choices,
        plate: n.plate,
        receiver: Receiver {
            held,
            count: b.count,
        },
        mode: Mode::Programming(b.staged),
    }
}
