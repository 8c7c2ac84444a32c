// What is kept between events beside the memories.
use node_rules::Node;

// A session: its number, the events that had an answer, their digest, the lines that are still printed in full, how many cells of each
// memory are lent, the node, how often restart, CAN frame, UART byte and UART piece gave each number, whether answers tell the way after
// noise, and whether the old way is meant where nothing is said of it (in later sessions too).
#[derive(Clone, Copy)]
pub struct Session {
    pub number: u64,
    pub events: u64,
    pub digest: u64,
    pub full: u16,
    pub flash: usize,
    pub eeprom: usize,
    pub node: Node,
    pub restarts: [u64; 2],
    pub frames: [u64; 12],
    pub bytes: [u64; 12],
    pub pieces: [u64; 12],
    pub tells: bool,
    pub old: bool,
}

// Before the first session.
pub fn start() -> Session {
    Session {
        number: 0,
        events: 0,
        digest: 0,
        full: 0,
        flash: 65536,
        eeprom: 1024,
        node: node::fresh([0; 6]),
        restarts: [0; 2],
        frames: [0; 12],
        bytes: [0; 12],
        pieces: [0; 12],
        tells: false,
        old: false,
    }
}

impl Session {
    // The next session, with these fixed bytes and so many lines in full, whose answers tell the way or not.
    pub fn begun(self, fixed: [u8; 6], full: u16, tells: bool) -> Session {
        Session {
            number: self.number.wrapping_add(1),
            full,
            node: node::fresh(fixed),
            tells,
            old: self.old,
            ..start()
        }
    }

    // The session in which the old way is meant, or not, where nothing is said of it.
    pub fn meaning(self, old: bool) -> Session {
        Session { old, ..self }
    }

    // The session with this node.
    pub fn with_node(self, node: Node) -> Session {
        Session { node, ..self }
    }

    // The session with so many cells lent.
    pub fn lending(self, flash: usize, eeprom: usize) -> Session {
        Session {
            flash,
            eeprom,
            ..self
        }
    }

    // One more event that had an answer, with the digest after it, and one line in full less.
    pub fn answered(self, digest: u64) -> Session {
        Session {
            events: self.events.wrapping_add(1),
            digest,
            full: self.full.saturating_sub(1),
            ..self
        }
    }
}

// One more that gave this number.
pub fn count<const N: usize>(counts: &mut [u64; N], number: u8) {
    let i = number as usize;
    if i < N {
        counts[i] = counts[i].wrapping_add(1);
    }
}
