// The bytes of a piece behind those that are held, up to the one with which fifteen are held; these are judged.
#![tactic(auto)]

ghost use Rattle.std.specs.Prelude.{◌≡◌, ◌≤◌, length};
ghost use Rattle.base.specs.Parts.{part};
ghost use Rattle.node_rules.specs.Record.{receiving, held_in};
ghost use Rattle.node_gather.specs.Internal.Gathered.{gathered, start_of, at_once, came_to, gathering_of, gathered_by};

use node_rules::{Choices, Receiver, Refusal};

// Why no frame is there: it is incomplete or bad; and what stays held.
#[derive(Clone, Copy)]
pub struct Kept {
    pub refusal: Refusal,
    pub receiver: Receiver,
}

// How many bytes of a piece are taken, and what they come to: the frame of right bytes, which leave nothing held.
#[derive(Clone, Copy)]
pub struct Gathering {
    pub taken: usize,
    pub outcome: Result<[u8; 12], Kept>,
}

// How many bytes are skipped with so many held: those before the first 0xAA where nothing is held, and else none.
fn start(count: usize, piece: &[u8]) -> usize
    ensures { (result ≡ start_of count piece.now) × (result ≤ length piece.now) }
{
    if count == 0 {
        node_port::first_start(piece).unwrap_or(piece.len())
    } else {
        0
    }
}

// The frame in the fifteen bytes from `from` on, straight from the piece, where nothing is held. None where something is, or there are
// fewer bytes, or they are no right frame.
// Straight from the piece, and not by way of `hold`: docs/DECISIONS.md, D29.
fn at_once(count: usize, from: usize, piece: &[u8]) -> Option<[u8; 12]>
    requires { from ≤ length piece.now }
    ensures { result ≡ at_once count (part piece.now from 15) }
{
    if count != 0 || piece.len() - from < 15 {
        return None;
    }
    node_port::frame_in(&piece[from..from + 15])
}

// What fifteen bytes come to.
fn whole(c: Choices, bytes: [u8; 15]) -> Result<[u8; 12], Kept>
    ensures { result ≡ came_to c bytes }
{
    node_port::judged(c, bytes).map_err(|receiver| Kept {
        refusal: Refusal::BadFrame,
        receiver,
    })
}

// The bytes from `from` on are held behind those that are held, up to fifteen.
fn hold(c: Choices, receiver: Receiver, from: usize, piece: &[u8]) -> Gathering
    requires { (receiver ≡ receiving (held_in receiver)) × (from ≡ start_of receiver.count piece.now) ×
        (from ≤ length piece.now) }
    ensures { result ≡ gathering_of c (gathered (held_in receiver) piece.now) }
{
    let rest = &piece[from..];
    let held = receiver.count;
    let more = rest.len().min(15 - held);
    let mut bytes = receiver.held;
    bytes[held..held + more].copy_from_slice(&rest[..more]);
    let taken = from + more;
    let count = held + more;
    let outcome = if count < 15 {
        Err(Kept {
            refusal: Refusal::Incomplete,
            receiver: Receiver { held: bytes, count },
        })
    } else {
        whole(c, bytes)
    };
    Gathering { taken, outcome }
}

// The bytes that are gathered with what is held, tidied: a right frame straight from the piece, or else byte behind byte. Any receiver may
// be handed in, and a piece of any length.
pub fn gather(c: Choices, receiver: Receiver, piece: &[u8]) -> Gathering
    ensures { result ≡ gathered_by c receiver piece.now }
{
    let r = node_record::tidy_receiver(receiver);
    let from = start(r.count, piece);
    match at_once(r.count, from, piece) {
        Some(frame) => Gathering {
            taken: from + 15,
            outcome: Ok(frame),
        },
        None => hold(c, r, from, piece),
    }
}
