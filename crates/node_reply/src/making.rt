// How replies are made: none, one or two. Unused room is 0.
ghost use Rattle.std.specs.Prelude.{◌≡◌, ◌<◌};
ghost use Rattle.node_rules.specs.Replies.{reply_of, no_reply, one_reply, two_replies};

use node_rules::{Plate, Replies};

// No reply.
pub fn none() -> Replies<24>
    ensures { result ≡ no_reply }
{
    Replies {
        count: 0,
        bytes: [0; 24],
    }
}

// A reply of this type with these data. Below 4096: a type has twelve bits, and of more `reply_of` names no bytes.
pub fn reply(p: Plate, t: u16, d: [u8; 8]) -> [u8; 12]
    requires { t < 4096 }
    ensures { result ≡ reply_of p t d }
{
    let [first, second] = (16 * t + 1).to_be_bytes();
    let mut frame = [first, second, p.own.0, p.group.0, 0, 0, 0, 0, 0, 0, 0, 0];
    frame[4..].copy_from_slice(&d);
    frame
}

// One reply.
pub fn one(reply: [u8; 12]) -> Replies<24>
    ensures { result ≡ one_reply reply }
{
    let mut bytes = [0; 24];
    bytes[..12].copy_from_slice(&reply);
    Replies { count: 1, bytes }
}

// Two replies.
pub fn two(first: [u8; 12], second: [u8; 12]) -> Replies<24>
    ensures { result ≡ two_replies first second }
{
    let mut bytes = [0; 24];
    let (front, back) = bytes.split_at_mut(12);
    front.copy_from_slice(&first);
    back.copy_from_slice(&second);
    Replies { count: 2, bytes }
}
