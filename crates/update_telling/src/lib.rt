// What is told of an answer, for whoever hands frames over.
#![tactic(auto)]

ghost use Rattle.std.specs.Prelude.{◌≡◌};
ghost use Rattle.update_rules.specs.Delivery.{told};
ghost use Rattle.node_rules.specs.InNumbers.{answer_in_numbers};

use node_rules::{Answer, Numbered};

// An answer in document 01's numbers: 0 with its replies, or the number of the refusal, with no reply.
pub fn in_numbers(a: Answer<24>) -> Numbered<24>
    ensures { result ≡ answer_in_numbers a }
{
    match a.outcome {
        Ok(replies) => {
            let bytes = replies.bytes;
            Numbered {
                number: 0,
                count: replies.count,
                replies: bytes,
                node: a.node,
            }
        }
        Err(refusal) => Numbered {
            number: refusal.number(),
            count: 0,
            replies: [0; 24],
            node: a.node,
        },
    }
}

// The number, how many replies, and the 12 bytes of the first (0 where there is none), whatever they are.
pub fn telling(a: Numbered<24>) -> [u8; 14]
    ensures { result ≡ told a }
{
    let mut told = [0; 14];
    told[0] = a.number;
    told[1] = a.count;
    told[2..].copy_from_slice(&a.replies[..12]);
    told
}
