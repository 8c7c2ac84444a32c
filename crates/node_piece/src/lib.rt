// UART in pieces. The call takes any record, which it tidies, a piece of any length and lent memories of any length; it asks nothing of its
// caller. The answer says how many bytes were taken, and what the last of them gave.
#![tactic(auto)]

ghost use Rattle.std.specs.Prelude.{◌≡◌};
ghost use Rattle.node_rules.specs.InNumbers.{refusal_number};
ghost use Rattle.node_piece_rules.specs.Piece.{piece_in_numbers, piece_after, piece_step};
ghost use Rattle.node_piece.specs.Internal.Answers.{silent_piece, receives};

use node_piece_rules::PieceAnswer;
use node_rules::{Mode, Node, Receiver, Refusal, Staged};

// A refusal, and so many bytes taken.
fn silent(taken: usize, refusal: Refusal, n: Node) -> PieceAnswer
    ensures { piece_in_numbers result ≡ silent_piece taken (refusal_number refusal) n }
{
    PieceAnswer {
        taken,
        answer: node_port::refused(refusal, n),
    }
}

// The record with its mode tidied, and this in its receiver.
fn receives(n: Node, r: Receiver) -> Node
    ensures { result ≡ receives n r }
{
    let held = Node { receiver: r, ..n };
    if node_record::is_tidy(n.mode) {
        return held;
    }
    node_record::with_mode(held, Mode::Programming(Staged::Nothing))
}

// A piece of bytes from UART: 1, 2 and 3 with no byte taken and the record tidied; then its bytes are gathered up to one that completes a
// frame, which goes the way of a CAN frame where its sum and stop are right. 10 where no frame is complete at the end. Tidying makes no
// difference to 1, 2 and 3, gathering tidies what is held, and a CAN frame the record, so each is tidied once.
pub fn uart_piece(node: Node, piece: &[u8], flash: &mut [u8], eeprom: &mut [u8]) -> PieceAnswer
    ensures { piece_after (piece_in_numbers result) flash.new eeprom.new
        ≡ piece_step node piece.now flash.old eeprom.old }
{
    if let Err(refusal) = node_port::listens(node, flash, eeprom) {
        return silent(0, refusal, node_record::tidy(node));
    }
    let g = node_gather::gather(node.choices, node.receiver, piece);
    match g.outcome {
        Ok(frame) => {
            let mut n = node;
            n.receiver = node_record::none_held();
            PieceAnswer {
                taken: g.taken,
                answer: node_uart::obeyed(n, &frame, flash, eeprom),
            }
        }
        Err(kept) => silent(g.taken, kept.refusal, receives(node, kept.receiver)),
    }
}
