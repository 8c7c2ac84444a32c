// The answer to a piece of UART bytes. The rule itself stands in specs/, and proofs/ has what follows from it alone.
#![tactic(auto)]

use node_rules::Answer;

// How many bytes of a piece are taken, and the answer to the last of them.
#[derive(Clone, Copy)]
pub struct PieceAnswer {
    pub taken: usize,
    pub answer: Answer<30>,
}
