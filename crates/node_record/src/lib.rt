// The node's record: tidied, and in another mode.
#![tactic(auto)]

mod tidying;

ghost use Rattle.std.specs.Prelude.{◌≡◌};
ghost use Rattle.node_rules.specs.Record.{with_mode, tidied};

use node_rules::{Mode, Node, Staged};
pub use tidying::{is_tidy, none_held, tidy_receiver};

// The record in this mode.
pub fn with_mode(n: Node, m: Mode) -> Node
    ensures { result ≡ with_mode n m }
{
    Node { mode: m, ..n }
}

// The tidied record: an illegal staged command is none, more than 14 held bytes or held bytes not starting with 0xAA are none, and
// unused room is 0. As a call of its own it would cost each call that tidies a copy of the record (docs/DECISIONS.md, D16).
#[inline(always)]
pub fn tidy(node: Node) -> Node
    ensures { result ≡ tidied node }
{
    let n = Node {
        receiver: tidying::tidy_receiver(node.receiver),
        ..node
    };
    if tidying::is_tidy(n.mode) {
        return n;
    }
    with_mode(n, Mode::Programming(Staged::Nothing))
}
