// The replies of an answer as they go out on UART.
#![tactic(auto)]

ghost use Rattle.std.specs.Prelude.{◌≡◌};
ghost use Rattle.node_rules.specs.Uart.{wrapped_replies};

use node_rules::Replies;

// The replies of an answer, each wrapped by itself. A reply has twelve bytes and its room fifteen, so wrapping is never refused.
pub fn wrapped_replies(replies: Replies<24>) -> Replies<30>
    ensures count { result.count ≡ replies.count }
    ensures bytes { result.bytes ≡ wrapped_replies replies.count replies.bytes }
{
    let count = replies.count;
    let mut bytes = [0u8; 30];
    if count == 0 {
        return Replies { count, bytes };
    }
    frame_uart::wrap(&replies.bytes[..12], &mut bytes[..15]).unwrap();
    if count == 1 {
        return Replies { count, bytes };
    }
    frame_uart::wrap(&replies.bytes[12..24], &mut bytes[15..]).unwrap();
    Replies { count, bytes }
}
