// UART wrapping of HAPCAN frames, both ways. The round trips speak of these calls.
#![tactic(auto)]

pub use frame_rules::Refusal;
pub use frame_unwrap::unwrap;
pub use frame_wrap::wrap;
