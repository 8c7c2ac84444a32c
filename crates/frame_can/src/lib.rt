// Conversion between CAN and HAPCAN frames, both ways. The round trips speak of these calls.
#![tactic(auto)]

pub use frame_rules::Refusal;
pub use frame_to_can::to_can;
pub use frame_to_hapcan::to_hapcan;
