// What a frame is: as HAPCAN bytes, on CAN and on UART, with the numbers of its conversions; and the laws of these, among them that
// nothing is lost either way. Of code there is the refusal of a conversion.
#![tactic(auto)]

ghost use Rattle.std.specs.Prelude.{◌≡◌};
ghost use Rattle.frame_rules.specs.Numbers.{refusal_number};

// Why a conversion is refused: an input or output that is none by its shape, or a wrong start, sum or stop.
#[derive(Clone, Copy, PartialEq, Eq)]
pub enum Refusal {
    Misshapen,
    WronglyWrapped,
}

impl Refusal {
    // Document 01's number.
    pub fn number(self) -> u8
        ensures { result ≡ refusal_number self }
    {
        match self {
            Refusal::Misshapen => 4,
            Refusal::WronglyWrapped => 11,
        }
    }
}
