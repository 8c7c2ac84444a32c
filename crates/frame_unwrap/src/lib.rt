// Unwrapping what came on UART. A refusal leaves the lent output as it was. An output of another length than the result is refused first.
// The twelve bytes are read whole before they are written: two lent slices might overlap for all the compiler knows.
#![tactic(auto)]

ghost use Rattle.std.specs.Prelude.{◌≡◌, length};
ghost use Rattle.frame_rules.specs.Wrapping.{inner_of};
ghost use Rattle.frame_rules.specs.Numbers.{unwrap_number, output_after, number_of};

use frame_rules::Refusal;

// The 12 bytes of a frame as it came on UART. Misshapen for not 15 bytes, else WronglyWrapped for a wrong start, sum or stop; flags are
// not looked at.
#[tactic(auto, unfolding(frame_rules::specs::Numbers::unwrap_number, frame_rules::specs::Wrapping::rightly_wrapped))]
pub fn unwrap(wrapped: &[u8], frame: &mut [u8]) -> Result<(), Refusal>
    ensures { (number_of result ≡ unwrap_number wrapped.now (length frame.old))
        × (frame.new ≡ output_after (number_of result) (inner_of wrapped.now) frame.old) }
{
    if frame.len() != 12 {
        return Err(Refusal::Misshapen);
    }
    let [start, inner @ .., sum, stop] = wrapped else {
        return Err(Refusal::Misshapen);
    };
    let inner: [u8; 12] = inner.try_into().map_err(|_| Refusal::Misshapen)?;
    if *start != 0xAA || *sum != frame_sum::sum_of(&inner) || *stop != 0xA5 {
        return Err(Refusal::WronglyWrapped);
    }
    frame.copy_from_slice(&inner);
    Ok(())
}
