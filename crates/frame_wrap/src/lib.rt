// Wrapping for UART. A refusal leaves the lent output as it was. An output of another length than the result is refused first. The twelve
// bytes are read whole before they are written: two lent slices might overlap for all the compiler knows.
#![tactic(auto)]

ghost use Rattle.std.specs.Prelude.{◌≡◌, length};
ghost use Rattle.frame_rules.specs.Wrapping.{wrapped_of};
ghost use Rattle.frame_rules.specs.Numbers.{wrap_number, output_after, number_of};

use frame_rules::Refusal;

// The 15 bytes of a frame on UART: 0xAA, the 12, their sum modulo 256, 0xA5. Misshapen for not 12 bytes; flags are not looked at.
#[tactic(auto, unfolding(frame_rules::specs::Numbers::wrap_number))]
pub fn wrap(frame: &[u8], wrapped: &mut [u8]) -> Result<(), Refusal>
    ensures { (number_of result ≡ wrap_number frame.now (length wrapped.old))
        × (wrapped.new ≡ output_after (number_of result) (wrapped_of frame.now) wrapped.old) }
{
    if wrapped.len() != 15 {
        return Err(Refusal::Misshapen);
    }
    let inner: [u8; 12] = frame.try_into().map_err(|_| Refusal::Misshapen)?;
    wrapped[0] = 0xAA;
    wrapped[1..13].copy_from_slice(&inner);
    wrapped[13] = frame_sum::sum_of(&inner);
    wrapped[14] = 0xA5;
    Ok(())
}
