// CAN to HAPCAN. A refusal leaves the lent output as it was. An output of another length than the result is refused first. Data are read
// whole before they are written: two lent slices might overlap for all the compiler knows.
#![tactic(auto)]

ghost use Rattle.std.specs.Prelude.{◌≡◌, ◌≤◌, length};
ghost use Rattle.frame_rules.specs.Frame.{head_of, hapcan_of};
ghost use Rattle.frame_rules.specs.Numbers.{to_hapcan_number, output_after, number_of};

use frame_rules::Refusal;

// A legal identifier as a frame's first four bytes: type, three zeros and the flag, module, group.
// By division: fields of 12, 3 and 17 bits meet at no byte's edge, so no conversion of bytes parts them.
#[tactic(auto, unfolding(frame_rules::specs::Frame::head_of))]
fn head_of(identifier: u32) -> [u8; 4]
    requires { identifier ≤ 0x1FFFFFFF }
    ensures { result ≡ head_of identifier }
{
    let head = identifier / 131_072 * 1_048_576 + identifier % 131_072;
    head.to_be_bytes()
}

// The 12 HAPCAN bytes of a CAN identifier and its 8 data bytes. Misshapen for an identifier above 0x1FFFFFFF or not 8 data bytes.
#[tactic(auto, unfolding(frame_rules::specs::Numbers::to_hapcan_number))]
pub fn to_hapcan(identifier: u32, data: &[u8], frame: &mut [u8]) -> Result<(), Refusal>
    ensures { (number_of result ≡ to_hapcan_number identifier «data».now (length frame.old))
        × (frame.new ≡ output_after (number_of result) (hapcan_of identifier «data».now) frame.old) }
{
    if frame.len() != 12 || identifier > 0x1FFFFFFF {
        return Err(Refusal::Misshapen);
    }
    let d: [u8; 8] = data.try_into().map_err(|_| Refusal::Misshapen)?;
    frame[..4].copy_from_slice(&head_of(identifier));
    frame[4..].copy_from_slice(&d);
    Ok(())
}
