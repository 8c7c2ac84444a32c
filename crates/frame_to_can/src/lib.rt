// HAPCAN to CAN. A refusal leaves the lent output as it was. An output of another length than the result is refused first. Data are read
// whole before they are written: two lent slices might overlap for all the compiler knows.
#![tactic(auto)]

ghost use Rattle.std.specs.Prelude.{◌≡◌, ◌≤◌, length};
ghost use Rattle.base.specs.Parts.{Bytes};
ghost use Rattle.frame_rules.specs.Frame.{data_of, identifier_of};
ghost use Rattle.frame_rules.specs.Numbers.{to_can_number, output_after, number_of, identified, identified_of};

use frame_rules::Refusal;

// The identifier that a frame's first four bytes say: type, three zeros and the flag, module, group.
// By division: fields of 12, 3 and 17 bits meet at no byte's edge, so no conversion of bytes parts them.
#[tactic(auto, unfolding(frame_rules::specs::Frame::identifier_of))]
fn identifier_of(frame: &[u8]) -> u32
    requires { 4 ≤ length frame.now }
    ensures { result ≡ identifier_of frame.now }
{
    let head = u32::from_be_bytes([frame[0], frame[1], frame[2], frame[3]]);
    head / 1_048_576 * 131_072 + head % 131_072
}

// The CAN identifier and the 8 data bytes of 12 HAPCAN bytes. Misshapen for not 12 bytes or an upper flag set. A frame that is taken
// holds bytes.
#[tactic(auto, unfolding(frame_rules::specs::Numbers::to_can_number))]
pub fn to_can(frame: &[u8], data: &mut [u8]) -> Result<u32, Refusal>
    ensures { (identified result ≡ identified_of (to_can_number frame.now (length «data».old)) frame.now)
        × («data».new ≡ output_after (number_of result) (data_of frame.now) «data».old)
        × (number_of result ≡ 0 → Bytes frame.now) }
{
    if data.len() != 8 || frame.len() != 12 || frame[1] % 16 > 1 {
        return Err(Refusal::Misshapen);
    }
    let d: [u8; 8] = frame[4..].try_into().map_err(|_| Refusal::Misshapen)?;
    data.copy_from_slice(&d);
    Ok(identifier_of(frame))
}
