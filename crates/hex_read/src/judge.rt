// A record that is in form: the first check that it fails, and what is given behind it.
ghost use Rattle.std.specs.Prelude.{◌≡◌, ◌≤◌, OnOk};
ghost use Rattle.hex_rules.specs.Record.{other_type};
ghost use Rattle.hex_read.specs.Internal.Giving.{number_or_0};
ghost use Rattle.hex_read.specs.Internal.Judging.{start_of, upper_behind, end_fault, record_fault, record_table};

use hex_rules::Fault;

// Whether a record's type is none of 00, 01 and 04.
fn is_other(bytes: &[u8; 260]) -> bool
    ensures { result ≡ other_type bytes.now }
{
    !matches!(bytes[3], 0x00 | 0x01 | 0x04)
}

// The place of a record's first cell.
fn start_of(bytes: &[u8; 260], upper: u16) -> usize
    ensures { (result ≡ start_of upper bytes.now) × (result ≤ 0xFFFFFFFF) }
{
    let [high, low] = upper.to_be_bytes();
    u32::from_be_bytes([high, low, bytes[1], bytes[2]]) as usize
}

// Refuses what stands behind an end record.
fn unended(ended: bool) -> Result<(), Fault>
    ensures { number_or_0 result ≡ end_fault ended }
{
    if ended {
        return Err(Fault::WrongEnd);
    }
    Ok(())
}

// Refuses a record by the first check that it fails, from its sum on; else its cells are given to the table. After a refusal the table is
// of no more use.
pub fn judge(
    bytes: &[u8; 260],
    upper: u16,
    ended: bool,
    table: &mut [u16; 66560],
) -> Result<(), Fault>
    ensures { (number_or_0 result ≡ record_fault bytes.now upper ended table.old)
        × OnOk result (table.new ≡ record_table bytes.now upper table.old) }
{
    let count = bytes[0] as usize;
    if frame_sum::sum_of(&bytes[..5 + count]) != 0 {
        return Err(Fault::BadSum);
    }
    if is_other(bytes) {
        return Err(Fault::OtherType);
    }
    if bytes[3] != 0x00 {
        return unended(ended);
    }
    crate::cells::give(&bytes[4..4 + count], start_of(bytes, upper), table)?;
    unended(ended)
}

// The upper half of addresses behind a record.
pub fn upper_behind(bytes: &[u8; 260], upper: u16) -> u16
    ensures { result ≡ upper_behind upper bytes.now }
{
    if bytes[3] == 0x04 {
        return u16::from_be_bytes([bytes[4], bytes[5]]);
    }
    upper
}
