// The eight data bytes of the replies (document 01, "Requests and replies").
ghost use Rattle.std.specs.Prelude.{◌≡◌};
ghost use Rattle.node_rules.specs.Replies.{hardware_data, firmware_data, firmware_error_data, device_data};

use memory_address::{ATYPE, AVERS, FVERS};
use node_rules::Plate;

// 30 00 03 FF ID0 ID1 ID2 ID3.
pub fn hardware(p: Plate) -> [u8; 8]
    ensures { result ≡ hardware_data p }
{
    let id = p.fixed;
    [0x30, 0x00, 0x03, 0xFF, id[0], id[1], id[2], id[3]]
}

// DEVID1 DEVID2 then six FF.
pub fn device(p: Plate) -> [u8; 8]
    ensures { result ≡ device_data p }
{
    let id = p.fixed;
    [id[4], id[5], 0xFF, 0xFF, 0xFF, 0xFF, 0xFF, 0xFF]
}

// 30 00 03 ATYPE AVERS FVERS 03 04.
pub fn firmware_type(flash: &[u8]) -> [u8; 8]
    ensures { result ≡ firmware_data flash.now }
{
    let atype = base::byte_at(flash, ATYPE.0 as usize);
    let avers = base::byte_at(flash, AVERS.0 as usize);
    let fvers = base::byte_at(flash, FVERS.0 as usize);
    [0x30, 0x00, 0x03, atype, avers, fvers, 0x03, 0x04]
}

// The flag byte as FLASH is now, the worked-out sum high byte first, FF FF 03 04.
pub fn firmware_error(flash: &[u8]) -> [u8; 8]
    ensures { result ≡ firmware_error_data flash.now }
{
    let found = memory_start::examine(flash);
    let flags = found.flags;
    let [_, high, middle, low] = found.sum.to_be_bytes();
    [flags, high, middle, low, 0xFF, 0xFF, 0x03, 0x04]
}
