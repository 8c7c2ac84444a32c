// The replies of an effect. The memories are read, and none is changed.
#![tactic(auto)]

mod making;
mod reading;

ghost use Rattle.std.specs.Prelude.{◌≡◌};
ghost use Rattle.frame_rules.specs.Frame.{type_of};
ghost use Rattle.memory_address.specs.Places.{eeprom_cell};
ghost use Rattle.node_rules.specs.Replies.{reply_of, has_started, firmware_reply, description_data, cells_at, one_reply, two_replies, replying};

use memory_address::{Address, DESCRIPTION, EEPROM_FIRST, EepromPlace};
use node_rules::{Mode, Node, Plate, Replies, Reply};

// Normal mode with firmware started.
fn has_started(m: Mode) -> bool
    ensures { result ≡ has_started m }
{
    matches!(m, Mode::Normal(true))
}

// A reply to this frame, with its type and these data.
fn reply_to(p: Plate, frame: &[u8], d: [u8; 8]) -> [u8; 12]
    ensures { result ≡ reply_of p (type_of frame.now) d }
{
    making::reply(p, node_frame::type_of(frame), d)
}

// The reply to 0x105 and 0x106, of type 0x1F1 where 0x106 finds firmware not started.
fn firmware(n: Node, frame: &[u8], flash: &[u8]) -> [u8; 12]
    ensures { result ≡ firmware_reply n (type_of frame.now) flash.now }
{
    if node_frame::type_of(frame) == 0x106 && !has_started(n.mode) {
        return making::reply(n.plate, 0x1F1, reading::firmware_error(flash));
    }
    reply_to(n.plate, frame, reading::firmware_type(flash))
}

// The two frames of a description.
fn describe(p: Plate, frame: &[u8], eeprom: &[u8]) -> Replies<24>
    ensures { result ≡ two_replies (reply_of p (type_of frame.now) (description_data 0 eeprom.now))
        (reply_of p (type_of frame.now) (description_data 8 eeprom.now)) }
{
    let at = (DESCRIPTION.0 - EEPROM_FIRST) as usize;
    let first = reply_to(p, frame, base::eight(eeprom, at));
    let second = reply_to(p, frame, base::eight(eeprom, at + 8));
    making::two(first, second)
}

// The cell of EEPROM that a place names; a number below its first place names the first cell.
fn cell_of(place: EepromPlace) -> usize
    ensures { result ≡ eeprom_cell place.0 }
{
    place.0.saturating_sub(EEPROM_FIRST) as usize
}

// The eight cells at an address, 0 behind the end of the memory.
fn cells_at(at: Address, flash: &[u8], eeprom: &[u8]) -> [u8; 8]
    ensures { result ≡ cells_at at flash.now eeprom.now }
{
    match at {
        Address::Flash(f) => base::eight(flash, f.0 as usize),
        Address::Eeprom(p) => base::eight(eeprom, cell_of(p)),
    }
}

// One reply to this frame, with its type and these data.
fn single(p: Plate, frame: &[u8], d: [u8; 8]) -> Replies<24>
    ensures { result ≡ one_reply (reply_of p (type_of frame.now) d) }
{
    making::one(reply_to(p, frame, d))
}

// The replies of an effect to this frame, over the memories as it left them.
pub fn replies(reply: Reply, n: Node, frame: &[u8], flash: &[u8], eeprom: &[u8]) -> Replies<24>
    ensures { result ≡ replying reply n frame.now flash.now eeprom.now }
{
    let plate = n.plate;
    match reply {
        Reply::Silent => making::none(),
        Reply::Entered => single(
            plate,
            frame,
            [0xFF, 0xFF, 0x03, 0x04, 0xFF, 0xFF, 0xFF, 0xFF],
        ),
        Reply::Hardware => single(plate, frame, reading::hardware(plate)),
        Reply::Firmware => making::one(firmware(n, frame, flash)),
        Reply::Described => describe(plate, frame, eeprom),
        Reply::Device => single(plate, frame, reading::device(plate)),
        Reply::Echoed => single(plate, frame, base::eight(frame, 4)),
        Reply::Cells(at) => single(plate, frame, cells_at(at, flash, eeprom)),
    }
}
