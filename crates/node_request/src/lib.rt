// What a request comes to: the last column of the request table, with outcomes 8 and 9 in front. No memory is read.
#![tactic(auto)]

ghost use Rattle.std.specs.Prelude.{◌≡◌, not, [], ◌∷◌};
ghost use Rattle.memory_address.specs.Rule.{is_legal};
ghost use Rattle.node_rules.specs.Requests.{D, address_in, ruled_in, command_at, staged_by, staged_in, does, doing, asked};
ghost use Rattle.node_rules.specs.Outcomes.{outcome, afterwards, refused, unless, is_nothing, request_outcomes};
ghost use Rattle.node_rules.specs.InNumbers.{refusal_number};
ghost use Rattle.node_rules.specs.Internal.Effects.{effect_in_numbers};

use memory_address::{Address, READ, WRITE};
use node_rules::{Deed, Effect, Memory, Mode, Next, Refusal, Reply, Request, Staged};

// A refusal by its number, any: no reply, and all as it is, but 8 leaves nothing staged.
pub fn refuse(number: u8) -> Effect
    ensures { result ≡ refused number }
{
    let mut next = Next::Stays;
    if number == 8 {
        next = Next::Programs(Staged::Nothing);
    }
    Effect {
        number,
        reply: Reply::Silent,
        memory: Memory::Kept,
        next,
    }
}

// What a refusal leaves of the mode: all as it is, but an illegal address leaves nothing staged.
pub fn afterwards(r: Refusal) -> Next
    ensures { result ≡ afterwards (refusal_number r) }
{
    refuse(r.number()).next
}

// Done: with this reply, this becomes of the memories and this of the mode.
fn does(reply: Reply, memory: Memory, next: Next) -> Result<Deed, Refusal>
    ensures { effect_in_numbers result ≡ does reply memory next }
{
    Ok(Deed {
        reply,
        memory,
        next,
    })
}

// D0 D1 D2, high byte first.
fn address_in(frame: &[u8]) -> u32
    ensures { result ≡ address_in frame.now }
{
    let high = base::byte_at(frame, 4);
    let middle = base::byte_at(frame, 5);
    let low = base::byte_at(frame, 6);
    u32::from_be_bytes([0, high, middle, low])
}

// The command that is staged at a legal address. EEPROM has no erase: what doesn't read there writes.
fn command_at(command: u32, a: Address) -> Staged
    ensures { result ≡ command_at command a }
{
    match (command, a) {
        (READ, _) => Staged::Read(a),
        (WRITE, _) | (_, Address::Eeprom(_)) => Staged::Write(a),
        (_, Address::Flash(f)) => Staged::Erase(f),
    }
}

// An address frame: echoed, with the command staged where address and command are legal; else refused.
fn stage(frame: &[u8]) -> Result<Deed, Refusal>
    ensures { effect_in_numbers result ≡ unless (outcome 8 (not (is_legal (ruled_in frame.now))) ∷ [])
        (does Reply.Echoed Memory.Kept (Next.Programs (staged_by (D 5 frame.now) (ruled_in frame.now)))) }
{
    let command = u32::from(base::byte_at(frame, 9));
    let rule = memory_address::rule(address_in(frame), command);
    let a = rule.ok_or(Refusal::IllegalAddress)?;
    does(
        Reply::Echoed,
        Memory::Kept,
        Next::Programs(command_at(command, a)),
    )
}

// What is staged in a mode.
fn staged_in(m: Mode) -> Staged
    ensures { result ≡ staged_in m }
{
    match m {
        Mode::Programming(s) => s,
        Mode::Normal(_) | Mode::Error | Mode::Waiting => Staged::Nothing,
    }
}

// A data frame: the staged command is to be done, and stays staged; refused where nothing is staged.
fn obey(s: Staged) -> Result<Deed, Refusal>
    ensures { effect_in_numbers result ≡ unless (outcome 9 (is_nothing s) ∷ []) (doing s) }
{
    match s {
        Staged::Nothing => Err(Refusal::NothingStaged),
        Staged::Read(a) => does(Reply::Cells(a), Memory::Kept, Next::Stays),
        Staged::Write(a) => does(Reply::Cells(a), Memory::Written(a), Next::Stays),
        Staged::Erase(f) => does(
            Reply::Cells(Address::Flash(f)),
            Memory::Erased(f),
            Next::Stays,
        ),
    }
}

// What a request comes to, or its refusal, which changes no memory.
pub fn asked_by(asks: Request, m: Mode, frame: &[u8]) -> Result<Deed, Refusal>
    ensures { effect_in_numbers result ≡ unless (request_outcomes asks m frame.now) (asked asks m frame.now) }
{
    match asks {
        Request::EnterProgramming => does(
            Reply::Entered,
            Memory::Bootfl(0xFF),
            Next::Programs(Staged::Nothing),
        ),
        Request::WaitForRestart => does(Reply::Silent, Memory::Kept, Next::Waits),
        Request::HardwareType => does(Reply::Hardware, Memory::Kept, Next::Stays),
        Request::FirmwareType => does(Reply::Firmware, Memory::Kept, Next::Stays),
        Request::Description => does(Reply::Described, Memory::Kept, Next::Stays),
        Request::DeviceId => does(Reply::Device, Memory::Kept, Next::Stays),
        Request::LeaveProgramming => does(Reply::Silent, Memory::Bootfl(0x00), Next::Waits),
        Request::AddressFrame => stage(frame),
        Request::DataFrame => obey(staged_in(m)),
    }
}
