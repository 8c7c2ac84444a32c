// The parts of a record that can be untidy: the held bytes, and what is staged.
ghost use Rattle.std.specs.Prelude.{◌≡◌, []};
ghost use Rattle.node_rules.specs.Record.{receiving, held_in, legal_at, legal_staged};
ghost use Rattle.node_record.specs.Internal.Tidy.{is_tidy};

use memory_address::{Address, ERASE, READ, WRITE};
use node_rules::{Mode, Receiver, Staged};

// Nothing held.
pub fn none_held() -> Receiver
    ensures { result ≡ receiving [] }
{
    Receiver {
        held: [0; 15],
        count: 0,
    }
}

// What is held, and 0 behind it: more than 14 bytes, or bytes not starting with 0xAA, count as none.
#[tactic(auto, unfolding(node_rules::specs::Record::held_in))]
pub fn tidy_receiver(r: Receiver) -> Receiver
    ensures { result ≡ receiving (held_in r) }
{
    let count = r.count;
    let mut held = r.held;
    if count == 0 || 14 < count || held[0] != 0xAA {
        return none_held();
    }
    held[count..].fill(0);
    Receiver { held, count }
}

// Whether a command is legal at an address of either kind.
fn legal_at(a: Address, command: u32) -> bool
    ensures { result ≡ legal_at a command }
{
    match a {
        Address::Flash(f) => memory_address::legal_flash(f, command),
        Address::Eeprom(p) => memory_address::legal_eeprom(p, command),
    }
}

// Whether a command may be staged; nothing may.
fn legal_staged(s: Staged) -> bool
    ensures { result ≡ legal_staged s }
{
    match s {
        Staged::Nothing => true,
        Staged::Read(a) => legal_at(a, READ),
        Staged::Write(a) => legal_at(a, WRITE),
        Staged::Erase(f) => memory_address::legal_flash(f, ERASE),
    }
}

// Whether a mode is tidy: nothing is staged that isn't legal.
pub fn is_tidy(m: Mode) -> bool
    ensures { result ≡ is_tidy m }
{
    match m {
        Mode::Programming(s) => legal_staged(s),
        Mode::Normal(_) | Mode::Error | Mode::Waiting => true,
    }
}
