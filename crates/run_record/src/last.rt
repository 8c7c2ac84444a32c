// The end of the record: the mode, what is staged, and its address.
ghost use Rattle.std.specs.Prelude.{◌≡◌, ◌∷◌};
ghost use Rattle.node_rules.specs.declared.Mode.TheVariants.{Programming};
ghost use Rattle.run_record.specs.Internal.Record.{memory_of, address_number, four_bytes, mode_bytes};

use memory_address::Address;
use node_rules::{Mode, Staged};

// These seven bytes: the address has its high byte first.
fn written(mode: u8, staged: u8, kind: u8, address: u32) -> [u8; 7]
    ensures { result ≡ mode ∷ staged ∷ kind ∷ four_bytes address }
{
    let [first, second, third, fourth] = address.to_be_bytes();
    [mode, staged, kind, first, second, third, fourth]
}

// A mode in which nothing is staged.
fn plain(mode: u8) -> [u8; 7]
    ensures { result ≡ mode ∷ 0 ∷ 0 ∷ four_bytes 0 }
{
    written(mode, 0, 0, 0)
}

// Programming mode with this command at an address of either kind.
fn staged_at(staged: u8, a: Address) -> [u8; 7]
    ensures { result ≡ 2 ∷ staged ∷ memory_of a ∷ four_bytes (address_number a) }
{
    match a {
        Address::Flash(f) => written(2, staged, 0, f.0),
        Address::Eeprom(e) => written(2, staged, 1, e.0),
    }
}

// Programming mode with what is staged.
fn last_of_staged(s: Staged) -> [u8; 7]
    ensures { result ≡ mode_bytes (Programming s) }
{
    match s {
        Staged::Nothing => plain(2),
        Staged::Read(a) => staged_at(1, a),
        Staged::Write(a) => staged_at(2, a),
        Staged::Erase(f) => staged_at(3, Address::Flash(f)),
    }
}

// The mode with what is staged in it; nothing is outside programming mode.
pub fn last_of(m: Mode) -> [u8; 7]
    ensures { result ≡ mode_bytes m }
{
    match m {
        Mode::Normal(started) => plain(u8::from(started)),
        Mode::Programming(s) => last_of_staged(s),
        Mode::Error => plain(3),
        Mode::Waiting => plain(4),
    }
}
