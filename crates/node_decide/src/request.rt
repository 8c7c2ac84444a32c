// What a frame says, and whom it is for.
ghost use Rattle.std.specs.Prelude.{◌≡◌, ◌&&◌, eqb};
ghost use Rattle.frame_rules.specs.Frame.{module_of, group_of};
ghost use Rattle.node_rules.specs.Requests.{are_own, is_for, handled_here};
ghost use Rattle.node_rules.specs.Outcomes.{misshapen, is_response};

use memory_address::{Group, Module};
use node_rules::{Addressing, HandledIn, Mode, Plate};

// Outcome 4: not 12 bytes, or an upper flag set.
pub fn misshapen(frame: &[u8]) -> bool
    ensures { result ≡ misshapen frame.now }
{
    frame.len() != 12 || base::byte_at(frame, 1) % 16 / 2 != 0
}

// Outcome 5: the response flag is set.
pub fn is_response(frame: &[u8]) -> bool
    ensures { result ≡ is_response frame.now }
{
    base::byte_at(frame, 1) % 16 % 2 == 1
}

// Whether a module and a group are the node's own. Two parameters, as the definition of the same name in specs has them.
fn are_own(p: Plate, m: Module, g: Group) -> bool
    ensures { result ≡ are_own p m g }
{
    m == p.own && g == p.group
}

// D2 is 0x00 and D3 is 0x00 or the own group.
fn is_group(p: Plate, frame: &[u8]) -> bool
    ensures { result ≡ is_for Addressing.AsGroup p frame.now }
{
    let third = base::byte_at(frame, 7);
    base::byte_at(frame, 6) == 0x00 && (third == 0x00 || third == p.group.0)
}

// The frame's module and group are both 0x00.
fn are_zero(frame: &[u8]) -> bool
    ensures { result ≡ (eqb (module_of frame.now) 0 && eqb (group_of frame.now) 0) }
{
    base::byte_at(frame, 2) == 0x00 && base::byte_at(frame, 3) == 0x00
}

// Whether a frame that is addressed so is for this node.
pub fn is_for(addressing: Addressing, p: Plate, frame: &[u8]) -> bool
    ensures { result ≡ is_for addressing p frame.now }
{
    match addressing {
        Addressing::AsGroup => is_group(p, frame),
        Addressing::AsNode => are_own(
            p,
            Module(base::byte_at(frame, 6)),
            Group(base::byte_at(frame, 7)),
        ),
        Addressing::AllZero => are_zero(frame),
        Addressing::OwnNumbers => are_own(
            p,
            Module(base::byte_at(frame, 2)),
            Group(base::byte_at(frame, 3)),
        ),
    }
}

// Whether a type that is handled there is handled in this mode.
pub fn handled_here(handled: HandledIn, m: Mode) -> bool
    ensures { result ≡ handled_here handled m }
{
    match handled {
        HandledIn::InNormal => matches!(m, Mode::Normal(_)),
        HandledIn::InProgramming => matches!(m, Mode::Programming(_)),
    }
}
