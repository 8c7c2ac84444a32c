// The handled types, in one table.
#![tactic(auto)]

ghost use Rattle.std.specs.Prelude.{◌≡◌, ◌==◌};
ghost use Rattle.std.specs.List.{find};
ghost use Rattle.node_rules.specs.Requests.{found};

use node_rules::{Addressing, HandledIn, Kind, Request};

const TABLE: [Kind; 15] = [
    Kind {
        frame_type: 0x100,
        handled: HandledIn::InNormal,
        addressing: Addressing::AsNode,
        request: Request::EnterProgramming,
    },
    Kind {
        frame_type: 0x101,
        handled: HandledIn::InNormal,
        addressing: Addressing::AsGroup,
        request: Request::WaitForRestart,
    },
    Kind {
        frame_type: 0x102,
        handled: HandledIn::InNormal,
        addressing: Addressing::AsNode,
        request: Request::WaitForRestart,
    },
    Kind {
        frame_type: 0x103,
        handled: HandledIn::InNormal,
        addressing: Addressing::AsGroup,
        request: Request::HardwareType,
    },
    Kind {
        frame_type: 0x104,
        handled: HandledIn::InNormal,
        addressing: Addressing::AsNode,
        request: Request::HardwareType,
    },
    Kind {
        frame_type: 0x105,
        handled: HandledIn::InNormal,
        addressing: Addressing::AsGroup,
        request: Request::FirmwareType,
    },
    Kind {
        frame_type: 0x106,
        handled: HandledIn::InNormal,
        addressing: Addressing::AsNode,
        request: Request::FirmwareType,
    },
    Kind {
        frame_type: 0x10D,
        handled: HandledIn::InNormal,
        addressing: Addressing::AsGroup,
        request: Request::Description,
    },
    Kind {
        frame_type: 0x10E,
        handled: HandledIn::InNormal,
        addressing: Addressing::AsNode,
        request: Request::Description,
    },
    Kind {
        frame_type: 0x10F,
        handled: HandledIn::InNormal,
        addressing: Addressing::AsGroup,
        request: Request::DeviceId,
    },
    Kind {
        frame_type: 0x111,
        handled: HandledIn::InNormal,
        addressing: Addressing::AsNode,
        request: Request::DeviceId,
    },
    Kind {
        frame_type: 0x010,
        handled: HandledIn::InProgramming,
        addressing: Addressing::AllZero,
        request: Request::LeaveProgramming,
    },
    Kind {
        frame_type: 0x020,
        handled: HandledIn::InProgramming,
        addressing: Addressing::OwnNumbers,
        request: Request::LeaveProgramming,
    },
    Kind {
        frame_type: 0x030,
        handled: HandledIn::InProgramming,
        addressing: Addressing::OwnNumbers,
        request: Request::AddressFrame,
    },
    Kind {
        frame_type: 0x040,
        handled: HandledIn::InProgramming,
        addressing: Addressing::OwnNumbers,
        request: Request::DataFrame,
    },
];

// The first row of that type among these.
fn first_of(t: u16, rows: &[Kind]) -> Option<Kind>
    ensures { result ≡ find (λ k. k.frame_type == t) rows.now }
{
    rows.iter().copied().find(|k| k.frame_type == t)
}

// The table's first row of that type.
#[tactic(auto, unfolding(node_rules::specs::Requests::found, node_rules::specs::Requests::handled_types))]
pub fn look_up(t: u16) -> Option<Kind>
    ensures { result ≡ found t }
{
    first_of(t, &TABLE)
}
