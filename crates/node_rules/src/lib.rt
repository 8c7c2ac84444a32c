// The node's record, what a frame comes to and what a call answers. The rules themselves stand in specs/, laid out as document 01 is, and
// proofs/ has what follows from them alone.
#![tactic(auto)]

ghost use Rattle.std.specs.Prelude.{◌≡◌};
ghost use Rattle.node_rules.specs.InNumbers.{refusal_number};

use memory_address::{Address, FlashAddress, Group, Module};

// The pin: which ports the node listens on.
#[derive(Clone, Copy)]
pub enum Pin {
    CanOnly,
    CanAndUart,
}

// The staged command with its address. Erase can carry only a FLASH address. `Nothing` here, and `Kept`, `Stays` and `Silent` below, are
// the words of the request table (`asked`, `doing`): an Option around each would be no plainer.
#[derive(Clone, Copy)]
pub enum Staged {
    Nothing,
    Read(Address),
    Write(Address),
    Erase(FlashAddress),
}

// The mode, with what belongs to it: normal with firmware started or not, programming with what is staged.
#[derive(Clone, Copy)]
pub enum Mode {
    Normal(bool),
    Programming(Staged),
    Error,
    Waiting,
}

// What becomes of fifteen bytes with a wrong sum or stop: the first is dropped, and from the next 0xAA on they stay held; or all are dropped,
// the old way, which has to be asked for by name.
#[derive(Clone, Copy)]
pub enum Noise {
    KeepFromNext,
    DropAll,
}

// What is chosen at a restart, and kept until the next one that gives 0.
#[derive(Clone, Copy)]
pub struct Choices {
    pub pin: Pin,
    pub noise: Noise,
}

// The plate: ID0 to ID3 with DEVID1 and DEVID2, and the own numbers, which a restart copies from EEPROM.
#[derive(Clone, Copy)]
pub struct Plate {
    pub fixed: [u8; 6],
    pub own: Module,
    pub group: Group,
}

// What is being received on UART: the first `count` bytes are held, and 0 stands behind them. At most 14 are held: the fifteenth
// completes a frame. A count beside an array: memory is fixed, and any record may be handed in (`tidied`).
#[derive(Clone, Copy)]
pub struct Receiver {
    pub held: [u8; 15],
    pub count: usize,
}

// A node.
#[derive(Clone, Copy)]
pub struct Node {
    pub choices: Choices,
    pub plate: Plate,
    pub receiver: Receiver,
    pub mode: Mode,
}

// The mode in which a type is handled.
#[derive(Clone, Copy)]
pub enum HandledIn {
    InNormal,
    InProgramming,
}

// How a type is addressed: as "group", as "node", by both frame numbers 0x00, or by the own numbers in the frame.
#[derive(Clone, Copy)]
pub enum Addressing {
    AsGroup,
    AsNode,
    AllZero,
    OwnNumbers,
}

// What a type asks.
#[derive(Clone, Copy)]
pub enum Request {
    EnterProgramming,
    WaitForRestart,
    HardwareType,
    FirmwareType,
    Description,
    DeviceId,
    LeaveProgramming,
    AddressFrame,
    DataFrame,
}

// A row of the table of handled types.
#[derive(Clone, Copy)]
pub struct Kind {
    pub frame_type: u16,
    pub handled: HandledIn,
    pub addressing: Addressing,
    pub request: Request,
}

// What becomes of the memories: they are kept, BOOTFL becomes a value, a row is written, or a block is erased.
#[derive(Clone, Copy)]
pub enum Memory {
    Kept,
    Bootfl(u8),
    Written(Address),
    Erased(FlashAddress),
}

// The mode afterwards: it stays, is programming with this staged, or is waiting for restart.
#[derive(Clone, Copy)]
pub enum Next {
    Stays,
    Programs(Staged),
    Waits,
}

// Which reply: none, or the data of a row of the request table.
#[derive(Clone, Copy)]
pub enum Reply {
    Silent,
    Entered,
    Hardware,
    Firmware,
    Described,
    Device,
    Echoed,
    Cells(Address),
}

// Why a frame or a call is refused: document 01's numbered outcomes but 0, in the order of the numbers.
#[derive(Clone, Copy, PartialEq, Eq)]
pub enum Refusal {
    WrongLength,
    ClosedPort,
    TakesNoFrame,
    Misshapen,
    IsResponse,
    NotHandled,
    NotForNode,
    IllegalAddress,
    NothingStaged,
    Incomplete,
    BadFrame,
}

impl Refusal {
    // Document 01's number.
    pub fn number(self) -> u8
        ensures { result ≡ refusal_number self }
    {
        match self {
            Refusal::WrongLength => 1,
            Refusal::ClosedPort => 2,
            Refusal::TakesNoFrame => 3,
            Refusal::Misshapen => 4,
            Refusal::IsResponse => 5,
            Refusal::NotHandled => 6,
            Refusal::NotForNode => 7,
            Refusal::IllegalAddress => 8,
            Refusal::NothingStaged => 9,
            Refusal::Incomplete => 10,
            Refusal::BadFrame => 11,
        }
    }
}

// What a frame that is not refused comes to: the reply, and what becomes of memories and mode.
#[derive(Clone, Copy)]
pub struct Deed {
    pub reply: Reply,
    pub memory: Memory,
    pub next: Next,
}

// The same in document 01's numbers, and of a refusal, too: the number, the reply, and what becomes of memories and mode.
#[derive(Clone, Copy)]
pub struct Effect {
    pub number: u8,
    pub reply: Reply,
    pub memory: Memory,
    pub next: Next,
}

// How many replies, and their bytes; 0 behind them. On CAN N is 24, for two replies of 12 bytes; on UART 30, for two of 15 wrapped bytes.
// A count beside an array: memory is fixed.
#[derive(Clone, Copy)]
pub struct Replies<const N: usize> {
    pub count: u8,
    pub bytes: [u8; N],
}

// The answer to a frame or a byte: the replies or why it is refused, and the node.
#[derive(Clone, Copy)]
pub struct Answer<const N: usize> {
    pub outcome: Result<Replies<N>, Refusal>,
    pub node: Node,
}

// An answer in document 01's numbers, any number with any replies: the number, how many replies and their bytes (N is as in `Replies`), and
// the node.
#[derive(Clone, Copy)]
pub struct Numbered<const N: usize> {
    pub number: u8,
    pub count: u8,
    pub replies: [u8; N],
    pub node: Node,
}

// The answer to a restart: whether it was refused, and the node.
#[derive(Clone, Copy)]
pub struct Restarted {
    pub outcome: Result<(), Refusal>,
    pub node: Node,
}
