// The node's calls: a fresh one, restart, a CAN frame, a UART byte and a piece of UART bytes. The theorems of demands one and two speak of
// these. FLASH and EEPROM are lent as two parameters everywhere: the clauses and theorems over these calls name both, and a caller lends two
// memories.
#![tactic(auto)]

pub use node_can::can_frame;
pub use node_piece::uart_piece;
pub use node_restart::{fresh, restart, restart_with};
pub use node_uart::uart_byte;
