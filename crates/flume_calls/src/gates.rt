//! The loops of blocking calls. A *gate*, which the caller writes, makes the turns and waits.

mod receive;
mod select;
mod send;

pub use receive::{RecvGate, recv_over, waiting_receive};
pub use select::{ArmNext, SelectGate, select_over, try_select_over};
pub use send::{SendGate, send_over, waiting_send};
