//! The turns of sends and receives: alike, but a generic one would need a relation for each table.

mod receive;
mod receive_many;
mod send;
mod send_many;

pub use receive::{AgainReceive, FirstReceive, ParkReceive, RecvCall, RecvNext};
pub use receive_many::{FirstReceiveMany, ManyNext, MoreReceives, ReceiveAndMore};
pub use send::{AgainSend, FirstSend, ParkSend, SendCall, SendNext};
pub use send_many::SendMany;
