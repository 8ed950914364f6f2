//! Futures, sinks and streams. One that is dropped while it waits leaves the channel: a send takes
//! its message back, a receive passes on a wake that it had. One that is forgotten does neither.

mod many;
mod owned_or_ref;
mod receive;
mod send;
mod sink;
mod stream;
mod traced_receive;
mod traced_send;
mod traced_sink;
mod traced_stream;

pub use receive::RecvFut;
pub use send::SendFut;
pub use sink::SendSink;
pub use stream::RecvStream;
pub use traced_receive::TracedRecvFut;
pub use traced_send::TracedSendFut;
pub use traced_sink::TracedSendSink;
pub use traced_stream::TracedRecvStream;
