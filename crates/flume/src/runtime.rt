//! One bound for a runtime value that can do all that a user of channels needs.
use crate::shared::Waits;
use std::alloc::{Alloc, Global};
use std::thread::Threads;

/// What a program that opens channels or starts threads asks of its runtime value; else `Waits` is
/// enough. To print add `Print`, for `block_on` `RandomSource`; for `?` to `io` list `flume_error`.
/// ```
/// // A function that takes an end.
/// fn send_all<R: Waits>(tx: &Sender<u64, R>, most: u64) -> io::Result<()> {
///     for number in 0..most {
///         tx.send(number)?;
///     }
///     Ok(())
/// }
///
/// // A message that carries an end: a number, and the sender of its reply.
/// #[derive(Drop)]
/// struct Request<R: Waits> {
///     number: u64,
///     reply: Sender<u64, R>,
/// }
///
/// // A struct that holds an end, here of such messages.
/// #[derive(Drop)]
/// struct Doubler<R: Waits> {
///     requests: Receiver<Request<R>, R>,
/// }
///
/// // A function that opens a channel, and hands its receiver to a thread.
/// fn start<R: Runtime>(rt: R) -> io::Result<(Sender<Request<R>, R>, JoinHandle<io::Result<()>>)> {
///     let (tx, requests) = flume::on(rt).unbounded()?;
///     let doubler = Doubler { requests };
///     Ok((tx, thread::spawn(&rt, move || doubler.serve())?))
/// }
/// ```
pub trait Runtime: Waits + Threads + Alloc<A = Global> + Send + Sync + 'static {}

impl<R: Waits + Threads + Alloc<A = Global> + Send + Sync + 'static> Runtime for R {}
