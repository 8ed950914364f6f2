//! The types of a channel's ends and allocator.

use flume::polled::{RecvFut, SendFut};
use flume::{Receiver, Sender};
use judge_recorder::RecordedFuture;
use std::alloc::Global;
use test_support::counting::Counting;

/// Refuses memory now and then.
pub(crate) type Heap<'h> = &'h Counting<Global>;

pub(crate) type TestSender<'h, R> = Sender<u64, R, Heap<'h>>;

pub(crate) type TestReceiver<'h, R> = Receiver<u64, R, Heap<'h>>;

pub(crate) type OpenSend<'e, 'h, R> = RecordedFuture<SendFut<'e, u64, R, Heap<'h>>, u64>;

pub(crate) type OpenReceive<'e, 'h, R> = RecordedFuture<RecvFut<'e, u64, R, Heap<'h>>, u64>;
