//! Debug texts of errors, io errors, and an error whose message has no text.
use crate::fixtures::{is, unwrap};
use flume_core::error::{
    CapacityError, NoMemory, RecvError, RecvTimeoutError, SelectError, SendError, SendTimeoutError,
    TryRecvError, TrySendError,
};
use std::alloc::{AllocError, Global};
use std::error::Error;
use std::fmt::Debug;
use std::io;
use std::process::Abort;

fn debug_is<E: Debug>(rt: &impl Abort, alloc: Global, errors: &[E], wanted: &str) {
    let text = unwrap(rt, format!(in alloc; "{errors:?}"));
    is(rt, text.as_str(), wanted);
}

#[test]
fn each_error_without_a_message_has_its_debug_text(rt: HostRuntime) {
    let (r, a) = (&rt, rt.alloc());
    let errors = [RecvError::Disconnected, RecvError::NoMemory];
    debug_is(r, a, &errors, "[Disconnected, NoMemory]");
    let (empty, closed) = (TryRecvError::Empty, TryRecvError::Disconnected);
    let errors = [empty, closed, TryRecvError::NoMemory];
    debug_is(r, a, &errors, "[Empty, Disconnected, NoMemory]");
    let (timeout, closed) = (RecvTimeoutError::Timeout, RecvTimeoutError::Disconnected);
    let errors = [timeout, closed, RecvTimeoutError::NoMemory];
    debug_is(r, a, &errors, "[Timeout, Disconnected, NoMemory]");
    let errors = [SelectError::Timeout, SelectError::NoMemory];
    debug_is(r, a, &errors, "[Timeout, NoMemory]");
    let (unbounded, closed) = (CapacityError::Unbounded, CapacityError::Disconnected);
    debug_is(r, a, &[unbounded, closed], "[Unbounded, Disconnected]");
    is(r, unbounded == CapacityError::Unbounded, true);
    is(r, unbounded == closed, false);
    debug_is(r, a, &[NoMemory], "[NoMemory]");
}

#[derive(Drop)]
struct Plain(u8);

fn texts<E: Error>(rt: &impl Abort, alloc: Global, error: &E) -> String {
    unwrap(rt, format!(in alloc; "{error}, {error:?}"))
}

#[test]
fn a_send_error_is_one_of_std_whatever_its_message(rt: HostRuntime) {
    let refused = TrySendError::Full(Plain(5));
    let text = texts(&rt, rt.alloc(), &refused);
    is(
        &rt,
        text.as_str(),
        "sending on a full channel, \"Full(..)\"",
    );
    is(&rt, refused.into_inner().0, 5);
}

fn io_errors_are<E: Into<io::Error> + Copy>(
    rt: &impl Abort,
    alloc: Global,
    errors: &[E],
    wanted: &str,
) {
    let mut text = String::new(alloc);
    for &error in errors {
        let error: io::Error = error.into();
        unwrap(rt, write!(text, "{:?}: {error}; ", error.kind()));
    }
    is(rt, text.as_str().trim_end(), wanted);
}

#[test]
fn each_error_of_a_send_becomes_an_io_error_of_its_kind_with_its_text(rt: HostRuntime) {
    let (r, a) = (&rt, rt.alloc());
    let errors = [SendError::Disconnected(1u8), SendError::NoMemory(1)];
    let wanted = "BrokenPipe: sending on a closed channel; OutOfMemory: out of memory;";
    io_errors_are(r, a, &errors, wanted);
    let (full, closed) = (TrySendError::Full(1u8), TrySendError::Disconnected(1));
    let wanted = "WouldBlock: sending on a full channel; \
        BrokenPipe: sending on a closed channel; OutOfMemory: out of memory;";
    io_errors_are(r, a, &[full, closed, TrySendError::NoMemory(1)], wanted);
    let (late, closed) = (
        SendTimeoutError::Timeout(1u8),
        SendTimeoutError::Disconnected(1),
    );
    let wanted = "TimedOut: timed out sending on a full channel; \
        BrokenPipe: sending on a closed channel; OutOfMemory: out of memory;";
    io_errors_are(r, a, &[late, closed, SendTimeoutError::NoMemory(1)], wanted);
}

#[test]
fn each_error_of_a_receive_becomes_an_io_error_of_its_kind_with_its_text(rt: HostRuntime) {
    let (r, a) = (&rt, rt.alloc());
    let errors = [RecvError::Disconnected, RecvError::NoMemory];
    let wanted = "UnexpectedEof: receiving on a closed channel; OutOfMemory: out of memory;";
    io_errors_are(r, a, &errors, wanted);
    let (empty, closed) = (TryRecvError::Empty, TryRecvError::Disconnected);
    let wanted = "WouldBlock: receiving on an empty channel; \
        UnexpectedEof: channel is empty and closed; OutOfMemory: out of memory;";
    io_errors_are(r, a, &[empty, closed, TryRecvError::NoMemory], wanted);
    let (late, closed) = (RecvTimeoutError::Timeout, RecvTimeoutError::Disconnected);
    let wanted = "TimedOut: timed out waiting on a channel; \
        UnexpectedEof: channel is empty and closed; OutOfMemory: out of memory;";
    io_errors_are(r, a, &[late, closed, RecvTimeoutError::NoMemory], wanted);
}

#[test]
fn each_other_error_becomes_an_io_error_of_its_kind_with_its_text(rt: HostRuntime) {
    let (r, a) = (&rt, rt.alloc());
    let errors = [SelectError::Timeout, SelectError::NoMemory];
    io_errors_are(
        r,
        a,
        &errors,
        "TimedOut: timeout occurred; OutOfMemory: out of memory;",
    );
    let errors = [CapacityError::Unbounded, CapacityError::Disconnected];
    let wanted = "Unsupported: channel has no capacity; \
        BrokenPipe: changing the capacity of a closed channel;";
    io_errors_are(r, a, &errors, wanted);
    io_errors_are(r, a, &[NoMemory], "OutOfMemory: out of memory;");
    is(r, AllocError::from(NoMemory), AllocError);
}
