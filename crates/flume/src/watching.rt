//! A thread that looks at a channel, for a program that hangs.
use crate::runtime::Runtime;
use crate::weak::WeakSender;
use flume_calls::description::Description;
use std::time::Duration;
use std::{io, thread};

/// Starts a thread that looks at a channel at this interval, by `WeakSender::describe`. It calls `show`
/// with what it found if that counts a blocked send or a waiting receive and equals what the look
/// before found; then not again until a look has found something else. What changed back between two
/// looks isn't seen. The thread ends at the first look that finds no sender, and is cut off when
/// `main` returns. Err: it wasn't started, and `show` was dropped.
/// ```
/// let (tx, rx) = flume::on(rt).bounded::<u64>(4)?;
/// let (found, shown) = flume::on(rt).unbounded()?;
/// let show = move |it| {
///     let _ = found.send(it);
/// };
/// watch(&rt, Duration::from_millis(1), tx.downgrade()?, show)?;
/// let receiver = thread::spawn(&rt, move || rx.recv())?;
/// assert_eq!(rt; shown.recv()?.waiting_receivers, 1);
/// tx.send(7)?;
/// assert_eq!(rt; receiver.join(&rt), Ok(7));
/// drop(tx);
/// assert_eq!(rt; shown.recv(), Err(RecvError::Disconnected));
/// ```
pub fn watch<T, R, F>(
    rt: &R,
    interval: Duration,
    channel: WeakSender<T, R>,
    show: F,
) -> io::Result<()>
where
    T: Send + Drop + 'static,
    R: Runtime,
    F: FnMut(Description) + Send + Drop + 'static,
    requires callable { F.IsAlwaysCallable show }
{
    let runtime = *rt;
    let look = move || -> ()
        requires { F.IsAlwaysCallable show }
    { look_while_open(runtime, interval, channel, show) };
    let _thread = thread::spawn(rt, look)?;
    Ok(())
}

fn look_while_open<T, R, F>(rt: R, interval: Duration, channel: WeakSender<T, R>, mut show: F)
where
    T: Drop,
    R: Runtime,
    F: FnMut(Description) + Drop,
    requires callable { F.IsAlwaysCallable show }
{
    let mut last = channel.describe();
    let mut is_shown = false;
    for _ in rt.forever() {
        if last.sender_count == 0 {
            return;
        }
        thread::sleep(&rt, interval);
        let now = channel.describe();
        let is_stuck = now == last && now.blocked_senders.max(now.waiting_receivers) > 0;
        if is_stuck && !is_shown {
            show(now);
        }
        (last, is_shown) = (now, is_stuck);
    }
}
