//! The shapes that move their messages in blocks.
use crate::bench::Ends;
use flume::{Receiver, Sender, Waits};
use std::alloc::{AllocError, Global};

const BLOCK: usize = 64;

pub(crate) fn send_blocks<R: Waits>(alloc: Global, tx: &Sender<usize, R>, messages: usize) {
    for first in (0..messages).step_by(BLOCK) {
        let behind = messages.min(first.saturating_add(BLOCK));
        let Ok(block) = block_of(alloc, first, behind) else {
            return;
        };
        if tx.send_many(block).is_err() {
            return;
        }
    }
}

fn block_of(alloc: Global, first: usize, behind: usize) -> Result<Vec<usize>, AllocError> {
    let mut block = Vec::with_capacity(alloc, BLOCK)?;
    for message in first..behind {
        block.push(message)?;
    }
    Ok(block)
}

pub(crate) fn receive_blocks<R: Waits>(
    alloc: Global,
    rx: &Receiver<usize, R>,
    messages: usize,
) -> usize {
    let mut block = Vec::new(alloc);
    let (mut sum, mut left) = (0usize, messages);
    for _ in 0..messages {
        let Ok(count) = rx.recv_many(&mut block, BLOCK.min(left)) else {
            return sum;
        };
        if count == 0 {
            return sum;
        }
        left = left.saturating_sub(count);
        sum = sum.wrapping_add(sum_of(&block));
        block.clear();
    }
    sum
}

fn sum_of(messages: &[usize]) -> usize {
    let mut sum = 0usize;
    for message in messages {
        sum = sum.wrapping_add(*message);
    }
    sum
}

pub(crate) fn seq_many<R: Waits>(alloc: Global, ends: &Ends<R>, messages: usize) -> usize {
    send_blocks(alloc, &ends.tx, messages);
    receive_blocks(alloc, &ends.rx, messages)
}
