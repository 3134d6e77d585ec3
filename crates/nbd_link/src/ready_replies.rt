//! Replies with long data that the reader has made ready, so that one is copied while the writer sends the one before.

use nbd_base::NoMemory;
use nbd_policy::{READY_BYTES, READY_REPLIES, READY_TEXTS, makes_another_ready};
use session_turns::{REPLY_HEAD_BYTES, ReadyReply};
use std::alloc::Global;
use std::collections::VecDeque;
use std::sync::{Mutex, Wait};

/// The replies of one session that are ready.
#[derive(Drop)]
pub struct ReadyReplies {
    // The oldest first. Their room was obtained at the start.
    ready: Mutex<VecDeque<ReadyReply<Global>, Global>>,
    // Memory for texts.
    blank: Mutex<Vec<Vec<u8, Global>, Global>>,
}

impl ReadyReplies {
    pub fn new(alloc: Global) -> Result<ReadyReplies, NoMemory> {
        Ok(ReadyReplies {
            ready: Mutex::new(VecDeque::with_capacity(alloc, READY_REPLIES)?),
            blank: Mutex::new(Vec::with_capacity(alloc, READY_TEXTS)?),
        })
    }

    /// Memory for a text, where there is any and one more is to be made, the first behind a hold or a further one.
    pub fn blank<R: Wait>(&self, rt: &R, alloc: Global, is_first: bool) -> Option<Vec<u8, Global>> {
        if !self.makes_another(rt, is_first) {
            return None;
        }
        match self.blank.lock(rt).pop() {
            Some(text) => Some(text),
            None => Vec::with_capacity(alloc, READY_BYTES + REPLY_HEAD_BYTES).ok(),
        }
    }

    /// Whether one more is to be made ready.
    fn makes_another<R: Wait>(&self, rt: &R, is_first: bool) -> bool {
        let ready = self.ready.lock(rt);
        let mut bytes = 0usize;
        for reply in ready.iter() {
            bytes = bytes.saturating_add(reply.data());
        }
        makes_another_ready(is_first, ready.len(), bytes)
    }

    /// A reply is ready. False where there is no place for it.
    pub fn put<R: Wait>(&self, rt: &R, reply: ReadyReply<Global>) -> bool {
        let mut ready = self.ready.lock(rt);
        if ready.len() >= ready.capacity() {
            return false;
        }
        ready.push_back_reserved(reply);
        true
    }

    /// The reply that has been ready longest.
    pub fn take<R: Wait>(&self, rt: &R) -> Option<ReadyReply<Global>> {
        self.ready.lock(rt).pop_front()
    }

    pub fn is_empty<R: Wait>(&self, rt: &R) -> bool {
        self.ready.lock(rt).is_empty()
    }

    /// What was ready is sent; a text's memory is used again.
    pub fn give_back<R: Wait>(&self, rt: &R, sent: ReadyReply<Global>) {
        if let ReadyReply::Text(mut text) = sent {
            text.clear();
            let mut blank = self.blank.lock(rt);
            if blank.len() < blank.capacity() {
                blank.push_reserved(text);
            }
        }
    }

    /// The client waits for nothing: gives back the memory for texts.
    pub fn rest<R: Wait>(&self, rt: &R) {
        self.blank.lock(rt).clear();
    }
}
