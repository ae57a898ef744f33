//! Calls over links in memory: of one message, with streamed answers, and of several messages.

use crate::cuts::write_heard;
use crate::messages::Messages;
use rx_fakes::{Ahead, MemoryDial, Script};
use rx_grpc::{Answer, Channel, StreamItem, TransferFault};
use rx_rows::{RowFault, Turn};
use std::alloc::Global;
use std::collections::VecDeque;

/// How many bytes the preface of a connection has (RFC 9113 3.4).
const PREFACE_SIZE: usize = 24;

/// How many bytes a frame begins with before its payload (RFC 9113 4.1).
const HEADER_SIZE: usize = 9;

/// A channel, and the links that the next channel makes.
#[derive(Drop)]
pub(crate) struct Links {
    pub(crate) alloc: Global,
    pub(crate) ahead: VecDeque<Ahead>,
    pub(crate) channel: Option<Channel<MemoryDial>>,
}

/// The numbers that are left.
fn read_numbers(turn: &mut Turn<'_, '_>) -> Vec<u64> {
    let mut numbers = Vec::new(turn.alloc());
    for _ in 0..u32::MAX {
        if turn.is_done() {
            break;
        }
        if numbers.push(turn.read_number()).is_err() {
            turn.refuse(RowFault::NoMemory);
        }
    }
    numbers
}

/// Writes of each frame its type, flags, stream and length.
fn write_frames(bytes: &[u8], turn: &mut Turn<'_, '_>) {
    let mut left = bytes;
    for _ in 0..u32::MAX {
        if left.len() < HEADER_SIZE {
            break;
        }
        let size = number_of(left[0], left[1], left[2]);
        turn.write_number(u64::from(left[3]));
        turn.write_number(u64::from(left[4]));
        turn.write_number(number_of(left[6], left[7], left[8]) as u64);
        turn.write_number(size as u64);
        let (_header, payload) = left.split_at(HEADER_SIZE);
        let (_payload, rest) = payload.split_at(size.min(payload.len()));
        left = rest;
    }
}

/// Three bytes, the highest first.
fn number_of(first: u8, second: u8, third: u8) -> usize {
    (first as usize * 256 + second as usize) * 256 + third as usize
}

/// Writes why a call has no answer.
fn write_fault(fault: &TransferFault, turn: &mut Turn<'_, '_>) {
    match fault {
        TransferFault::Protocol(code) => turn.write_named("Protocol", u64::from(*code)),
        fault => turn.write_value(fault),
    }
}

/// Writes what a call heard.
fn write_result(heard: &Result<Answer, TransferFault>, turn: &mut Turn<'_, '_>) {
    match heard {
        Ok(answer) => write_heard(answer, turn),
        Err(fault) => write_fault(fault, turn),
    }
}

/// Writes that a call has begun.
fn write_begun(begun: &Result<(), TransferFault>, turn: &mut Turn<'_, '_>) {
    match begun {
        Ok(()) => turn.write_word("ok"),
        Err(fault) => write_fault(fault, turn),
    }
}

/// Writes what a streamed answer shows next, or why it shows nothing.
fn write_next(next: &Result<StreamItem, TransferFault>, turn: &mut Turn<'_, '_>) {
    match next {
        Ok(item) => write_item(item, turn),
        Err(fault) => write_fault(fault, turn),
    }
}

/// Writes what a streamed answer shows next.
fn write_item(item: &StreamItem, turn: &mut Turn<'_, '_>) {
    match item {
        StreamItem::Message(message) => {
            turn.write_word("Message");
            turn.write_bytes(message.as_slice());
        }
        StreamItem::Success { cut: true } => turn.write_word("Success cut"),
        StreamItem::Success { cut: false } => turn.write_word("Success"),
        StreamItem::Status(code) => turn.write_named("Status", u64::from(*code)),
        item => turn.write_value(item),
    }
}

impl Links {
    pub(crate) fn new(alloc: Global) -> Links {
        Links {
            alloc,
            ahead: VecDeque::new(alloc),
            channel: None,
        }
    }

    /// `link MOST BYTES FAIL ..`.
    pub(crate) fn link(&mut self, turn: &mut Turn<'_, '_>) {
        let link = Ahead {
            most: turn.read_number() as usize,
            bytes: turn.read_bytes(),
            fails: read_numbers(turn),
        };
        if self.ahead.push_back(link).is_err() {
            turn.refuse(RowFault::NoMemory);
        }
        turn.write_word("ok");
    }

    /// `channel AUTHORITY FAIL ..`.
    pub(crate) fn channel(&mut self, turn: &mut Turn<'_, '_>) {
        let authority = turn.read_text();
        let script = Script::new(read_numbers(turn));
        if authority.len() > u32::MAX as usize {
            return turn.refuse(RowFault::BadCall);
        }
        let alloc = self.alloc;
        let dial = MemoryDial {
            alloc,
            ahead: std::mem::replace(&mut self.ahead, VecDeque::new(alloc)),
            script,
        };
        self.channel = Some(Channel::new(alloc, dial, authority));
        turn.write_word("ok");
    }

    /// `call PATH MESSAGE`.
    pub(crate) fn call(&mut self, turn: &mut Turn<'_, '_>) {
        let path = turn.read_text();
        let message = turn.read_bytes();
        if path.len() > u32::MAX as usize || message.len() > u32::MAX as usize {
            return turn.refuse(RowFault::BadCall);
        }
        match &mut self.channel {
            Some(channel) => write_result(&channel.unary(&path, &message), turn),
            None => turn.refuse(RowFault::BadCall),
        }
    }

    /// `upload PATH MESSAGE ..`.
    pub(crate) fn upload(&mut self, turn: &mut Turn<'_, '_>) {
        let path = turn.read_text();
        let mut messages = Messages::read(turn);
        if path.len() > u32::MAX as usize {
            return turn.refuse(RowFault::BadCall);
        }
        match &mut self.channel {
            Some(channel) => write_result(&channel.upload(&path, &mut messages), turn),
            None => turn.refuse(RowFault::BadCall),
        }
    }

    /// `begin PATH MESSAGE`.
    pub(crate) fn begin(&mut self, turn: &mut Turn<'_, '_>) {
        let path = turn.read_text();
        let message = turn.read_bytes();
        if path.len() > u32::MAX as usize || message.len() > u32::MAX as usize {
            return turn.refuse(RowFault::BadCall);
        }
        match &mut self.channel {
            Some(channel) => write_begun(&channel.begin(&path, &message), turn),
            None => turn.refuse(RowFault::BadCall),
        }
    }

    /// `item`: the next item of the answer that is open, or `closed` where none is.
    pub(crate) fn item(&mut self, turn: &mut Turn<'_, '_>) {
        match &mut self.channel {
            Some(channel) => next_item(channel, turn),
            None => turn.refuse(RowFault::BadCall),
        }
    }

    /// `sent`: what was sent on the link of the last call. `frames`: the frames of that.
    pub(crate) fn sent(&self, whole: bool, turn: &mut Turn<'_, '_>) {
        match &self.channel {
            Some(channel) => write_sent(channel, whole, turn),
            None => turn.refuse(RowFault::BadCall),
        }
    }

    /// `dials`: how often the dial was asked.
    pub(crate) fn dials(&self, turn: &mut Turn<'_, '_>) {
        match &self.channel {
            Some(channel) => turn.write_number(channel.dial().script.calls),
            None => turn.refuse(RowFault::BadCall),
        }
    }
}

fn next_item(channel: &mut Channel<MemoryDial>, turn: &mut Turn<'_, '_>) {
    if channel.is_answering() {
        write_next(&channel.next(), turn);
    } else {
        turn.write_word("closed");
    }
}

fn write_sent(channel: &Channel<MemoryDial>, whole: bool, turn: &mut Turn<'_, '_>) {
    let Some(link) = channel.link() else {
        return turn.write_word("none");
    };
    if whole {
        return turn.write_bytes(&link.sent);
    }
    let (_preface, frames) = link.sent.split_at(PREFACE_SIZE.min(link.sent.len()));
    write_frames(frames, turn);
}
