// Sends frames, one after another.
ghost use Rattle.std.specs.Prelude.{◌≡◌, ◌+◌, ◌^◌, ◌≤◌, ◌<◌, ◌⊎◌, [], IsTrue, false, true, length, drop, slice_index_or, IfOk, IfErr, IfSome, IsNone};
ghost use Rattle.array_shape.specs.NumberSet.{members};
ghost use Rattle.mirror.specs.Sending.{IsSendable, Sends, sending_of, group_of, frame_most};
ghost use Rattle.mirror.specs.Groups.{AreSendable, groups_of};

use crate::link::Link;
use crate::log::PlainLog;
use crate::writer::{append_group, append_groups, begin_frame, count_groups};
use array_shape::{NumberSet, Shape};
use mars_base::NoMemory;
use std::alloc::Global;
use std::marker::Model;

/// Sends frames over a link, in sequence from 1 on, up to the first that is not sent. Room for the longest frame is taken when it is made.
#[derive(Drop)]
pub(crate) struct Sender<L: Link> {
    link: L,
    shape: Shape,
    frame: Vec<u8>,
    sent: u64,
    is_down: bool,
}

impl<L: Link> Model for Sender<L> {
    ghost use Rattle.std.specs.Prelude.{◌≤◌, vec_capacity};
    ghost use Rattle.mirror.specs.Sending.{SenderView, frame_most};

    ghost Value = { SenderView L };

    ghost view = { λ s. record { link = s.link; shape = s.shape; room = vec_capacity s.frame; sent = s.sent; is_down = s.is_down } };

    ghost invariant = { λ s. frame_most s.shape ≤ vec_capacity s.frame };
}

impl<L: Link> Sender<L> {
    /// A sender that has sent nothing, with room for just the longest frame. An error returns the link.
    pub(crate) fn new(alloc: Global, shape: Shape, link: L) -> Result<Sender<L>, (NoMemory, L)>
        ensures fresh { IfOk result (λ sender. sender ≡ record { link = link; shape = shape; room = frame_most shape; sent = 0; is_down = false }) }
        ensures returned { IfErr result (λ failed. failed.1 ≡ link) }
    {
        let parts = usize::from(shape.loggers) * usize::from(shape.entries);
        let most = 14 + usize::from(shape.numbers) * (3 + 522 * parts);
        match Vec::with_capacity(alloc, most) {
            Ok(frame) => Ok(Sender {
                link,
                shape,
                frame,
                sent: 0,
                is_down: false,
            }),
            Err(_) => Err((NoMemory, link)),
        }
    }

    pub(crate) fn into_link(self) -> L
        ensures { result ≡ self.link }
    {
        let Sender { link, .. } = self;
        link
    }

    pub(crate) fn first_frame(&self) -> &[u8]
        ensures { IsTrue L.tells → result.now ≡ slice_index_or (L.frames self.now.link) 0 [] }
    {
        self.link.first_frame()
    }

    pub(crate) fn drop_frame(&mut self)
        ensures frames { IsTrue L.tells → L.frames self.new.link ≡ drop 1 (L.frames self.old.link) }
        ensures faults { L.faults self.new.link ≡ L.faults self.old.link }
        ensures rest { self.new ≡ record self.old { link = self.new.link } }
    {
        self.link.drop_frame();
    }

    pub(crate) fn is_down(&self) -> bool
        ensures { result ≡ self.now.is_down }
    {
        self.is_down
    }

    // The sequence of the next frame, while the sending goes on. Behind the last one that there is it ends.
    fn next_sequence(&mut self) -> Option<u64>
        ensures next { IfSome result (λ next. (next ≡ self.old.sent + 1) × (self.old.sent + 1 < 2 ^ 64) × (self.old.is_down ≡ false) × (self.new ≡ self.old)) }
        ensures none { IsNone result → (self.new ≡ record self.old { is_down = true }) × ((self.old.is_down ≡ true) ⊎ (2 ^ 64 ≤ self.old.sent + 1)) }
    {
        if self.is_down {
            return None;
        }
        let next = self.sent.checked_add(1);
        if next.is_none() {
            self.is_down = true;
        }
        next
    }

    /// Sends what was committed of a log: the parts from `offset` on.
    pub(crate) fn send_log(&mut self, number: u8, log: &PlainLog, offset: usize)
        requires number { number < self.old.shape.numbers }
        requires offset { offset ≤ length log.now.parts }
        requires log { IsSendable self.old.shape log.now.parts }
        ensures shape { self.new.shape ≡ self.old.shape }
        ensures sends { Sends L.tells self.old.shape (group_of number (drop offset log.now.parts)) (sending_of L.tells L.frames L.faults self.old) (sending_of L.tells L.frames L.faults self.new) }
    {
        if log.len() == offset {
            return;
        }
        let Some(sequence) = self.next_sequence() else {
            return;
        };
        begin_frame(&mut self.frame, sequence, 1);
        append_group(&mut self.frame, number, log, offset);
        match self.link.send(&self.frame) {
            Ok(()) => self.sent += 1,
            Err(_) => self.is_down = true,
        }
    }

    /// Sends what was committed of the logs of a set of numbers.
    pub(crate) fn send_logs(&mut self, tids: NumberSet, logs: &[PlainLog])
        requires logs { AreSendable self.old.shape logs.now (members tids) }
        ensures shape { self.new.shape ≡ self.old.shape }
        ensures sends { Sends L.tells self.old.shape (groups_of logs.now (members tids)) (sending_of L.tells L.frames L.faults self.old) (sending_of L.tells L.frames L.faults self.new) }
    {
        let count = count_groups(tids, logs);
        if count == 0 {
            return;
        }
        let Some(sequence) = self.next_sequence() else {
            return;
        };
        begin_frame(&mut self.frame, sequence, count);
        append_groups(&mut self.frame, tids, logs);
        match self.link.send(&self.frame) {
            Ok(()) => self.sent += 1,
            Err(_) => self.is_down = true,
        }
    }
}
