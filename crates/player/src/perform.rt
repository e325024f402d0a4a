// A request of a recording: it is performed by the storage unit with a buffer of its own, and answered by a line.
ghost use Rattle.std.specs.Prelude.{◌≤◌, ◌≡◌, length, take, replicate};
ghost use Rattle.machine.specs.Answers.{values};
ghost use Rattle.machine.specs.Turns.{next, given};
ghost use Rattle.trace.specs.Trace.{ARequest, read_of};
ghost use Rattle.player.specs.Run.{buffer_of, turn_of};
ghost use Rattle.player.specs.Play.{state_of, progress_of, request_played, play_outcome, play_outcome_of};

use crate::ready::Ready;
use crate::text::{LINE_ROOM, put_answer};
use crate::{Played, Status};
use machine::{AccessKind, Processor, Reply, Request, Settings};

// How many bytes a request that is no store is lent.
const LENT: usize = 256;

// The most bytes that a request is lent.
const BUFFER_LENGTH: usize = 512;

// The request in front of some bytes, as it was read.
#[derive(Clone, Copy)]
pub(crate) struct Front<'a> {
    pub(crate) bytes: &'a [u8],
    pub(crate) processor_number: usize,
    pub(crate) request: Request,
    pub(crate) size: usize,
    ghost read: { read_of bytes.now ≡ ARequest processor_number request size },
}

impl Front<'_> {
    // Puts the data bytes of a store in front of a buffer of zeros, and answers how many bytes of it the request is lent.
    fn lend(&self, buffer: &mut [u8; BUFFER_LENGTH]) -> usize
        requires { buffer.old ≡ replicate 512 0 }
        ensures { (result ≤ 512) × (take result buffer.new ≡ buffer_of self.now.request self.now.bytes.now self.now.size) }
    {
        let Request::Access {
            kind: AccessKind::Store,
            ..
        } = self.request
        else {
            return LENT;
        };
        let data = &self.bytes[11..self.size];
        buffer[..data.len()].copy_from_slice(data);
        data.len()
    }

    // Gives the request to the unit.
    fn perform(
        &self,
        settings: Settings,
        storage: &mut [u8],
        keys: &mut [u8],
        processors: [Processor; 2],
    ) -> Reply
        ensures { (values result.answer ≡ (given settings (state_of processors storage.old keys.old)
            (turn_of self.now.processor_number self.now.request self.now.bytes.now self.now.size)).answer)
            × (state_of result.processors storage.new keys.new ≡ next settings (state_of processors storage.old keys.old)
            (turn_of self.now.processor_number self.now.request self.now.bytes.now self.now.size)) }
    {
        let mut buffer = [0u8; BUFFER_LENGTH];
        let lent = self.lend(&mut buffer);
        storage_unit::request(
            settings,
            storage,
            keys,
            processors,
            self.processor_number,
            self.request,
            &mut buffer[..lent],
        )
    }

    // Performs the request, and puts its line into the room lent for it.
    pub(crate) fn play(
        &self,
        settings: Settings,
        storage: &mut [u8],
        keys: &mut [u8],
        ready: Ready,
        line: &mut [u8; LINE_ROOM],
    ) -> Played
        ensures outcome { play_outcome result storage.new keys.new line.new
            ≡ play_outcome_of (request_played settings (progress_of ready.player storage.old keys.old)
            (turn_of self.now.processor_number self.now.request self.now.bytes.now self.now.size) self.now.size) line.old }
        ensures room { length line.new ≡ 64 }
    {
        let reply = self.perform(settings, storage, keys, ready.player.processors);
        let player = ready.after_request(reply.processors);
        Played {
            player,
            read: self.size,
            written: put_answer(line, player.requests, reply.answer),
            status: Status::Passed,
        }
    }
}
