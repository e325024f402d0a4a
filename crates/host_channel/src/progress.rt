// The progress of a request as bytes: reading and writing it, and answers as numbers.
ghost use Rattle.std.specs.Prelude.{◌≡◌};
ghost use Rattle.boundary.specs.Boundary.{packed};
ghost use Rattle.machine.specs.Channel.{channel_values, answer_in};
ghost use Rattle.host_channel.specs.ChannelCalls.{status_of, progress_in, progress_put, result_of};
ghost use Rattle.host_channel.specs.Reading.{progress_read};

use crate::numbers::{Control, Status};
use channel::progress::begin;
use house_record::fields::{byte, doubleword, halfword, put, word};
use machine::channel::{
    Chaining, ChannelAnswer, ChannelProgress, ChannelReason, ChannelRecord, ChannelRequest,
};

// How many bytes a progress has.
pub const PROGRESS_LENGTH: usize = 32;

// The progress of a request in its bytes, if they are one. Their number is tested first, so that the compiler knows that each of them is there.
pub fn progress_of(request: ChannelRequest, bytes: &[u8]) -> Option<ChannelProgress>
    ensures { result ≡ progress_read request bytes.now }
{
    if bytes.len() != PROGRESS_LENGTH || (halfword(bytes, 6) != 0) | (word(bytes, 12) != 0) {
        return None;
    }
    Control::try_from(byte(bytes, 4)).ok()?;
    Status::try_from(byte(bytes, 5)).ok()?;
    Some(progress_in(request, bytes))
}

// The same for any bytes: a number that stands for nothing is read as the last case of its kind.
pub fn progress_in(request: ChannelRequest, bytes: &[u8]) -> ChannelProgress
    ensures { result ≡ progress_in request bytes.now }
{
    let Control(chaining) = Control::try_from(byte(bytes, 4)).unwrap_or(Control(Chaining::Ended));
    let used = Status::Begun(Some(Err(ChannelReason::GrantUsed)));
    let Status::Begun(standing) = Status::try_from(byte(bytes, 5)).unwrap_or(used) else {
        return begin(request);
    };
    ChannelProgress {
        state: ChannelRecord {
            ccw: word(bytes, 0),
            chaining,
            taken: doubleword(bytes, 16) as usize,
            given: doubleword(bytes, 24) as usize,
        },
        fetched: word(bytes, 8),
        standing,
    }
}

// Writes a progress with this record, this count and this status. Where the bytes are not 32, or the status is none, nothing is written. The status is
// a number, since the function promises for each what it does.
pub fn put_progress(bytes: &mut [u8], state: ChannelRecord, count: u32, status: u32)
    ensures { bytes.new ≡ progress_put state count status bytes.old }
{
    if bytes.len() != PROGRESS_LENGTH {
        return;
    }
    if 256 <= status {
        return;
    }
    let control = u32::from(Control(state.chaining));
    put::<4>(bytes, 0, u64::from(state.ccw));
    put::<4>(bytes, 4, u64::from(control + status * 256));
    put::<4>(bytes, 8, u64::from(count));
    put::<4>(bytes, 12, 0);
    put::<8>(bytes, 16, state.taken as u64);
    put::<8>(bytes, 24, state.given as u64);
}

// Writes the progress of a request.
pub fn leave_progress(bytes: &mut [u8], progress: ChannelProgress)
    ensures { bytes.new ≡ progress_put progress.state progress.fetched (status_of (answer_in progress.standing)) bytes.old }
{
    let status = u32::from(Status::Begun(progress.standing));
    put_progress(bytes, progress.state, progress.fetched, status);
}

// The answer in one number, and the result of a request by its standing. Functions and no `From`, since neither type is this crate's.
pub fn result_of(answer: ChannelAnswer) -> u64
    ensures { result ≡ packed (channel_values answer) }
{
    match answer {
        Ok(()) => 0,
        Err(reason) => u64::from(u32::from(reason)) * 281474976710656,
    }
}

pub fn standing_result(standing: Option<ChannelAnswer>) -> u64
    ensures { result ≡ result_of (answer_in standing) }
{
    match standing {
        None => 255 * 281474976710656,
        Some(answer) => result_of(answer),
    }
}
