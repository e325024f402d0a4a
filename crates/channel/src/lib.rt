// The channel (document 02, W4): programs of CCWs that move data between storage and a device, under the storage keys. The device is two lent
// buffers: bytes from it, and room for bytes to it. A request can be done whole, or step by step, a step being one CCW.
#![tactic(auto)]

mod ccw;
mod moving;
mod program;
pub mod progress;
mod range;
mod run;
mod transfer;

ghost use Rattle.std.specs.Prelude.{◌+◌, ◌≤◌, ◌≡◌};
ghost use Rattle.machine.specs.Conditions.{ChannelCondition1};
ghost use Rattle.machine.specs.Channel.{first_refusal, request_lines, channel, channel_step, channel_outcome, channel_run, steps_that_fetch, begun};
ghost use Rattle.channel.specs.Requests.{answer_by};

use crate::program::next_ccw;
use crate::progress::{answered, begin};
use crate::run::{execute, reply};
use machine::Settings;
use machine::channel::{ChannelProgress, ChannelReason, ChannelReply, ChannelRequest};
use table::numbers::Sizes;

// The lines of a request, 64, 65 and 66.
#[tactic(auto, unfolding(crate::specs::Requests::answer_by, machine::specs::Channel::first_refusal))]
fn request_lines(sizes: Sizes, request: ChannelRequest) -> Result<(), ChannelReason>
    ensures { result ≡ answer_by (first_refusal (request_lines sizes.settings sizes.storage sizes.keys request)) }
{
    if !sizes.valid() {
        return Err(ChannelReason::Configuration);
    }
    if 15 < request.key {
        return Err(ChannelReason::ChannelKey);
    }
    if (request.grant == 0) | (256 < request.grant) {
        return Err(ChannelReason::Grant);
    }
    Ok(())
}

// A step of a request: its next CCW; where it has answered, nothing. A CCW that is refused changes nothing but the key of the unit from which
// it was fetched, if it was (condition 1).
pub fn channel_step(
    settings: Settings,
    storage: &mut [u8],
    keys: &mut [u8],
    request: ChannelRequest,
    progress: ChannelProgress,
    from_device: &[u8],
    room: &mut [u8],
) -> ChannelProgress
    ensures condition_1 { ChannelCondition1 settings (channel storage.old keys.old room.old progress)
        (channel storage.new keys.new room.new result) }
    ensures condition_2 { channel storage.new keys.new room.new result
        ≡ channel_step settings request from_device.now
        (channel storage.old keys.old room.old progress) }
{
    if progress.standing.is_some() {
        return progress;
    }
    match request_lines(Sizes::of(settings, storage, keys), request) {
        Err(reason) => answered(progress, Err(reason)),
        Ok(()) => next_ccw(
            settings,
            storage,
            keys,
            request,
            progress,
            from_device,
            room,
        ),
    }
}

// A whole request: its answer, how many CCWs were fetched, and the channel's record.
pub fn channel_request(
    settings: Settings,
    storage: &mut [u8],
    keys: &mut [u8],
    request: ChannelRequest,
    from_device: &[u8],
    room: &mut [u8],
) -> ChannelReply
    ensures condition_2 { channel_outcome result storage.new keys.new room.new
        ≡ channel_run settings storage.old keys.old request from_device.now room.old }
    ensures count_at_most_grant { result.count ≤ request.grant }
    ensures count_of_steps { result.count ≡ steps_that_fetch (request.grant + 1) settings request from_device.now
        (channel storage.old keys.old room.old (begun request)) }
{
    let start = begin(request);
    match request_lines(Sizes::of(settings, storage, keys), request) {
        Err(reason) => reply(start, Err(reason)),
        Ok(()) => execute(settings, storage, keys, request, from_device, room, start),
    }
}
