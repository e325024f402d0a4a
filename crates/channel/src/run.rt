// The run of a channel program whose request passed its own lines. CCWs that follow each other by chain command are a loop; where a transfer in
// channel comes, two functions call each other. The part of the grant that is left, from which the transfer is taken as it is followed, falls at
// each call.
ghost use Rattle.std.specs.Prelude.{◌≡◌, length};
ghost use Rattle.machine.specs.Channel.{channel, channel_outcome};
ghost use Rattle.channel.specs.Requests.{Passed, Entered, Later, chains_on, reply_of, run_from};

use crate::program::next_ccw;
use crate::progress::under_way;
use machine::Settings;
use machine::channel::{
    Chaining, ChannelAnswer, ChannelProgress, ChannelRecord, ChannelReply, ChannelRequest,
};

// The reply of a request that has this answer. The record is copied part by part: as a whole it is read back before its parts are in memory
// (docs/BENCHMARK.md).
pub(crate) fn reply(progress: ChannelProgress, answer: ChannelAnswer) -> ChannelReply
    ensures { result ≡ reply_of progress answer }
{
    let state = progress.state;
    let chaining = state.chaining;
    ChannelReply {
        answer,
        count: progress.fetched,
        state: ChannelRecord {
            ccw: state.ccw,
            chaining,
            taken: state.taken,
            given: state.given,
        },
    }
}

// The next CCW follows by chain command: the request is under way, and the last CCW was no transfer in channel.
#[tactic(auto, unfolding(crate::specs::Requests::chains_on))]
fn chains_on(progress: ChannelProgress) -> bool
    ensures { result ≡ chains_on progress.standing progress.state.chaining }
{
    progress.standing.is_none() && progress.state.chaining != Chaining::Transfer
}

// The CCWs from the one to come on that follow each other by chain command, up to an answer or to a transfer in channel. The progress is copied
// part by part, which is faster (docs/BENCHMARK.md).
fn run_chain(
    settings: Settings,
    storage: &mut [u8],
    keys: &mut [u8],
    request: ChannelRequest,
    from_device: &[u8],
    room: &mut [u8],
    start: ChannelProgress,
) -> ChannelProgress
    requires passed { Passed settings (length storage.old) (length keys.old) request }
    requires entered { Entered request start }
    ensures result_after { run_from settings request from_device.now (channel storage.new keys.new room.new result)
        ≡ run_from settings request from_device.now (channel storage.old keys.old room.old start) }
    ensures later { Later request start.fetched result }
{
    let state = start.state;
    let chaining = state.chaining;
    let mut progress = under_way(state.ccw, chaining, state.taken, state.given, start.fetched);
    let mut more = true;
    while more {
        progress = next_ccw(
            settings,
            storage,
            keys,
            request,
            progress,
            from_device,
            room,
        );
        more = chains_on(progress);
    }
    progress
}

// The run from the CCW to come: its chain, and then, if it ends with a transfer in channel, what follows that.
#[cycle(execute_follow_transfer)]
pub(crate) fn execute(
    settings: Settings,
    storage: &mut [u8],
    keys: &mut [u8],
    request: ChannelRequest,
    from_device: &[u8],
    room: &mut [u8],
    start: ChannelProgress,
) -> ChannelReply
    requires passed { Passed settings (length storage.old) (length keys.old) request }
    requires entered { Entered request start }
    ensures { channel_outcome result storage.new keys.new room.new
        ≡ run_from settings request from_device.now (channel storage.old keys.old room.old start) }
{
    let next = run_chain(settings, storage, keys, request, from_device, room, start);
    match next.standing {
        Some(answer) => reply(next, answer),
        None => follow_transfer(settings, storage, keys, request, from_device, room, next),
    }
}

// A transfer in channel hands control to the CCW it names: the run from there.
#[cycle(execute_follow_transfer)]
fn follow_transfer(
    settings: Settings,
    storage: &mut [u8],
    keys: &mut [u8],
    request: ChannelRequest,
    from_device: &[u8],
    room: &mut [u8],
    named: ChannelProgress,
) -> ChannelReply
    requires passed { Passed settings (length storage.old) (length keys.old) request }
    requires entered { Entered request named }
    ensures { channel_outcome result storage.new keys.new room.new
        ≡ run_from settings request from_device.now (channel storage.old keys.old room.old named) }
{
    execute(settings, storage, keys, request, from_device, room, named)
}
