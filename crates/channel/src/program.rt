// One CCW of a channel program: the lines above its fetching, the fetching, and what it asks for. What is lent is passed one by one here and in
// `run` and `transfer`: each function that takes a struct of the references would also have to promise that it holds the same ones as before. So the
// facts `Passed` and `Entered`, which relate them, are clauses and no invariant.
ghost use Rattle.std.specs.Prelude.{◌+◌, ◌≤◌, ◌≡◌, length};
ghost use Rattle.machine.specs.Channel.{channel, obeyed, next_ccw};
ghost use Rattle.channel.specs.Requests.{Passed, Counted};

use crate::ccw::{ccw_at, operation_of};
use crate::progress::{answered, counted, transfer_in_channel};
use crate::transfer::transfer_data;
use machine::channel::{ChannelOperation, ChannelProgress, ChannelReason, ChannelRequest};
use machine::{AccessKind, Settings};
use storage_key::{permitted, recorded};
use table::numbers::unit_of;

// What a CCW that was fetched asks for.
fn obey(
    settings: Settings,
    storage: &mut [u8],
    keys: &mut [u8],
    request: ChannelRequest,
    progress: ChannelProgress,
    from_device: &[u8],
    room: &mut [u8],
    operation: ChannelOperation,
) -> ChannelProgress
    requires passed { Passed settings (length storage.old) (length keys.old) request }
    requires ccw_in_bounds { (progress.state.ccw + 8 ≤ length storage.old) × Counted operation }
    ensures { channel storage.new keys.new room.new result
        ≡ obeyed settings request from_device.now operation
        (channel storage.old keys.old room.old progress) }
{
    match operation {
        ChannelOperation::TransferInChannel { address } => transfer_in_channel(progress, address),
        ChannelOperation::Data {
            kind,
            address,
            count,
            chains,
        } => transfer_data(
            settings,
            storage,
            keys,
            request,
            progress,
            from_device,
            room,
            kind,
            address,
            count,
            chains,
        ),
        ChannelOperation::Invalid => answered(progress, Err(ChannelReason::Program)),
    }
}

// The CCW to come of a request whose own lines pass. Its 8 bytes are in one unit.
pub(crate) fn next_ccw(
    settings: Settings,
    storage: &mut [u8],
    keys: &mut [u8],
    request: ChannelRequest,
    progress: ChannelProgress,
    from_device: &[u8],
    room: &mut [u8],
) -> ChannelProgress
    requires { Passed settings (length storage.old) (length keys.old) request }
    ensures { channel storage.new keys.new room.new result
        ≡ next_ccw settings request from_device.now
        (channel storage.old keys.old room.old progress) }
{
    if request.grant <= progress.fetched {
        return answered(progress, Err(ChannelReason::GrantUsed));
    }
    let at = progress.state.ccw as usize;
    if (at % 8 != 0) | (storage.len() < at + 8) {
        return answered(progress, Err(ChannelReason::Program));
    }
    let unit = unit_of(settings, at);
    let key = keys[unit];
    if !permitted(AccessKind::Fetch, request.key as u8, key) {
        return answered(progress, Err(ChannelReason::Protection));
    }
    keys[unit] = recorded(AccessKind::Fetch, key);
    let operation = operation_of(ccw_at(&storage[..], at));
    let fetched = counted(progress);
    obey(
        settings,
        storage,
        keys,
        request,
        fetched,
        from_device,
        room,
        operation,
    )
}
