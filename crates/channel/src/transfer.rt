// The data of a CCW: the lines above its transfer, and the transfer between storage and the device.
ghost use Rattle.std.specs.Prelude.{◌+◌, ◌-◌, ◌<◌, ◌≤◌, ◌≡◌, length};
ghost use Rattle.machine.specs.Channel.{channel, after_data, range_recorded, bytes_moved, obeyed};
ghost use Rattle.channel.specs.Requests.{Passed, DataFits, device_left};

use crate::moving::move_bytes;
use crate::progress::{after_data, answered};
use crate::range::{range_forbidden, record_range};
use machine::channel::{
    ChannelOperation, ChannelProgress, ChannelReason, ChannelRecord, ChannelRequest,
};
use machine::{AccessKind, Settings};

// What the device has left for a CCW: room for one that fetches from storage, bytes for one that stores; nothing where the position lies behind
// the end of the buffer.
fn device_left(
    state: ChannelRecord,
    kind: AccessKind,
    from_length: usize,
    room_length: usize,
) -> usize
    ensures { result ≡ device_left kind from_length room_length state }
{
    match kind {
        AccessKind::Fetch => room_length.saturating_sub(state.given),
        AccessKind::Store => from_length.saturating_sub(state.taken),
    }
}

// Data is fetched from storage and given to the device. Giving and taking are two functions: each writes to a slice that the other reads. Address, count
// and chaining are those of the operation, which is matched once.
fn give_data(
    settings: Settings,
    storage: &[u8],
    keys: &mut [u8],
    progress: ChannelProgress,
    room: &mut [u8],
    address: u32,
    count: u32,
    chains: bool,
) -> ChannelProgress
    requires { DataFits settings (length storage.now) (length keys.old) progress.state.ccw address count
        (length room.old) progress.state.given }
    ensures { (keys.new ≡ range_recorded settings AccessKind.Fetch keys.old address count)
        × (room.new ≡ bytes_moved room.old progress.state.given storage.now address count)
        × (result ≡ after_data chains 0 count progress) }
{
    let at = address as usize;
    let n = count as usize;
    record_range(settings, AccessKind::Fetch, keys, at, n);
    move_bytes(room, progress.state.given, storage, at, n);
    after_data(progress, chains, 0, n)
}

// Data is taken from the device and stored.
fn take_data(
    settings: Settings,
    storage: &mut [u8],
    keys: &mut [u8],
    progress: ChannelProgress,
    from_device: &[u8],
    address: u32,
    count: u32,
    chains: bool,
) -> ChannelProgress
    requires { DataFits settings (length storage.old) (length keys.old) progress.state.ccw address count
        (length from_device.now) progress.state.taken }
    ensures { (keys.new ≡ range_recorded settings AccessKind.Store keys.old address count)
        × (storage.new ≡ bytes_moved storage.old address from_device.now progress.state.taken count)
        × (result ≡ after_data chains count 0 progress) }
{
    let at = address as usize;
    let n = count as usize;
    record_range(settings, AccessKind::Store, keys, at, n);
    move_bytes(storage, at, from_device, progress.state.taken, n);
    after_data(progress, chains, n, 0)
}

// A CCW that moves data: its lines in their order, and the transfer. Nothing is moved before the key of every unit of the range was tested.
pub(crate) fn transfer_data(
    settings: Settings,
    storage: &mut [u8],
    keys: &mut [u8],
    request: ChannelRequest,
    progress: ChannelProgress,
    from_device: &[u8],
    room: &mut [u8],
    kind: AccessKind,
    address: u32,
    count: u32,
    chains: bool,
) -> ChannelProgress
    requires passed { Passed settings (length storage.old) (length keys.old) request }
    requires ccw_in_bounds { (progress.state.ccw + 8 ≤ length storage.old) × (0 < count) × (count < 65536) }
    ensures { channel storage.new keys.new room.new result
        ≡ obeyed settings request from_device.now (ChannelOperation.Data kind address count chains)
        (channel storage.old keys.old room.old progress) }
{
    let at = address as usize;
    let n = count as usize;
    if storage.len() < at + n {
        return answered(progress, Err(ChannelReason::Program));
    }
    let state = progress.state;
    if device_left(state, kind, from_device.len(), room.len()) < n {
        return answered(progress, Err(ChannelReason::Device));
    }
    if range_forbidden(settings, kind, request.key as u8, &keys[..], at, n) {
        return answered(progress, Err(ChannelReason::Protection));
    }
    match kind {
        AccessKind::Fetch => give_data(
            settings,
            &storage[..],
            keys,
            progress,
            room,
            address,
            count,
            chains,
        ),
        AccessKind::Store => take_data(
            settings,
            storage,
            keys,
            progress,
            from_device,
            address,
            count,
            chains,
        ),
    }
}
