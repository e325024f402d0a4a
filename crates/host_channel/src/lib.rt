// The channel, for programs in C, Rust and other languages: a call runs a whole request of the channel on the machine that is lent to it. Nothing
// is asked of the caller: whatever the numbers and bytes are, the call ends with an answer. One step of a request is in `host_channel_step`.
#![tactic(auto)]

pub mod numbers;
pub mod progress;

ghost use Rattle.std.specs.Prelude.{◌≡◌};
ghost use Rattle.boundary.specs.Boundary.{packed};
ghost use Rattle.machine.specs.Channel.{channel_values, Refused};
ghost use Rattle.host_channel.specs.ChannelCalls.{unfit_answer, channel_call, channel_called};

use crate::progress::{PROGRESS_LENGTH, leave_progress, result_of};
use boundary::settings_in;
use channel::channel_request;
use machine::channel::{ChannelProgress, ChannelReason, ChannelRequest};
use table::numbers::Sizes;

// The result where the settings have another bit on, or where the bytes are no progress and the lengths are wrong.
pub fn settings_refused() -> u64
    ensures { result ≡ packed (channel_values (Refused ChannelReason.Configuration)) }
{
    result_of(Err(ChannelReason::Configuration))
}

// The result where the bytes are no progress: 64 for the lengths, else 65.
pub fn progress_refused(sizes: Sizes) -> u64
    ensures { result ≡ packed (channel_values (unfit_answer sizes.settings sizes.storage sizes.keys)) }
{
    if sizes.valid() {
        result_of(Err(ChannelReason::ChannelKey))
    } else {
        settings_refused()
    }
}

// A whole request. `settings`: 1 the 4K facility, 2 the extensions. `key`, `first`, `grant`: the channel's key, the address of the first CCW and
// how many CCWs are granted. `from_device`: the bytes from the device; `room`: the room for bytes to it. `progress`: 32 bytes, in which the end
// of the request is left. The result has the number in bits 48 to 63 from the right, all else zero.
pub fn storage_unit_channel(
    settings: u32,
    storage: &mut [u8],
    keys: &mut [u8],
    key: u32,
    first: u32,
    grant: u32,
    from_device: &[u8],
    room: &mut [u8],
    progress: &mut [u8],
) -> u64
    ensures { channel_call result storage.new keys.new room.new progress.new
        ≡ channel_called settings storage.old keys.old (record { key = key; first = first; grant = grant })
        from_device.now room.old progress.old }
{
    let Ok(machine) = settings_in(settings) else {
        return settings_refused();
    };
    if progress.len() != PROGRESS_LENGTH {
        return progress_refused(Sizes::of(machine, storage, keys));
    }
    let request = ChannelRequest { key, first, grant };
    let reply = channel_request(machine, storage, keys, request, from_device, room);
    let after = ChannelProgress {
        state: reply.state,
        fetched: reply.count,
        standing: Some(reply.answer),
    };
    leave_progress(progress, after);
    result_of(reply.answer)
}
