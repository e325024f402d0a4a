// One step of a request of the channel, for programs in C, Rust and other languages, beside `host_channel`, whose bytes of a progress it takes. The
// two are crates of their own so that the static library over each is compiled with its own copy of the routine for one CCW, put into it
// (docs/BENCHMARK.md).
#![tactic(auto)]

ghost use Rattle.std.specs.Prelude.{◌≡◌};
ghost use Rattle.host_channel.specs.ChannelCalls.{channel_call, channel_step_called};

use boundary::settings_in;
use channel::channel_step;
use host_channel::progress::{leave_progress, progress_of, standing_result};
use host_channel::{progress_refused, settings_refused};
use machine::channel::ChannelRequest;
use table::numbers::Sizes;

// One step of a request, which is one CCW: the same operands at each step, and the progress as the step before left it, zeros at the start. While
// the request is under way the result has the number 255; a step of a request that has answered changes nothing and gives the answer again.
pub fn storage_unit_channel_step(
    settings: u32,
    storage: &mut [u8],
    keys: &mut [u8],
    key: u32,
    first: u32,
    grant: u32,
    from_device: &[u8],
    room: &mut [u8],
    progress: &mut [u8],
) -> u64
    ensures { channel_call result storage.new keys.new room.new progress.new
        ≡ channel_step_called settings storage.old keys.old (record { key = key; first = first; grant = grant })
        from_device.now room.old progress.old }
{
    let Ok(machine) = settings_in(settings) else {
        return settings_refused();
    };
    let request = ChannelRequest { key, first, grant };
    let Some(before) = progress_of(request, progress) else {
        return progress_refused(Sizes::of(machine, storage, keys));
    };
    let after = channel_step(machine, storage, keys, request, before, from_device, room);
    leave_progress(progress, after);
    standing_result(after.standing)
}
