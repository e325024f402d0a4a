// The call of `host_channel_step` for programs in C, Rust and other languages, in a static library: it calls the function of `host_channel_step` of
// its name and promises what that promises. What the numbers and bytes stand for is said there. The parameters are those of C.
#![tactic(auto)]

ghost use Rattle.std.specs.Prelude.{◌≡◌};
ghost use Rattle.host_channel.specs.ChannelCalls.{channel_call, channel_step_called};

// One step of a request of the channel, which is one CCW.
#[unsafe(no_mangle)]
pub extern "C" fn storage_unit_channel_step(
    settings: u32,
    storage: &mut [u8],
    keys: &mut [u8],
    key: u32,
    first: u32,
    grant: u32,
    from_device: &[u8],
    room: &mut [u8],
    progress: &mut [u8],
) -> u64
    ensures { channel_call result storage.new keys.new room.new progress.new
        ≡ channel_step_called settings storage.old keys.old (record { key = key; first = first; grant = grant })
        from_device.now room.old progress.old }
{
    host_channel_step::storage_unit_channel_step(
        settings,
        storage,
        keys,
        key,
        first,
        grant,
        from_device,
        room,
        progress,
    )
}
