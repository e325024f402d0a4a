// The call of `host_player` for programs in C, Rust and other languages, in a static library: it calls the function of `host_player` of its name
// and promises what that promises. What the numbers and bytes stand for is said there. The parameters are those of C.
#![tactic(auto)]

ghost use Rattle.std.specs.Prelude.{◌≡◌};
ghost use Rattle.host_player.specs.Playing.{play_call, play_called};

// Plays a piece of a recording.
#[unsafe(no_mangle)]
pub extern "C" fn storage_unit_play(
    settings: u32,
    storage: &mut [u8],
    keys: &mut [u8],
    player: &mut [u8],
    piece: &[u8],
    last: u32,
    output: &mut [u8],
) -> u32
    ensures { play_call result storage.new keys.new player.new output.new
        ≡ play_called settings storage.old keys.old player.old piece.now last output.old }
{
    host_player::storage_unit_play(settings, storage, keys, player, piece, last, output)
}
