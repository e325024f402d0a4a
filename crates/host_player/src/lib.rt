// The player of recordings, for programs in C, Rust and other languages: a call plays a piece of a recording on the machine that is lent to it.
// Nothing is asked of the caller: whatever the numbers and bytes are, the call ends, and one that is refused changes nothing.
#![tactic(auto)]

mod state;

ghost use Rattle.std.specs.Prelude.{◌≡◌};
ghost use Rattle.host_player.specs.Playing.{play_call, play_called};

use crate::state::{player_in, put_player, status_number};
use boundary::settings_in;
use player::play;

// The result of a call that is refused: a number of the C interface.
const REFUSED: u32 = 4;

// Plays a piece of a recording. `settings`: 1 the 4K facility, 2 the extensions. `player`: 48 bytes, the records of both processors, then
// requests and records so far, and what the call has read of the piece and written to the output, eight bytes each; zeros at the start. `piece`
// begins with the bytes that the call before has not read. `last`: not 0 where nothing comes behind the piece. The result: 0 more bytes are
// needed, 1 the run is ended, 2 the output has under 64 bytes left, 3 the ordinals are used up, 4 the call is refused.
pub fn storage_unit_play(
    settings: u32,
    storage: &mut [u8],
    keys: &mut [u8],
    player: &mut [u8],
    piece: &[u8],
    last: u32,
    output: &mut [u8],
) -> u32
    ensures { play_call result storage.new keys.new player.new output.new
        ≡ play_called settings storage.old keys.old player.old piece.now last output.old }
{
    let Ok(machine) = settings_in(settings) else {
        return REFUSED;
    };
    match player.as_mut_array() {
        Some(player) => {
            let before = player_in(player);
            let played = play(machine, storage, keys, before, piece, last != 0, output);
            put_player(player, played);
            status_number(played.status)
        }
        None => REFUSED,
    }
}
