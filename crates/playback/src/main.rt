// Plays a recording: reads it from standard input, in pieces of any size, and writes the line of each request and that of a bad record, which
// ends the run. What is read and written in between is the library `player`'s; here the bytes come and go.
#![tactic(auto)]

mod held;

ghost use Rattle.std.specs.Prelude.{◌≡◌, replicate};
ghost use Rattle.player.specs.Run.{start_settings};

use crate::held::Held;
use machine::Settings;
use player::{Status, play, start};
use std::fmt;

// How many bytes of text have room: the text of all records that can be held, since a request takes ten bytes at least, and a line less than 64.
const TEXT: usize = 262144;

// How many turns a run has at most: more than a recording has bytes.
const TURNS: u64 = u64::MAX;

// Why a run is given up: where reading fails, it is not known what comes.
#[derive(Clone, Copy, Debug, PartialEq, Eq)]
enum Failure {
    Reading,
    Writing,
}

impl fmt::Display for Failure {
    fn fmt<W: fmt::Write>(&self, f: &mut fmt::Formatter<W>) -> fmt::Result {
        f.write_str(match self {
            Failure::Reading => "reading failed",
            Failure::Writing => "writing failed",
        })
    }
}

// 2K units, extensions present. Other programs have a constant of this kind: this function promises that these are the settings that 02 fixes.
fn settings() -> Settings
    ensures { result ≡ start_settings }
{
    Settings {
        four_k: false,
        extensions: true,
    }
}

// The run of a recording, from the start that 02 fixes. In each turn bytes are read, and what is held is played.
fn run(rt: &(impl Input + Print), storage: &mut [u8], keys: &mut [u8]) -> Result<(), Failure>
    requires { (storage.old ≡ replicate 65536 0) × (keys.old ≡ replicate 32 0) }
{
    let mut reader = rt.reader();
    let mut held = Held::new();
    let mut output = [0u8; TEXT];
    let mut player = start();
    for _ in 0..TURNS {
        let last = held.fill(&mut reader).map_err(|_| Failure::Reading)?;
        let bytes = held.as_slice();
        let played = play(settings(), storage, keys, player, bytes, last, &mut output);
        let text = &output[..played.written];
        rt.write_all(text).map_err(|_| Failure::Writing)?;
        held.consume(played.read);
        player = played.player;
        if matches!(played.status, Status::Ended | Status::Limit) {
            break;
        }
    }
    Ok(())
}

fn main(rt: HostRuntime) {
    let mut storage = [0u8; 65536];
    let mut keys = [0u8; 32];
    if let Err(failure) = run(&rt, &mut storage, &mut keys) {
        let _ = eprintln!(rt; "playback: {failure}");
    }
}
