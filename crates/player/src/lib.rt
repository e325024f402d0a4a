// The player of recordings: requests are given to the storage unit one after the other, and each is answered by a line. A recording comes in
// pieces; how far the run is between two of them is a value. The settings, storage and keys are the caller's.
#![tactic(auto)]

mod perform;
mod ready;
mod text;

ghost use Rattle.std.specs.Prelude.{ℕ, ◌+◌, ◌≡◌, false, List, [], length};
ghost use Rattle.player.specs.Run.{start_processor};
ghost use Rattle.player.specs.Play.{start_player, progress_of, left, judged, bad_played, end_played, is_request, read_played};
ghost use Rattle.player.specs.Play.{record_played, played as records_played, play_outcome, play_outcome_of};

use crate::perform::Front;
use crate::ready::Ready;
use crate::text::{LINE_ROOM, put_bad};
use house_record::fields::halfword;
use machine::{Processor, Settings};
use trace::{Item, LENGTH_MAXIMUM, NoItem, read_record};

// How far a run is: the pair of records, and how many requests and how many records of any kind came so far.
#[derive(Clone, Copy, Debug, PartialEq, Eq)]
pub struct Player {
    pub processors: [Processor; 2],
    pub requests: u64,
    pub records: u64,
}

// How a call stopped.
#[derive(Clone, Copy, Debug, PartialEq, Eq)]
pub enum Status {
    // A record was read and passed; another may follow.
    Passed,
    // What is left is not a whole record yet: more bytes are needed.
    More,
    // The run is ended, by a bad record or at the end of the recording.
    Ended,
    // The output has less room than the longest line needs.
    Room,
    // The ordinals are used up.
    Limit,
}

// What a call leaves: the player, how many bytes it has read and how many it has written, and how it stopped.
#[derive(Clone, Copy, Debug, PartialEq, Eq)]
pub struct Played {
    pub player: Player,
    pub read: usize,
    pub written: usize,
    pub status: Status,
}

// A record that is zero, in supervisor state.
fn zero_record() -> Processor
    ensures { result ≡ start_processor }
{
    Processor {
        psw_key: 0,
        problem: false,
        low_protection: false,
        key_control: false,
        prefix: 0,
        code: 0,
    }
}

// The player at the start of a run: both records zero and in supervisor state, nothing read.
pub fn start() -> Player
    ensures { result ≡ start_player }
{
    Player {
        processors: [zero_record(); 2],
        requests: 0,
        records: 0,
    }
}

impl Player {
    // Nothing is read and nothing is written.
    #[tactic(auto, unfolding(crate::specs::Text::over))]
    fn stopped(self, status: Status) -> Played
        ensures { (storage keys output : List ℕ)
            → play_outcome result storage keys output ≡ play_outcome_of (left [] (progress_of self storage keys) 0 status) output }
    {
        Played {
            player: self,
            read: 0,
            written: 0,
            status,
        }
    }
}

// The record in front can be judged whatever follows: its length is over 512, or all that the length counts is there.
#[tactic(auto, unfolding(crate::specs::Play::judged))]
fn can_be_judged(bytes: &[u8]) -> bool
    ensures { result ≡ judged bytes.now }
{
    let stated = halfword(bytes, 0) as usize;
    2 <= bytes.len() && (LENGTH_MAXIMUM < stated || 2 + stated <= bytes.len())
}

// A bad record: it ends the run with its line where nothing comes behind the bytes or where it can be judged.
fn bad_record(ready: Ready, bytes: &[u8], last: bool, line: &mut [u8; LINE_ROOM]) -> Played
    ensures { (storage keys : List ℕ) → play_outcome result storage keys line.new
        ≡ play_outcome_of (bad_played last (progress_of ready.player storage keys) bytes.now) line.old }
{
    if !last && !can_be_judged(bytes) {
        return ready.player.stopped(Status::More);
    }
    let after = ready.after_other();
    Played {
        player: after,
        read: 0,
        written: put_bad(line, after.records),
        status: Status::Ended,
    }
}

// The end of the bytes, which is that of the recording where nothing comes behind them.
fn end_of_bytes(player: Player, last: bool) -> Played
    ensures { (storage keys output : List ℕ)
        → play_outcome result storage keys output ≡ play_outcome_of (end_played last (progress_of player storage keys)) output }
{
    player.stopped(if last { Status::Ended } else { Status::More })
}

// What is no request: a remark is passed over, a bad record and the end of the recording end the run.
fn aside(
    found: Result<Item, NoItem>,
    ready: Ready,
    bytes: &[u8],
    last: bool,
    line: &mut [u8; LINE_ROOM],
) -> Played
    requires { is_request found ≡ false }
    ensures outcome { (s : Settings) (storage keys : List ℕ) → play_outcome result storage keys line.new
        ≡ play_outcome_of (read_played found s last (progress_of ready.player storage keys) bytes.now) line.old }
    ensures room { length line.new ≡ 64 }
{
    match found {
        Ok(remark) => Played {
            player: ready.after_other(),
            read: remark.size(),
            written: 0,
            status: Status::Passed,
        },
        Err(NoItem::Bad) => bad_record(ready, bytes, last, line),
        Err(NoItem::End) => end_of_bytes(ready.player, last),
    }
}

// The record in front of the bytes. `last`: nothing comes behind them. Its text is put in front of the output.
// Settings, storage and keys stay parameters of their own, here and below: `storage_unit::request` and who calls `play` have them one by one.
pub fn play_record(
    settings: Settings,
    storage: &mut [u8],
    keys: &mut [u8],
    player: Player,
    bytes: &[u8],
    last: bool,
    output: &mut [u8],
) -> Played
    ensures { play_outcome result storage.new keys.new output.new
        ≡ play_outcome_of (record_played settings last (length output.old) (progress_of player storage.old keys.old)
        bytes.now) output.old }
{
    let Some(line) = output.first_chunk_mut::<LINE_ROOM>() else {
        return player.stopped(Status::Room);
    };
    let Some(ready) = Ready::new(player) else {
        return player.stopped(Status::Limit);
    };
    let found = read_record(bytes);
    let Ok(
        Item::Request {
            processor_number,
            request,
            size,
        },
    ) = found
    else {
        return aside(found, ready, bytes, last, line);
    };
    let front = Front {
        bytes,
        processor_number,
        request,
        size,
    };
    front.play(settings, storage, keys, ready, line)
}

// Record after record, until one does not pass. The texts are put in front of the output, one behind the other.
pub fn play(
    settings: Settings,
    storage: &mut [u8],
    keys: &mut [u8],
    player: Player,
    bytes: &[u8],
    last: bool,
    output: &mut [u8],
) -> Played
    ensures { play_outcome result storage.new keys.new output.new
        ≡ play_outcome_of (records_played (length bytes.now + 1) settings last (length output.old)
        (progress_of player storage.old keys.old) bytes.now) output.old }
{
    let mut all = Played {
        player,
        read: 0,
        written: 0,
        status: Status::Passed,
    };
    for _ in 0..=bytes.len() {
        let part = play_record(
            settings,
            storage,
            keys,
            all.player,
            &bytes[all.read..],
            last,
            &mut output[all.written..],
        );
        all = Played {
            player: part.player,
            read: all.read + part.read,
            written: all.written + part.written,
            status: part.status,
        };
        if all.status != Status::Passed {
            return all;
        }
    }
    all
}
