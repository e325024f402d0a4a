// A player as bytes: the records of both processors, and four numbers of eight bytes.
ghost use Rattle.std.specs.Prelude.{◌+◌, ◌≤◌, ◌≡◌, cond, length};
ghost use Rattle.boundary.specs.Boundary.{reserved_zero, record_at};
ghost use Rattle.host_player.specs.Playing.{player_in, put_record, put_records, player_left, status_number};

use house_record::fields::{doubleword, put, word};
use machine::Processor;
use player::{Played, Player, Status};

// How many bytes a player has.
pub(crate) const PLAYER_LENGTH: usize = 48;

// The PSW key of a record, 255 where a bit that must be zero is on: the definition `record_at`, which the theorems on calls rest on, has that number.
fn psw_key_of(key: u8, controls: u8, fourth: u8) -> u8
    ensures { result ≡ cond (reserved_zero controls fourth) key 255 }
{
    if controls < 8 && fourth == 0 {
        key
    } else {
        255
    }
}

// The record whose bytes stand from `at` on. Byte by byte: `RecordWords` of the boundary takes remainders of a state that is not valid.
#[tactic(auto, using(crate::proofs::Numbers::prefix_is))]
fn record_at(bytes: &[u8], at: usize) -> Processor
    requires { at + 8 ≤ length bytes.now }
    ensures { result ≡ record_at bytes.now at }
{
    let controls = bytes[at + 1];
    Processor {
        psw_key: psw_key_of(bytes[at], controls, bytes[at + 3]),
        problem: controls / 1 % 2 == 1,
        low_protection: controls / 2 % 2 == 1,
        key_control: controls / 4 % 2 == 1,
        prefix: word(bytes, at + 4),
        code: bytes[at + 2],
    }
}

// The player in its bytes.
pub(crate) fn player_in(bytes: &[u8; PLAYER_LENGTH]) -> Player
    ensures { result ≡ player_in bytes.now }
{
    let processors = [record_at(bytes, 0), record_at(bytes, 8)];
    Player {
        processors,
        requests: doubleword(bytes, 16),
        records: doubleword(bytes, 24),
    }
}

// Writes the condition code and the prefix of a record whose bytes stand from `at` on.
fn put_record(bytes: &mut [u8], at: usize, p: Processor)
    requires { at + 8 ≤ length bytes.old }
    ensures { bytes.new ≡ put_record at p bytes.old }
{
    put::<1>(bytes, at + 2, u64::from(p.code));
    put::<4>(bytes, at + 4, u64::from(p.prefix));
}

// Writes both records.
fn put_records(bytes: &mut [u8; PLAYER_LENGTH], processors: [Processor; 2])
    ensures { bytes.new ≡ put_records processors bytes.old }
{
    put_record(bytes, 0, processors[0]);
    put_record(bytes, 8, processors[1]);
}

// Writes what a call leaves of the player.
#[tactic(auto, unfolding(crate::specs::Playing::player_left))]
pub(crate) fn put_player(bytes: &mut [u8; PLAYER_LENGTH], played: Played)
    ensures { bytes.new ≡ player_left played bytes.old }
{
    let next = played.player;
    let processors = next.processors;
    put_records(bytes, processors);
    put::<8>(bytes, 16, next.requests);
    put::<8>(bytes, 24, next.records);
    put::<8>(bytes, 32, played.read as u64);
    put::<8>(bytes, 40, played.written as u64);
}

// The number of a status. A function and no `From`, since neither type is this crate's.
pub(crate) fn status_number(status: Status) -> u32
    ensures { result ≡ status_number status }
{
    match status {
        Status::More => 0,
        Status::Ended => 1,
        Status::Room => 2,
        Status::Limit => 3,
        Status::Passed => 0,
    }
}
