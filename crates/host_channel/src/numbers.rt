// The two numbers in the bytes of a progress that stand for one of several cases: how control comes to the CCW to come, and the status. Each is a type
// of this crate, since `Chaining` and the standing are the machine's, and their conversions are said here.
ghost use Rattle.std.specs.Prelude.{◌≡◌, ◌<◌};
ghost use Rattle.host_channel.specs.Reading.{control_number, control_read, status_number, status_read};

use machine::channel::{Chaining, ChannelAnswer, ChannelReason};

// How control comes to the CCW to come.
#[derive(Clone, Copy, Debug, PartialEq, Eq)]
pub struct Control(pub Chaining);

// The status: the request is not begun, or so it stands.
#[derive(Clone, Copy, Debug, PartialEq, Eq)]
pub enum Status {
    NotBegun,
    Begun(Option<ChannelAnswer>),
}

// A number that stands for nothing here.
#[derive(Clone, Copy, Debug, PartialEq, Eq)]
pub struct NoMeaning(pub u32);

impl From<Control> for u32 {
    ghost from_gives = { λ control n. n ≡ control_number control };

    fn from(control: Control) -> u32
        ensures { (result ≡ control_number control) × (result < 4) }
    {
        match control.0 {
            Chaining::First => 0,
            Chaining::Command => 1,
            Chaining::Transfer => 2,
            Chaining::Ended => 3,
        }
    }
}

impl TryFrom<u32> for Control {
    type Error = NoMeaning;

    ghost try_from_gives = { λ n r. r ≡ control_read n };

    fn try_from(number: u32) -> Result<Self, NoMeaning> {
        match number {
            0 => Ok(Control(Chaining::First)),
            1 => Ok(Control(Chaining::Command)),
            2 => Ok(Control(Chaining::Transfer)),
            3 => Ok(Control(Chaining::Ended)),
            _ => Err(NoMeaning(number)),
        }
    }
}

impl From<Status> for u32 {
    ghost from_gives = { λ status n. n ≡ status_number status };

    fn from(status: Status) -> u32
        ensures { (result ≡ status_number status) × (result < 256) }
    {
        match status {
            Status::NotBegun => 0,
            Status::Begun(None) => 1,
            Status::Begun(Some(Ok(()))) => 2,
            Status::Begun(Some(Err(reason))) => u32::from(reason),
        }
    }
}

impl TryFrom<u32> for Status {
    type Error = NoMeaning;

    ghost try_from_gives = { λ n r. r ≡ status_read n };

    // Compiled into its caller, for speed (docs/BENCHMARK.md).
    #[inline(always)]
    fn try_from(number: u32) -> Result<Self, NoMeaning> {
        let reason = match number {
            0 => return Ok(Status::NotBegun),
            1 => return Ok(Status::Begun(None)),
            2 => return Ok(Status::Begun(Some(Ok(())))),
            64 => ChannelReason::Configuration,
            65 => ChannelReason::ChannelKey,
            66 => ChannelReason::Grant,
            71 => ChannelReason::Program,
            72 => ChannelReason::Protection,
            73 => ChannelReason::Device,
            74 => ChannelReason::GrantUsed,
            _ => return Err(NoMeaning(number)),
        };
        Ok(Status::Begun(Some(Err(reason))))
    }
}
