// The channel: a request of its list, a CCW, the channel's record, and what comes back. All by value.
ghost use Rattle.std.specs.Prelude.{◌≡◌, ◌<◌};
ghost use Rattle.machine.specs.Channel.{channel_number};

use crate::AccessKind;

// A request: the channel's key, the address of the first CCW, and how many CCWs are granted. Each is any number.
#[derive(Clone, Copy, Debug, PartialEq, Eq)]
pub struct ChannelRequest {
    pub key: u32,
    pub first: u32,
    pub grant: u32,
}

// A channel command word, without the byte that is ignored.
#[derive(Clone, Copy, Debug, PartialEq, Eq)]
pub struct Ccw {
    pub command: u8,
    pub address: u32,
    pub flags: u8,
    pub count: u32,
}

// What a CCW asks for.
#[derive(Clone, Copy, Debug, PartialEq, Eq)]
pub enum ChannelOperation {
    // A transfer in channel, to the CCW at this address.
    TransferInChannel {
        address: u32,
    },
    // Data: fetched from storage and written to the device, or read from the device and stored; then the next CCW, if it chains.
    Data {
        kind: AccessKind,
        address: u32,
        count: u32,
        chains: bool,
    },
    // A bad command, a bad flag, or a count of zero.
    Invalid,
}

// How control comes to the CCW to come.
#[derive(Clone, Copy, Debug, PartialEq, Eq)]
pub enum Chaining {
    // It is the first.
    First,
    // By the chain-command flag of the CCW before it.
    Command,
    // By a transfer in channel.
    Transfer,
    // None is to come: the program has ended.
    Ended,
}

// The channel's record.
#[derive(Clone, Copy, Debug, PartialEq, Eq)]
pub struct ChannelRecord {
    // The address of the CCW to come; after the last, that behind it; where one is refused, its own.
    pub ccw: u32,
    pub chaining: Chaining,
    // How many bytes were taken from the device, and how many were given to it.
    pub taken: usize,
    pub given: usize,
}

// Why a request ends with a number other than 0.
#[derive(Clone, Copy, Debug, PartialEq, Eq)]
pub enum ChannelReason {
    // 64
    Configuration,
    // 65
    ChannelKey,
    // 66
    Grant,
    // 74
    GrantUsed,
    // 71
    Program,
    // 72
    Protection,
    // 73
    Device,
}

impl From<ChannelReason> for u32 {
    ghost from_gives = { λ reason n. n ≡ channel_number reason };

    // The number of the channel's table.
    fn from(reason: ChannelReason) -> u32
        ensures { (result ≡ channel_number reason) × (result < 256) }
    {
        match reason {
            ChannelReason::Configuration => 64,
            ChannelReason::ChannelKey => 65,
            ChannelReason::Grant => 66,
            ChannelReason::GrantUsed => 74,
            ChannelReason::Program => 71,
            ChannelReason::Protection => 72,
            ChannelReason::Device => 73,
        }
    }
}

// The answer: the program ended, or it was refused.
pub type ChannelAnswer = Result<(), ChannelReason>;

// How far a request has come: the channel's record, how many CCWs were fetched, and the answer; while there is none, it is under way.
#[derive(Clone, Copy, Debug, PartialEq, Eq)]
pub struct ChannelProgress {
    pub state: ChannelRecord,
    pub fetched: u32,
    pub standing: Option<ChannelAnswer>,
}

// What a whole request gives: the answer, how many CCWs were fetched, and the channel's record.
#[derive(Clone, Copy, Debug, PartialEq, Eq)]
pub struct ChannelReply {
    pub answer: ChannelAnswer,
    pub count: u32,
    pub state: ChannelRecord,
}
