// How far a request has come: its progress where it is refused, where a CCW was fetched, and after each operation.
ghost use Rattle.std.specs.Prelude.{◌+◌, ◌<◌, ◌≡◌};
ghost use Rattle.machine.specs.Channel.{Answered, begun, standing_as, after_data};
ghost use Rattle.channel.specs.Requests.{counted as counted_by, under_way, after_transfer};

use machine::channel::{
    Chaining, ChannelAnswer, ChannelProgress, ChannelReason, ChannelRecord, ChannelRequest,
};

// The progress of a request that begins: its first CCW, and its two buffers used from their first bytes.
pub fn begin(request: ChannelRequest) -> ChannelProgress
    ensures { result ≡ begun request }
{
    ChannelProgress {
        state: ChannelRecord {
            ccw: request.first,
            chaining: Chaining::First,
            taken: 0,
            given: 0,
        },
        fetched: 0,
        standing: None,
    }
}

// The progress of a request under way, of its parts.
pub(crate) fn under_way(
    ccw: u32,
    chaining: Chaining,
    taken: usize,
    given: usize,
    fetched: u32,
) -> ChannelProgress
    ensures { result ≡ under_way ccw chaining taken given fetched }
{
    ChannelProgress {
        state: ChannelRecord {
            ccw,
            chaining,
            taken,
            given,
        },
        fetched,
        standing: None,
    }
}

// The progress of a request that is answered, all else being as it was.
pub(crate) fn answered(progress: ChannelProgress, answer: ChannelAnswer) -> ChannelProgress
    ensures { result ≡ standing_as progress (Answered answer) }
{
    ChannelProgress {
        standing: Some(answer),
        ..progress
    }
}

// The progress with one CCW more fetched.
pub(crate) fn counted(progress: ChannelProgress) -> ChannelProgress
    requires { progress.fetched < 256 }
    ensures { result ≡ counted_by progress }
{
    ChannelProgress {
        fetched: progress.fetched + 1,
        ..progress
    }
}

// A transfer in channel to the CCW at this address: it is allowed after a CCW that chains.
#[tactic(auto, unfolding(crate::specs::Requests::after_transfer))]
pub(crate) fn transfer_in_channel(progress: ChannelProgress, address: u32) -> ChannelProgress
    ensures { result ≡ after_transfer address progress }
{
    if progress.state.chaining != Chaining::Command {
        return answered(progress, Err(ChannelReason::Program));
    }
    let state = ChannelRecord {
        ccw: address,
        chaining: Chaining::Transfer,
        ..progress.state
    };
    ChannelProgress {
        state,
        standing: None,
        ..progress
    }
}

// The progress after data of which so many bytes were taken from the device and given to it.
pub(crate) fn after_data(
    progress: ChannelProgress,
    chains: bool,
    taken: usize,
    given: usize,
) -> ChannelProgress
    requires { (progress.state.ccw + 8 < 4294967296) × (progress.state.taken + taken < 18446744073709551616)
        × (progress.state.given + given < 18446744073709551616) }
    ensures { result ≡ after_data chains taken given progress }
{
    let (chaining, standing) = if chains {
        (Chaining::Command, None)
    } else {
        (Chaining::Ended, Some(Ok(())))
    };
    ChannelProgress {
        state: ChannelRecord {
            ccw: progress.state.ccw + 8,
            chaining,
            taken: progress.state.taken + taken,
            given: progress.state.given + given,
        },
        fetched: progress.fetched,
        standing,
    }
}
