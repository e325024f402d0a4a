// A channel command word: its bytes in storage, and what it asks for.
ghost use Rattle.std.specs.Prelude.{◌+◌, ◌*◌, ◌≤◌, ◌<◌, ◌≡◌, length};
ghost use Rattle.machine.specs.Channel.{big_endian, ccw_at, data_operation, operation_of};

use machine::AccessKind;
use machine::channel::{Ccw, ChannelOperation};

// The four bytes at an address as a number, big-endian. By `from_be_bytes` a CCW of 8 bytes takes longer (docs/BENCHMARK.md).
#[tactic(auto, unfolding(machine::specs::Channel::big_endian))]
fn word_at(storage: &[u8], at: usize) -> u32
    requires { at + 4 ≤ length storage.now }
    ensures { result ≡ big_endian 4 storage.now at }
{
    let high = u32::from(storage[at]) * 256 + u32::from(storage[at + 1]);
    let low = u32::from(storage[at + 2]) * 256 + u32::from(storage[at + 3]);
    high * 65536 + low
}

// The CCW at an address, of its two words. The byte behind the flags is ignored.
pub(crate) fn ccw_at(storage: &[u8], at: usize) -> Ccw
    requires { at + 8 ≤ length storage.now }
    ensures { (result ≡ ccw_at storage.now at) × (result.count < 65536) }
{
    let first = word_at(storage, at);
    let second = word_at(storage, at + 4);
    Ccw {
        command: (first / 0x1000000) as u8,
        address: first % 0x1000000,
        flags: (second / 0x1000000) as u8,
        count: second % 0x10000,
    }
}

// A CCW that moves data. Hex 40 is the chain-command flag; another flag, or a count of zero, is bad.
fn data_operation(kind: AccessKind, ccw: Ccw) -> ChannelOperation
    ensures { result ≡ data_operation kind ccw }
{
    let chains = ccw.flags == 0x40;
    if !((ccw.flags == 0) | chains) | (ccw.count == 0) {
        return ChannelOperation::Invalid;
    }
    ChannelOperation::Data {
        kind,
        address: ccw.address,
        count: ccw.count,
        chains,
    }
}

// What a CCW asks for, by its command: low bits 01 and 10 move data, 1000 is a transfer in channel, others are bad.
#[tactic(auto, using(crate::proofs::Words::operation_tests), unfolding(machine::specs::Channel::operation_of))]
pub(crate) fn operation_of(ccw: Ccw) -> ChannelOperation
    ensures { result ≡ operation_of ccw }
{
    if ccw.command % 4 == 1 {
        return data_operation(AccessKind::Fetch, ccw);
    }
    if ccw.command % 4 == 2 {
        return data_operation(AccessKind::Store, ccw);
    }
    if ccw.command % 16 == 8 {
        return ChannelOperation::TransferInChannel {
            address: ccw.address,
        };
    }
    ChannelOperation::Invalid
}
