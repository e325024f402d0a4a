// Fetch and store of 1 to 256 bytes over lent storage, keys and buffer. A refused access touches nothing. An access touches one unit or two: the
// lines of the table are tested at the first byte in each, and then the access is recorded in the unit's key and its bytes there are moved. One
// function gives the refusal or the spans of either; fetch and store are two, since one only reads storage and the other only reads the buffer,
// and for speed (docs/BENCHMARK.md). What is lent is passed one by one: with a struct of the references, clauses would speak of what each field was lent
// from. The count stands beside the buffer, since it is promised what an access answers whose buffer is shorter.
#![tactic(auto)]

mod asking;
mod check;
mod span;
mod transfer;

ghost use Rattle.std.specs.Prelude.{◌≡◌};
ghost use Rattle.machine.specs.Step.{outcome, step};

use crate::check::spans_of;
use crate::transfer::{move_run, record_access};
use machine::{AccessKind, Answer, Completion, Processor, Request, Settings};

// A fetch of `count` bytes from a real address on, by a processor with the record p. They are left in the buffer from its first byte on.
pub fn fetch(
    settings: Settings,
    storage: &[u8],
    keys: &mut [u8],
    p: Processor,
    address: u32,
    count: usize,
    buffer: &mut [u8],
) -> Answer
    ensures { outcome result storage.now keys.new p buffer.new
        ≡ step settings storage.now keys.old p (Request.Access AccessKind.Fetch address count) buffer.old }
{
    let spans = spans_of(
        settings,
        storage.len(),
        &keys[..],
        p,
        AccessKind::Fetch,
        address,
        count,
        buffer.len(),
    )?;
    let first = spans.first;
    let n = spans.first_count;
    record_access(keys, AccessKind::Fetch, first);
    let at = first.absolute as usize;
    move_run(buffer, 0, storage, at, first.real, n);
    if let Some(second) = spans.second {
        record_access(keys, AccessKind::Fetch, second);
        let at = second.absolute as usize;
        move_run(buffer, n, storage, at, second.real, count - n);
    }
    Ok(Completion {
        word: 0,
        rule: first.rule,
    })
}

// A store of the first `count` bytes of the buffer from a real address on, by a processor with the record p.
pub fn store(
    settings: Settings,
    storage: &mut [u8],
    keys: &mut [u8],
    p: Processor,
    address: u32,
    count: usize,
    buffer: &[u8],
) -> Answer
    ensures { outcome result storage.new keys.new p buffer.now
        ≡ step settings storage.old keys.old p (Request.Access AccessKind.Store address count) buffer.now }
{
    let spans = spans_of(
        settings,
        storage.len(),
        &keys[..],
        p,
        AccessKind::Store,
        address,
        count,
        buffer.len(),
    )?;
    let first = spans.first;
    let n = spans.first_count;
    record_access(keys, AccessKind::Store, first);
    let at = first.absolute as usize;
    move_run(storage, at, buffer, 0, first.real, n);
    if let Some(second) = spans.second {
        record_access(keys, AccessKind::Store, second);
        let at = second.absolute as usize;
        move_run(storage, at, buffer, n, second.real, count - n);
    }
    Ok(Completion {
        word: 0,
        rule: first.rule,
    })
}

// An access of either kind, with its length as in a request.
pub fn access(
    settings: Settings,
    storage: &mut [u8],
    keys: &mut [u8],
    p: Processor,
    kind: AccessKind,
    address: u32,
    count: u32,
    buffer: &mut [u8],
) -> Answer
    ensures { outcome result storage.new keys.new p buffer.new
        ≡ step settings storage.old keys.old p (Request.Access kind address count) buffer.old }
{
    let count = count as usize;
    match kind {
        AccessKind::Fetch => fetch(settings, &storage[..], keys, p, address, count, buffer),
        AccessKind::Store => store(settings, storage, keys, p, address, count, &buffer[..]),
    }
}
