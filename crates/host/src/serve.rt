// A request of processor 0 or 1 over the bytes of the records. Requests are told apart by their operation number, which is that of the C interface,
// and each then makes its record of the two words that were read. That no request is put together to be told apart again, as one is for
// `storage_unit::serve`, and that each takes its record apart by itself, is for speed (docs/BENCHMARK.md). Storage, keys, records and buffer are
// parameters and no struct: what is lent is written in part, and clauses would speak of what each field of a struct was lent from. For the same
// reason `IsOwn` is a clause: it relates a record to the bytes that are lent.
ghost use Rattle.std.specs.Prelude.{◌≡◌, ◌*◌, ◌<◌, ◌≤◌};
ghost use Rattle.machine.specs.Answers.{Stop, answer_of, first_of};
ghost use Rattle.machine.specs.Table.{configuration, own_record};
ghost use Rattle.boundary.specs.Boundary.{request_of, Packs};
ghost use Rattle.boundary.specs.Words.{record_of};
ghost use Rattle.host.specs.Writing.{record_put};
ghost use Rattle.host.specs.Serving.{Met, MetByInstruction, IsOwn};

use crate::record::Own;
use crate::refused;
use access::{fetch, store};
use boundary::pack;
use key_instruction::insert::{isk, iske};
use key_instruction::reset::{rrb, rrbe};
use key_instruction::set::{ssk, sske};
use machine::{PrefixInstruction, Processor, Reason, Refusal, Request, Served, Settings};
use storage_unit::prefix::prefix_instruction;
use table::numbers::Sizes;

// Writes the condition code that RRB or RRBE leaves, changed or not, and packs the answer.
fn write_back(records: &mut [u8; 16], own: Own, served: Served) -> u64
    ensures records { records.new ≡ record_put records.old own.at (record_of own.words.state own.words.prefix) served.processor }
    ensures packed { Packs result served.answer }
{
    own.put(records, served.processor);
    pack(served.answer)
}

// The answer to an operation number past the last: 66, where lines 64 and 65 let the record p pass.
#[tactic(auto, unfolding(machine::specs::Answers::first_of))]
fn unknown_operation(sizes: Sizes, p: Processor) -> u64
    ensures { Packs result
        (answer_of (first_of (first_of (configuration sizes.settings sizes.storage sizes.keys) (own_record sizes.storage p)) (Stop Reason.Operand 0))
        0 0) }
{
    let operand = Refusal {
        reason: Reason::Operand,
        place: 0,
    };
    pack(sizes.lines(p).and(Err(operand)))
}

// A prefix instruction, whatever the buffer. It changes nothing but the prefix of its record, and nothing else is written: a byte that was written
// anew would delay the next reading of its word (docs/BENCHMARK.md).
fn prefix_words(
    settings: Settings,
    storage: &[u8],
    keys: &[u8],
    records: &mut [u8; 16],
    own: Own,
    instruction: PrefixInstruction,
) -> u64
    requires { IsOwn own records.old }
    ensures { MetByInstruction settings (Request.Prefix instruction) own.at result
        storage.now keys.now records.old storage.now keys.now records.new }
{
    let served = prefix_instruction(settings, storage, keys, own.record(), instruction);
    own.put_prefix(records, served.processor.prefix);
    pack(served.answer)
}

// An instruction, or an operation past the last, whatever the buffer.
fn instruction_words(
    settings: Settings,
    storage: &[u8],
    keys: &mut [u8],
    records: &mut [u8; 16],
    own: Own,
    operation: u32,
    r1: u32,
    r2: u32,
) -> u64
    requires is_own { IsOwn own records.old }
    requires le_operation { 2 ≤ operation }
    ensures { MetByInstruction settings (request_of operation r1 r2) own.at result
        storage.now keys.old records.old storage.now keys.new records.new }
{
    match operation {
        2 => pack(isk(settings, storage, &keys[..], own.record(), r1, r2)),
        3 => pack(ssk(settings, storage, keys, own.record(), r1, r2)),
        4 => write_back(records, own, rrb(settings, storage, keys, own.record(), r2)),
        5 => pack(iske(settings, storage, &keys[..], own.record(), r1, r2)),
        6 => pack(sske(settings, storage, keys, own.record(), r1, r2)),
        7 => write_back(
            records,
            own,
            rrbe(settings, storage, keys, own.record(), r2),
        ),
        8 => {
            let instruction = PrefixInstruction::SetPrefix { word: r1 };
            prefix_words(settings, storage, &keys[..], records, own, instruction)
        }
        9 => {
            let instruction = PrefixInstruction::StorePrefix;
            prefix_words(settings, storage, &keys[..], records, own, instruction)
        }
        _ => unknown_operation(Sizes::of(settings, storage, &keys[..]), own.record()),
    }
}

// A request whose processor has its record in these two words.
fn serve_words(
    settings: Settings,
    storage: &mut [u8],
    keys: &mut [u8],
    records: &mut [u8; 16],
    own: Own,
    operation: u32,
    first: u32,
    second: u32,
    buffer: &mut [u8],
) -> u64
    requires { IsOwn own records.old }
    ensures { Met settings (request_of operation first second) own.at result
        storage.old keys.old records.old buffer.old
        storage.new keys.new records.new buffer.new }
{
    let n = second as usize;
    match operation {
        0 => {
            let p = own.record();
            pack(fetch(settings, &storage[..], keys, p, first, n, buffer))
        }
        1 => {
            let p = own.record();
            pack(store(settings, storage, keys, p, first, n, &buffer[..]))
        }
        _ => instruction_words(
            settings,
            &storage[..],
            keys,
            records,
            own,
            operation,
            first,
            second,
        ),
    }
}

// A request of processor 0 or 1. Lengths and state are tested for all operations at once, for speed (docs/BENCHMARK.md); the step tests
// them in its own order.
pub(crate) fn serve_bytes(
    settings: Settings,
    storage: &mut [u8],
    keys: &mut [u8],
    records: &mut [u8; 16],
    processor_number: usize,
    operation: u32,
    first: u32,
    second: u32,
    buffer: &mut [u8],
) -> u64
    requires { processor_number < 2 }
    ensures { Met settings (request_of operation first second) (processor_number * 8) result
        storage.old keys.old records.old buffer.old
        storage.new keys.new records.new buffer.new }
{
    let own = Own::read(records, processor_number);
    let sizes = Sizes::of(settings, &storage[..], &keys[..]);
    if !(sizes.valid() & own.words.is_valid()) {
        return refused(sizes);
    }
    serve_words(
        settings, storage, keys, records, own, operation, first, second, buffer,
    )
}
