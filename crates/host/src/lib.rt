// The boundary for programs in C, Rust and other languages: numbers and byte slices only. Nothing is asked of the caller: whatever the
// numbers and bytes are, the call ends with an answer of the table, and one that is not completed changes nothing.
#![tactic(auto)]

mod record;
mod serve;

ghost use Rattle.std.specs.Prelude.{◌≡◌};
ghost use Rattle.machine.specs.Answers.{answer_of};
ghost use Rattle.machine.specs.Pair.{without_record};
ghost use Rattle.boundary.specs.Boundary.{version_number, Packs, call_outcome, called, CallCondition1};

use crate::serve::serve_bytes;
use boundary::{pack, settings_in};
use machine::{Reason, Refusal};
use table::numbers::Sizes;

// The version of the boundary.
pub fn storage_unit_version() -> u32
    ensures { result ≡ version_number }
{
    400
}

// The answer where line 64 refuses the sizes, where there is no record, or where line 65 refuses it.
#[tactic(auto, unfolding(machine::specs::Answers::first_of))]
pub fn refused(sizes: Sizes) -> u64
    ensures { Packs result (answer_of (without_record sizes.settings sizes.storage sizes.keys) 0 0) }
{
    let no_record = Refusal {
        reason: Reason::Record,
        place: 0,
    };
    pack(sizes.configuration_line().and(Err(no_record)))
}

// One request for one processor, with the parameters of the C interface. `settings`: 1 the 4K facility, 2 the extensions. `records`: sixteen bytes,
// eight for each processor. `operation`: 0 fetch, 1 store, 2 ISK, 3 SSK, 4 RRB, 5 ISKE, 6 SSKE, 7 RRBE, 8 SET PREFIX, 9 STORE PREFIX. `first`: the
// real address of an access, R1, or the word of SET PREFIX. `second`: the length of an access, R2, or the address of RRB. The result has the word in
// bits 0 to 31 from the right, the place in bits 32 to 39, the rule in bits 40 to 47 and the number in bits 48 to 63.
pub fn storage_unit_request(
    settings: u32,
    storage: &mut [u8],
    keys: &mut [u8],
    records: &mut [u8],
    processor_number: u32,
    operation: u32,
    first: u32,
    second: u32,
    buffer: &mut [u8],
) -> u64
    ensures condition_1 { CallCondition1 result storage.old keys.old records.old buffer.old
        storage.new keys.new records.new buffer.new }
    ensures condition_2 { call_outcome result storage.new keys.new records.new buffer.new
        ≡ called settings storage.old keys.old records.old processor_number operation first second
        buffer.old }
{
    let machine = match settings_in(settings) {
        Ok(machine) => machine,
        Err(refusal) => return pack(Err(refusal)),
    };
    let sizes = Sizes::of(machine, &storage[..], &keys[..]);
    if 2 <= processor_number {
        return refused(sizes);
    }
    match records.as_mut_array() {
        Some(records) => serve_bytes(
            machine,
            storage,
            keys,
            records,
            processor_number as usize,
            operation,
            first,
            second,
            buffer,
        ),
        None => refused(sizes),
    }
}
