// The calls of `host` for programs in C, Rust and other languages, in a static library: each calls the function of `host` of its name and promises
// what that promises. What the numbers and bytes stand for is said there. The parameters are those of C.
#![tactic(auto)]

ghost use Rattle.std.specs.Prelude.{◌≡◌};
ghost use Rattle.boundary.specs.Boundary.{version_number, call_outcome, called, CallCondition1};

// The version of the boundary.
#[unsafe(no_mangle)]
pub extern "C" fn storage_unit_version() -> u32
    ensures { result ≡ version_number }
{
    host::storage_unit_version()
}

// One request for one processor.
#[unsafe(no_mangle)]
pub extern "C" fn storage_unit_request(
    settings: u32,
    storage: &mut [u8],
    keys: &mut [u8],
    records: &mut [u8],
    processor_number: u32,
    operation: u32,
    first: u32,
    second: u32,
    buffer: &mut [u8],
) -> u64
    ensures condition_1 { CallCondition1 result storage.old keys.old records.old buffer.old
        storage.new keys.new records.new buffer.new }
    ensures condition_2 { call_outcome result storage.new keys.new records.new buffer.new
        ≡ called settings storage.old keys.old records.old processor_number operation first second
        buffer.old }
{
    host::storage_unit_request(
        settings,
        storage,
        keys,
        records,
        processor_number,
        operation,
        first,
        second,
        buffer,
    )
}
