// The short way in for fetch and store, for programs in C, Rust and other languages: the processor's own record is one number, and the access
// is as long as the bytes that are lent for it. Nothing is asked of the caller: whatever the numbers and bytes are, the call ends with an
// answer of the table, and one that is not completed changes nothing. That it is a crate of its own is for speed: the static library over it,
// `host_access_c`, is compiled apart into an object of its own (docs/BENCHMARK.md).
#![tactic(auto)]

ghost use Rattle.std.specs.Prelude.{◌≡◌};
ghost use Rattle.host_access.specs.ShortWay.{access_outcome, accessed, AccessCondition1};
ghost use Rattle.host_access.specs.Entry.{words_in, Enters};

use access::{fetch, store};
use boundary::{RecordWords, pack, settings_in};
use machine::{AccessKind, Processor, Reason, Refusal, Settings};
use table::numbers::Sizes;

// The words of the record in a number: the state is its lesser half, the prefix its greater half.
fn words_in(record: u64) -> RecordWords
    ensures { result ≡ words_in «record» }
{
    RecordWords {
        state: (record % 4294967296) as u32,
        prefix: (record / 4294967296) as u32,
    }
}

// What an access is made with beside its operands: the settings and the processor's own record.
#[derive(Clone, Copy)]
struct Entry {
    settings: Settings,
    p: Processor,
}

// The settings and the record in these numbers; a refusal where the settings have another bit on, or where no processor has such a record.
fn enter(settings: u32, storage: &[u8], keys: &[u8], record: u64) -> Result<Entry, Refusal>
    ensures { Enters result settings storage.now keys.now «record» }
{
    let settings = settings_in(settings)?;
    let words = words_in(record);
    if !words.is_valid() {
        Sizes::of(settings, storage, keys).configuration_line()?;
        return Err(Refusal {
            reason: Reason::Record,
            place: 0,
        });
    }
    Ok(Entry {
        settings,
        p: words.into(),
    })
}

// A fetch of as many bytes as `bytes` has. `settings`: 1 the 4K facility, 2 the extensions. `record`: the eight bytes of the processor's own
// record, as one number, the least significant first. The result is that of `host::storage_unit_request`.
pub fn storage_unit_fetch(
    settings: u32,
    storage: &[u8],
    keys: &mut [u8],
    record: u64,
    address: u32,
    bytes: &mut [u8],
) -> u64
    ensures condition_1 { AccessCondition1 result storage.now keys.old bytes.old
        storage.now keys.new bytes.new }
    ensures condition_2 { access_outcome result storage.now keys.new bytes.new
        ≡ accessed AccessKind.Fetch settings storage.now keys.old «record» address bytes.old }
{
    match enter(settings, storage, &keys[..], record) {
        Ok(Entry { settings, p }) => {
            let count = bytes.len();
            pack(fetch(settings, storage, keys, p, address, count, bytes))
        }
        Err(refusal) => pack(Err(refusal)),
    }
}

// A store of all of `bytes`, which are only read. The other parameters and the result are those of `storage_unit_fetch`.
pub fn storage_unit_store(
    settings: u32,
    storage: &mut [u8],
    keys: &mut [u8],
    record: u64,
    address: u32,
    bytes: &[u8],
) -> u64
    ensures condition_1 { AccessCondition1 result storage.old keys.old bytes.now
        storage.new keys.new bytes.now }
    ensures condition_2 { access_outcome result storage.new keys.new bytes.now
        ≡ accessed AccessKind.Store settings storage.old keys.old «record» address bytes.now }
{
    match enter(settings, &storage[..], &keys[..], record) {
        Ok(Entry { settings, p }) => {
            let count = bytes.len();
            pack(store(settings, storage, keys, p, address, count, bytes))
        }
        Err(refusal) => pack(Err(refusal)),
    }
}
