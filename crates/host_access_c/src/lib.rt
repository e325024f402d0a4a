// The calls of `host_access` for programs in C, Rust and other languages, in a static library: each calls the function of `host_access` of its name
// and promises what that promises. What the numbers and bytes stand for is said there. The parameters are those of C.
#![tactic(auto)]

ghost use Rattle.std.specs.Prelude.{◌≡◌};
ghost use Rattle.host_access.specs.ShortWay.{access_outcome, accessed, AccessCondition1};

use machine::AccessKind;

// A fetch of as many bytes as `bytes` has.
#[unsafe(no_mangle)]
pub extern "C" fn storage_unit_fetch(
    settings: u32,
    storage: &[u8],
    keys: &mut [u8],
    record: u64,
    address: u32,
    bytes: &mut [u8],
) -> u64
    ensures condition_1 { AccessCondition1 result storage.now keys.old bytes.old
        storage.now keys.new bytes.new }
    ensures condition_2 { access_outcome result storage.now keys.new bytes.new
        ≡ accessed AccessKind.Fetch settings storage.now keys.old «record» address bytes.old }
{
    host_access::storage_unit_fetch(settings, storage, keys, record, address, bytes)
}

// A store of all of `bytes`, which are only read.
#[unsafe(no_mangle)]
pub extern "C" fn storage_unit_store(
    settings: u32,
    storage: &mut [u8],
    keys: &mut [u8],
    record: u64,
    address: u32,
    bytes: &[u8],
) -> u64
    ensures condition_1 { AccessCondition1 result storage.old keys.old bytes.now
        storage.new keys.new bytes.now }
    ensures condition_2 { access_outcome result storage.new keys.new bytes.now
        ≡ accessed AccessKind.Store settings storage.old keys.old «record» address bytes.now }
{
    host_access::storage_unit_store(settings, storage, keys, record, address, bytes)
}
