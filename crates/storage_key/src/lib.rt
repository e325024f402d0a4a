// Storage keys: the key byte, who may fetch and store, and what is recorded.
#![tactic(auto)]

ghost use Rattle.std.specs.Prelude.{◌≡◌, ◌<◌, get_or};
ghost use Rattle.machine.specs.Key.{key_in_word, after_reset, code_of, joined as joined_of};
ghost use Rattle.machine.specs.Protection.{permitted as is_permitted, low_protected, recorded as recorded_by};
ghost use Rattle.storage_key.specs.Entries.{permissions as permissions_of, permits as permits_key};

use machine::{AccessKind, Processor};

// The key in bits 24-30 of a register word.
pub fn key_in(word: u32) -> u8
    ensures { result ≡ key_in_word word }
{
    (word % 256 / 2 * 2) as u8
}

// The key that a completed access leaves in a unit that it touches.
#[tactic(auto, unfolding(machine::specs::Key::after_fetch, machine::specs::Key::after_store))]
pub fn recorded(kind: AccessKind, key: u8) -> u8
    ensures { result ≡ recorded_by kind key }
{
    match kind {
        AccessKind::Fetch => key / 8 * 8 + 4 + key / 2 % 2 * 2,
        AccessKind::Store => key / 8 * 8 + 6,
    }
}

// The key with its reference bit zero.
#[tactic(auto, unfolding(machine::specs::Key::after_reset))]
pub fn after_reset(key: u8) -> u8
    ensures { result ≡ after_reset key }
{
    key / 8 * 8 + key / 2 % 2 * 2
}

// The condition code that a reset takes from a key: 2 x reference + change.
#[tactic(auto, unfolding(machine::specs::Key::code_of))]
pub fn code_of(key: u8) -> u8
    ensures { result ≡ code_of key }
{
    key / 2 % 4
}

// Two keys as one: the low-order key, its reference and change bits each ORed with the high-order one's.
#[tactic(auto, unfolding(machine::specs::Key::joined))]
pub fn joined(low: u8, high: u8) -> u8
    ensures { result ≡ joined_of low high }
{
    let referenced = (low / 4 % 2) | (high / 4 % 2);
    let changed = (low / 2 % 2) | (high / 2 % 2);
    low / 8 * 8 + referenced * 4 + changed * 2
}

// The words of the sixteen access keys, for each kind of access.
#[derive(Clone, Copy)]
struct PermissionWords {
    fetch: [u32; 16],
    store: [u32; 16],
}

// Who may fetch and store: 512 entries, one for each access key and each value of the five leading bits of a storage key. The 32 entries of an
// access key are a word for fetch and a word for store; an entry has a bit in each, from right to left, which is one where that is permitted.
// Two entries side by side are for one value of the access-control bits, with fetch-protection bit 0 and 1: they have 11 in the word for fetch
// and 11 in the word for store where the keys match, else 01 and 00. The words of a kind stand together so that `word_of` takes one array of
// sixteen. What other forms took: docs/BENCHMARK.md.
const PERMISSIONS: PermissionWords = PermissionWords {
    fetch: [
        0xFFFFFFFF, 0x5555555D, 0x55555575, 0x555555D5, 0x55555755, 0x55555D55, 0x55557555,
        0x5555D555, 0x55575555, 0x555D5555, 0x55755555, 0x55D55555, 0x57555555, 0x5D555555,
        0x75555555, 0xD5555555,
    ],
    store: [
        0xFFFFFFFF, 0x0000000C, 0x00000030, 0x000000C0, 0x00000300, 0x00000C00, 0x00003000,
        0x0000C000, 0x00030000, 0x000C0000, 0x00300000, 0x00C00000, 0x03000000, 0x0C000000,
        0x30000000, 0xC0000000,
    ],
};

// The word of an access key among the sixteen of a kind. The indexes are constants so that the compiler keeps the words in constant data:
// indexed by the access key they are built on the stack at each access (docs/BENCHMARK.md).
fn word_of(words: [u32; 16], access_key: u8) -> u32
    requires { access_key < 16 }
    ensures { result ≡ get_or words access_key 0 }
{
    match access_key {
        0 => words[0],
        1 => words[1],
        2 => words[2],
        3 => words[3],
        4 => words[4],
        5 => words[5],
        6 => words[6],
        7 => words[7],
        8 => words[8],
        9 => words[9],
        10 => words[10],
        11 => words[11],
        12 => words[12],
        13 => words[13],
        14 => words[14],
        _ => words[15],
    }
}

// The permissions of an access key for a kind of access, a bit for each value of the five leading bits of a storage key, from right to left.
// An access key over 15 has no entries and matches no storage key: a fetch is permitted where the fetch-protection bit is zero, a store
// nowhere.
#[tactic(auto, using(crate::proofs::Entries::over_15))]
pub fn permissions(kind: AccessKind, access_key: u8) -> u32
    ensures { result ≡ permissions_of kind access_key }
{
    if 16 <= access_key {
        return match kind {
            AccessKind::Fetch => 0x55555555,
            AccessKind::Store => 0x00000000,
        };
    }
    match kind {
        AccessKind::Fetch => word_of(PERMISSIONS.fetch, access_key),
        AccessKind::Store => word_of(PERMISSIONS.store, access_key),
    }
}

// What permissions say of a storage key.
pub fn permits(permissions: u32, key: u8) -> bool
    ensures { result ≡ permits_key permissions key }
{
    (permissions >> (key / 8)) % 2 == 1
}

// The access key and the storage key permit an access. An access asks for the permissions once and for each of its units what they say.
#[tactic(auto, using(crate::proofs::Entries::permits_permitted))]
pub fn permitted(kind: AccessKind, access_key: u8, key: u8) -> bool
    ensures { result ≡ is_permitted kind access_key key }
{
    permits(permissions(kind, access_key), key)
}

// Low-address protection forbids an access to a real address.
#[tactic(auto, unfolding(machine::specs::Protection::low_protected))]
pub fn low_protected(kind: AccessKind, p: Processor, real: u32) -> bool
    ensures { result ≡ low_protected kind p real }
{
    match kind {
        AccessKind::Fetch => false,
        AccessKind::Store => p.low_protection & (real < 512),
    }
}
