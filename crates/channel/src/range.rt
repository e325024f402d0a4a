// A range of bytes under the channel's key, by unit: each of its units is tested, and its key written, once. A range in one unit, which most are,
// has a way of its own: the loops cost more than they do for one key. They count by hand: as `for` over the numbers of the units, or over the part of
// the keys, they make a CCW of 8 bytes slower by more than the 3 % that a change of form may cost, though it never reaches them (docs/BENCHMARK.md).
ghost use Rattle.std.specs.Prelude.{◌≡◌, length};
ghost use Rattle.machine.specs.Channel.{range_forbidden, range_recorded};
ghost use Rattle.channel.specs.Ranges.{Keyed};

use machine::{AccessKind, Settings};
use storage_key::{permissions, permits, recorded};
use table::numbers::unit_of;

// A unit of the range has a key that forbids the access.
pub(crate) fn range_forbidden(
    settings: Settings,
    kind: AccessKind,
    access_key: u8,
    keys: &[u8],
    start: usize,
    count: usize,
) -> bool
    requires { Keyed settings (length keys.now) start count }
    ensures { result ≡ range_forbidden settings kind access_key keys.now start count }
{
    let allowed = permissions(kind, access_key);
    let first = unit_of(settings, start);
    let last = unit_of(settings, start + (count - 1));
    if first == last {
        return !permits(allowed, keys[first]);
    }
    let mut passed = 0;
    while first + passed <= last {
        if !permits(allowed, keys[first + passed]) {
            return true;
        }
        passed += 1;
    }
    false
}

// A completed access writes the key of each unit of the range.
pub(crate) fn record_range(
    settings: Settings,
    kind: AccessKind,
    keys: &mut [u8],
    start: usize,
    count: usize,
)
    requires { Keyed settings (length keys.old) start count }
    ensures { keys.new ≡ range_recorded settings kind keys.old start count }
{
    let first = unit_of(settings, start);
    let last = unit_of(settings, start + (count - 1));
    if first == last {
        let only = keys[first];
        keys[first] = recorded(kind, only);
        return;
    }
    let mut done = 0;
    while first + done <= last {
        let key = keys[first + done];
        keys[first + done] = recorded(kind, key);
        done += 1;
    }
}
