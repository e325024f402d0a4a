// Completing one span of an access: recording the access in the key of its unit, and moving its bytes.
ghost use Rattle.std.specs.Prelude.{◌+◌, ◌-◌, ◌<◌, ◌≡◌, length};
ghost use Rattle.machine.specs.Numbers.{address_space, add24 as sum24};
ghost use Rattle.access.specs.Moving.{Fits, moved, key_recorded};

use crate::span::Span;
use machine::AccessKind;
use prefixing::add24;
use storage_key::recorded;
use table::numbers::ADDRESS_SPACE;

// The most bytes in a run: a run lies in one unit, and the larger unit has so many. An access has fewer.
const RUN_MAXIMUM: usize = 4096;

// How far byte j of a run that does not wrap is from the run's first byte: its real address is made by the 24-bit addition. The two tests never
// hold. They stand beside the addition so that the compiler sees that the answer is j in every case, and no addition is left.
fn offset(real: u32, j: usize) -> usize
    requires { (j < 4096) × (real + j < address_space) }
    ensures { (result ≡ sum24 real j - real) × (result ≡ j) }
{
    if RUN_MAXIMUM <= j {
        return j;
    }
    if ADDRESS_SPACE <= real + j as u32 {
        return j;
    }
    (add24(real, j as u32) - real) as usize
}

// A run of n bytes whose first has the real address `real`, in either direction. They all are held in a local array before one is written, so
// that the compiler makes one memmove of the two loops. The loops go by the index j, since each byte's real address is made by the addition; and
// the parts of the two lists are named by their first index, since slices are no plainer: a call would owe the range of each, and join three.
pub(crate) fn move_run(
    target: &mut [u8],
    at: usize,
    source: &[u8],
    from: usize,
    real: u32,
    n: usize,
)
    requires { Fits (length target.old) at (length source.now) from real n }
    ensures { target.new ≡ moved target.old at source.now from n }
{
    let mut held = [0u8; RUN_MAXIMUM];
    for i in 0..n {
        held[i] = source[from + offset(real, i)];
    }
    for j in 0..n {
        target[at + offset(real, j)] = held[j];
    }
}

// Records an access in the key of a span's unit.
pub(crate) fn record_access(keys: &mut [u8], kind: AccessKind, here: Span)
    requires { here.unit < length keys.old }
    ensures { keys.new ≡ key_recorded kind keys.old here }
{
    keys[here.unit] = recorded(kind, here.key);
}
