// The bytes of a CCW's data, from storage to the room or from the device to storage.
ghost use Rattle.std.specs.Prelude.{◌+◌, ◌≤◌, ◌≡◌, length};
ghost use Rattle.machine.specs.Channel.{bytes_moved};

// More than the most bytes that a CCW can count.
const COUNT_LIMIT: usize = 65536;

// n bytes of the source go to the target. They all are held in a local array before one is written, so that the compiler makes one memmove of
// the two loops: as `copy_from_slice` of parts, with the array or without it, it takes 3 to 14 instructions more (docs/BENCHMARK.md). `move_run` of
// `access` is apart, since it makes the address of each byte by the 24-bit addition.
pub(crate) fn move_bytes(target: &mut [u8], at: usize, source: &[u8], from: usize, n: usize)
    requires { (at + n ≤ length target.old) × (from + n ≤ length source.now) × (n ≤ 65536) }
    ensures { target.new ≡ bytes_moved target.old at source.now from n }
{
    let mut held = [0u8; COUNT_LIMIT];
    for i in 0..n {
        held[i] = source[from + i];
    }
    for j in 0..n {
        target[at + j] = held[j];
    }
}
