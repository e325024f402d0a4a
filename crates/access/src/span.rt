// The spans of an access: an access touches at most two units, and its span in each has one displacement from real to absolute addresses.
ghost use Rattle.std.specs.Prelude.{◌<◌, ◌≡◌, length};
ghost use Rattle.machine.specs.Numbers.{unit_of};
ghost use Rattle.machine.specs.Prefixing.{byte_address};
ghost use Rattle.access.specs.ByUnit.{to_unit_end, span_at};

use machine::{Processor, Settings};
use prefixing::{add24, prefixed};
use table::numbers::unit_of;

// The span of an access from one of its bytes on, in the unit of that byte.
#[derive(Clone, Copy)]
pub(crate) struct Span {
    // The real address of its first byte.
    pub(crate) real: u32,
    // The absolute address of its first byte.
    pub(crate) absolute: u32,
    // The rule of prefixing that gave it.
    pub(crate) rule: u32,
    // The unit.
    pub(crate) unit: usize,
    // The unit's key.
    pub(crate) key: u8,
}

// The spans of an access: that in its first unit, how many bytes it has, and that in its second unit, where it touches two.
#[derive(Clone, Copy)]
pub(crate) struct Spans {
    pub(crate) first: Span,
    pub(crate) first_count: usize,
    pub(crate) second: Option<Span>,
}

// The span from byte i on, which is in storage.
pub(crate) fn span_at(settings: Settings, keys: &[u8], p: Processor, address: u32, i: u32) -> Span
    requires { unit_of settings (byte_address p address i) < length keys.now }
    ensures { result ≡ span_at settings keys.now p address i }
{
    let real = add24(address, i);
    let first = prefixed(p.prefix, real);
    let absolute = first.absolute;
    let unit = unit_of(settings, absolute as usize);
    Span {
        real,
        absolute,
        rule: first.rule,
        unit,
        key: keys[unit],
    }
}

// How many bytes from an address to the end of its unit.
pub(crate) fn bytes_to_unit_end(settings: Settings, address: u32) -> u32
    ensures { result ≡ to_unit_end settings address }
{
    let size = if settings.four_k { 4096 } else { 2048 };
    size - address % size
}
