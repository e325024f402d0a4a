// The table of answers for an access. Lines 64, 65 and 66 test the request as a whole; lines 1, 2, 19 and 6 are for instructions only; lines 5
// and 4 are tested at the first byte in each of its one or two units, line 5 at the first byte together with the lines before. Each line
// returns early, for speed (docs/BENCHMARK.md). Kind, address, count and buffer length are parameters: a struct of them would be made once, to be
// taken apart at once.
ghost use Rattle.std.specs.Prelude.{◌≡◌};
ghost use Rattle.machine.specs.Table.{operand_invalid, verdict};
ghost use Rattle.access.specs.ByUnit.{byte_outside, first_lines, spans_of, passed};

use crate::asking::Asking;
use crate::span::{Spans, bytes_to_unit_end, span_at};
use machine::{AccessKind, Processor, Reason, Refusal, Request, Settings, Verdict};
use prefixing::add24;
use table::answers::{refuse, refuse_at};
use table::numbers::{OPERAND_LIMIT, Sizes};

// Line 66.
fn operand_invalid(kind: AccessKind, address: u32, count: usize, buffer_length: usize) -> bool
    ensures { result ≡ operand_invalid (Request.Access kind address count) buffer_length }
{
    (count == 0) | (256 < count) | (OPERAND_LIMIT <= address) | (buffer_length < count)
}

// Line 5 at byte i.
fn outside(storage_length: usize, address: u32, i: u32) -> bool
    ensures { result ≡ byte_outside storage_length address i }
{
    storage_length <= add24(address, i) as usize
}

// Lines 64, 65 and 66 for a processor with the record p, and line 5 at the first byte.
#[tactic(auto, unfolding(crate::specs::ByUnit::first_lines, machine::specs::Answers::first_of))]
fn first_lines(
    sizes: Sizes,
    p: Processor,
    kind: AccessKind,
    address: u32,
    count: usize,
    buffer_length: usize,
) -> Verdict
    ensures { result ≡ first_lines sizes.settings sizes.storage sizes.keys p kind address count buffer_length }
{
    sizes.lines(p)?;
    refuse(
        Reason::Operand,
        operand_invalid(kind, address, count, buffer_length),
    )?;
    refuse(Reason::Addressing, outside(sizes.storage, address, 0))
}

// The spans of an access by a processor with the record p, or the refusal of the table. Byte k is the first in the second unit; line 5 is tested
// there before the unit's key is read. It is compiled into `fetch` and into `store`, and asks for permissions where a unit is tested and not before,
// for speed (docs/BENCHMARK.md).
#[inline(always)]
pub(crate) fn spans_of(
    settings: Settings,
    storage_length: usize,
    keys: &[u8],
    p: Processor,
    kind: AccessKind,
    address: u32,
    count: usize,
    buffer_length: usize,
) -> Result<Spans, Refusal>
    ensures { result ≡ passed (verdict settings storage_length keys.now p (Request.Access kind address count) buffer_length)
        (spans_of settings keys.now p address count) }
{
    let sizes = Sizes {
        settings,
        storage: storage_length,
        keys: keys.len(),
    };
    first_lines(sizes, p, kind, address, count, buffer_length)?;
    let first = span_at(settings, keys, p, address, 0);
    let k = bytes_to_unit_end(settings, address);
    if count <= k as usize {
        Asking::of(p, kind).lines_of_one(first)?;
        return Ok(Spans {
            first,
            first_count: count,
            second: None,
        });
    }
    refuse_at(Reason::Addressing, k, outside(storage_length, address, k))?;
    let second = span_at(settings, keys, p, address, k);
    Asking::of(p, kind).lines_of_two(first, k, second)?;
    Ok(Spans {
        first,
        first_count: k as usize,
        second: Some(second),
    })
}
