// RRB and RRBE: the reference bit is reset, and the condition code of the record is set from the key as it was.
ghost use Rattle.std.specs.Prelude.{◌≡◌, []};
ghost use Rattle.machine.specs.Step.{outcome, step};
ghost use Rattle.machine.specs.KeyInstructions.{operation};

use crate::block::block_of;
use crate::checks::lines;
use machine::{
    Answer, Completion, KeyInstruction, KeyOperation, Processor, Request, Served, Settings,
};
use storage_key::{after_reset, code_of, joined};
use table::numbers::Sizes;

// An instruction that resets, of a processor whose record is lent. One key is written twice, with the same value, for speed
// (docs/BENCHMARK.md).
#[inline(always)]
pub(crate) fn reset(
    settings: Settings,
    storage: &[u8],
    keys: &mut [u8],
    p: &mut Processor,
    instruction: KeyInstruction,
) -> Answer
    requires { operation instruction ≡ KeyOperation.Reset }
    ensures { outcome result storage.now keys.new p.new []
        ≡ step settings storage.now keys.old p.old (Request.Key instruction) [] }
{
    let sizes = Sizes::of(settings, storage, &keys[..]);
    lines(sizes, *p, instruction)?;
    let block = block_of(sizes, *p, instruction);
    let low = keys[block.low];
    let high = keys[block.high];
    p.code = code_of(joined(low, high));
    keys[block.low] = after_reset(low);
    keys[block.high] = after_reset(high);
    Ok(Completion {
        word: 0,
        rule: block.rule,
    })
}

// RRB, on the key of the unit that holds a 2K block.
pub fn rrb(
    settings: Settings,
    storage: &[u8],
    keys: &mut [u8],
    p: Processor,
    address: u32,
) -> Served
    ensures { outcome result.answer storage.now keys.new result.processor []
        ≡ step settings storage.now keys.old p (Request.Key (KeyInstruction.Rrb address)) [] }
{
    let mut processor = p;
    let instruction = KeyInstruction::Rrb { address };
    let answer = reset(settings, storage, keys, &mut processor, instruction);
    Served { answer, processor }
}

// RRBE, on the two keys of a 4K block or, with the 4K facility, on its one key.
pub fn rrbe(settings: Settings, storage: &[u8], keys: &mut [u8], p: Processor, r2: u32) -> Served
    ensures { outcome result.answer storage.now keys.new result.processor []
        ≡ step settings storage.now keys.old p (Request.Key (KeyInstruction.Rrbe r2)) [] }
{
    let mut processor = p;
    let instruction = KeyInstruction::Rrbe { r2 };
    let answer = reset(settings, storage, keys, &mut processor, instruction);
    Served { answer, processor }
}
