// ISK and ISKE: R1 with the key in it comes back; no key is written and the record stays as it is.
ghost use Rattle.std.specs.Prelude.{◌≡◌, []};
ghost use Rattle.machine.specs.Step.{outcome, step};
ghost use Rattle.machine.specs.KeyInstructions.{operation};

use crate::block::block_of;
use crate::checks::lines;
use machine::{Answer, Completion, KeyInstruction, KeyOperation, Processor, Request, Settings};
use storage_key::joined;
use table::numbers::Sizes;

// An instruction that inserts. The word is R1 with its bits 24-30 replaced by the key, and bit 31 zero. One key joined with itself is that
// key.
#[inline(always)]
pub(crate) fn insert(
    settings: Settings,
    storage: &[u8],
    keys: &[u8],
    p: Processor,
    instruction: KeyInstruction,
    r1: u32,
) -> Answer
    requires { operation instruction ≡ KeyOperation.Insert r1 }
    ensures { outcome result storage.now keys.now p []
        ≡ step settings storage.now keys.now p (Request.Key instruction) [] }
{
    let sizes = Sizes::of(settings, storage, keys);
    lines(sizes, p, instruction)?;
    let block = block_of(sizes, p, instruction);
    let key = joined(keys[block.low], keys[block.high]);
    let word = r1 / 256 * 256 + key as u32;
    Ok(Completion {
        word,
        rule: block.rule,
    })
}

// ISK, on the key of the unit that holds a 2K block.
pub fn isk(
    settings: Settings,
    storage: &[u8],
    keys: &[u8],
    p: Processor,
    r1: u32,
    r2: u32,
) -> Answer
    ensures { outcome result storage.now keys.now p []
        ≡ step settings storage.now keys.now p (Request.Key (KeyInstruction.Isk r1 r2)) [] }
{
    insert(
        settings,
        storage,
        keys,
        p,
        KeyInstruction::Isk { r1, r2 },
        r1,
    )
}

// ISKE, on the two keys of a 4K block or, with the 4K facility, on its one key.
pub fn iske(
    settings: Settings,
    storage: &[u8],
    keys: &[u8],
    p: Processor,
    r1: u32,
    r2: u32,
) -> Answer
    ensures { outcome result storage.now keys.now p []
        ≡ step settings storage.now keys.now p (Request.Key (KeyInstruction.Iske r1 r2)) [] }
{
    insert(
        settings,
        storage,
        keys,
        p,
        KeyInstruction::Iske { r1, r2 },
        r1,
    )
}
