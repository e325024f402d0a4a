// SSK and SSKE: the key is set from R1; the record stays as it is.
ghost use Rattle.std.specs.Prelude.{◌≡◌, []};
ghost use Rattle.machine.specs.Step.{outcome, step};
ghost use Rattle.machine.specs.KeyInstructions.{operation};

use crate::block::block_of;
use crate::checks::lines;
use machine::{Answer, Completion, KeyInstruction, KeyOperation, Processor, Request, Settings};
use storage_key::key_in;
use table::numbers::Sizes;

// An instruction that sets. One key is written twice, with the same value.
#[inline(always)]
pub(crate) fn set(
    settings: Settings,
    storage: &[u8],
    keys: &mut [u8],
    p: Processor,
    instruction: KeyInstruction,
    r1: u32,
) -> Answer
    requires { operation instruction ≡ KeyOperation.Set r1 }
    ensures { outcome result storage.now keys.new p []
        ≡ step settings storage.now keys.old p (Request.Key instruction) [] }
{
    let sizes = Sizes::of(settings, storage, &keys[..]);
    lines(sizes, p, instruction)?;
    let block = block_of(sizes, p, instruction);
    let key = key_in(r1);
    keys[block.low] = key;
    keys[block.high] = key;
    Ok(Completion {
        word: 0,
        rule: block.rule,
    })
}

// SSK, on the key of the unit that holds a 2K block.
pub fn ssk(
    settings: Settings,
    storage: &[u8],
    keys: &mut [u8],
    p: Processor,
    r1: u32,
    r2: u32,
) -> Answer
    ensures { outcome result storage.now keys.new p []
        ≡ step settings storage.now keys.old p (Request.Key (KeyInstruction.Ssk r1 r2)) [] }
{
    set(
        settings,
        storage,
        keys,
        p,
        KeyInstruction::Ssk { r1, r2 },
        r1,
    )
}

// SSKE, on the two keys of a 4K block or, with the 4K facility, on its one key.
pub fn sske(
    settings: Settings,
    storage: &[u8],
    keys: &mut [u8],
    p: Processor,
    r1: u32,
    r2: u32,
) -> Answer
    ensures { outcome result storage.now keys.new p []
        ≡ step settings storage.now keys.old p (Request.Key (KeyInstruction.Sske r1 r2)) [] }
{
    set(
        settings,
        storage,
        keys,
        p,
        KeyInstruction::Sske { r1, r2 },
        r1,
    )
}
