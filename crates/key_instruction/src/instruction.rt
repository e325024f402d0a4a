// What the rules say of each of the six instructions: which block it designates, what of its operands is refused, and on how many keys it works.
// Each is compiled into the function of an instruction, where the compiler knows which it is, for speed (docs/BENCHMARK.md).
ghost use Rattle.std.specs.Prelude.{◌≡◌};
ghost use Rattle.machine.specs.KeyInstructions.{extended as is_extended, designated, address_invalid, low_bits_on, two_keys};

use machine::{KeyInstruction, Settings};
use table::numbers::OPERAND_LIMIT;

// The instruction is one of the extended ones.
#[inline(always)]
pub(crate) fn extended(instruction: KeyInstruction) -> bool
    ensures { result ≡ is_extended instruction }
{
    matches!(
        instruction,
        KeyInstruction::Iske { .. } | KeyInstruction::Sske { .. } | KeyInstruction::Rrbe { .. }
    )
}

// The real address of the block: the 4K block of bits 1-19 of R2 for an extended instruction, else the 2K block of bits 8-20 of R2 or of the
// address of RRB.
#[inline(always)]
pub(crate) fn designated(instruction: KeyInstruction) -> u32
    ensures { result ≡ designated instruction }
{
    match instruction {
        KeyInstruction::Isk { r2: word, .. }
        | KeyInstruction::Ssk { r2: word, .. }
        | KeyInstruction::Rrb { address: word } => word / 2048 % 8192 * 2048,
        KeyInstruction::Iske { r2: word, .. }
        | KeyInstruction::Sske { r2: word, .. }
        | KeyInstruction::Rrbe { r2: word } => word / 4096 % 524288 * 4096,
    }
}

// The address of RRB has more than 24 bits.
#[inline(always)]
pub(crate) fn address_invalid(instruction: KeyInstruction) -> bool
    ensures { result ≡ address_invalid instruction }
{
    match instruction {
        KeyInstruction::Rrb { address } => address >= OPERAND_LIMIT,
        _ => false,
    }
}

// Any of bits 28-31 of R2 of ISK or SSK is on.
#[inline(always)]
pub(crate) fn low_bits_on(instruction: KeyInstruction) -> bool
    ensures { result ≡ low_bits_on instruction }
{
    match instruction {
        KeyInstruction::Isk { r2, .. } | KeyInstruction::Ssk { r2, .. } => r2 % 16 != 0,
        _ => false,
    }
}

// The instruction works on the two keys of a 4K block. In every other case it is one key.
#[inline(always)]
pub(crate) fn two_keys(settings: Settings, instruction: KeyInstruction) -> bool
    ensures { result ≡ two_keys settings instruction }
{
    extended(instruction) & !settings.four_k
}
