// The lines of the table of answers that a key instruction can meet, from top to bottom. Each that refuses returns early, for speed
// (docs/BENCHMARK.md).
ghost use Rattle.std.specs.Prelude.{◌≡◌};
ghost use Rattle.machine.specs.Table.{before_protection};

use crate::instruction::{address_invalid, designated, extended, low_bits_on};
use machine::{KeyInstruction, Processor, Reason, Request, Verdict};
use table::answers::refuse;
use table::numbers::Sizes;

// Lines 64, 65, 66, 1, 2, 19, 6 and 5.
#[inline(always)]
#[tactic(auto, using(crate::proofs::Lines::eight_lines), unfolding(machine::specs::Answers::first_of))]
pub(crate) fn lines(sizes: Sizes, p: Processor, instruction: KeyInstruction) -> Verdict
    ensures { result ≡ before_protection sizes.settings sizes.storage sizes.keys p (Request.Key instruction) 0 }
{
    let extended = extended(instruction);
    let block = designated(instruction);
    sizes.lines(p)?;
    refuse(Reason::Operand, address_invalid(instruction))?;
    refuse(Reason::Operation, extended & !sizes.settings.extensions)?;
    refuse(Reason::Privileged, p.problem)?;
    refuse(
        Reason::SpecialOperation,
        !extended & sizes.settings.four_k & !p.key_control,
    )?;
    refuse(Reason::Specification, low_bits_on(instruction))?;
    refuse(Reason::Addressing, sizes.storage <= block as usize)
}
