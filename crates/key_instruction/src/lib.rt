// The six key instructions over a lent key array: as one function that takes any of them, and in `insert`, `set` and `reset` as a function
// for each. The function for an instruction has its name and promises its step; the two that do the same share one function that does it.
// A type parameter in place of the two names would be no plainer: its values would need names that the manual lacks. Nor would a struct in place of
// settings, storage and keys: what is lent is written in part, and clauses would speak of what each field of the struct was lent from.
#![tactic(auto)]

ghost use Rattle.std.specs.Prelude.{◌≡◌, []};
ghost use Rattle.machine.specs.Step.{outcome, step};

use crate::insert::{isk, iske};
use crate::reset::reset;
use crate::set::{ssk, sske};
use machine::{KeyInstruction, Processor, Request, Served, Settings};

mod block;
mod checks;
pub mod insert;
mod instruction;
pub mod reset;
pub mod set;

// A key instruction of a processor with the record p: the step with an empty buffer, since it takes none. Of storage it looks at the
// length alone. Each instruction has an arm of its own, in which the compiler sees which it is, for speed (docs/BENCHMARK.md).
pub fn key_instruction(
    settings: Settings,
    storage: &[u8],
    keys: &mut [u8],
    p: Processor,
    instruction: KeyInstruction,
) -> Served
    ensures { outcome result.answer storage.now keys.new result.processor []
        ≡ step settings storage.now keys.old p (Request.Key instruction) [] }
{
    let mut processor = p;
    let answer = match instruction {
        KeyInstruction::Isk { r1, r2 } => isk(settings, storage, &keys[..], p, r1, r2),
        KeyInstruction::Ssk { r1, r2 } => ssk(settings, storage, keys, p, r1, r2),
        KeyInstruction::Rrb { .. } => reset(settings, storage, keys, &mut processor, instruction),
        KeyInstruction::Iske { r1, r2 } => iske(settings, storage, &keys[..], p, r1, r2),
        KeyInstruction::Sske { r1, r2 } => sske(settings, storage, keys, p, r1, r2),
        KeyInstruction::Rrbe { .. } => reset(settings, storage, keys, &mut processor, instruction),
    };
    Served { answer, processor }
}
