// The block that an instruction designates: the units of its keys, and the rule of prefixing.
ghost use Rattle.std.specs.Prelude.{◌≡◌};
ghost use Rattle.machine.specs.Answers.{Clear};
ghost use Rattle.machine.specs.Table.{before_protection};
ghost use Rattle.key_instruction.specs.Blocks.{Works};

use crate::instruction::{designated, two_keys};
use machine::{KeyInstruction, Processor, Request};
use prefixing::prefixed;
use table::numbers::{Sizes, unit_of};

// Where the keys of a block lie: the unit of the low-order key, that of the high-order one, and the rule that gave the block's address. One
// key is both.
#[derive(Clone, Copy)]
pub(crate) struct Block {
    pub low: usize,
    pub high: usize,
    pub rule: u32,
}

// The block of an instruction of a processor with the record p that no line of the table refuses. Its keys are in the key array.
#[inline(always)]
pub(crate) fn block_of(sizes: Sizes, p: Processor, instruction: KeyInstruction) -> Block
    requires { before_protection sizes.settings sizes.storage sizes.keys p (Request.Key instruction) 0 ≡ Clear }
    ensures { Works sizes.settings sizes.keys p instruction result }
{
    let at = prefixed(p.prefix, designated(instruction));
    let low = unit_of(sizes.settings, at.absolute as usize);
    let high = low + two_keys(sizes.settings, instruction) as usize;
    Block {
        low,
        high,
        rule: at.rule,
    }
}
