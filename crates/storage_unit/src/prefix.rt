// SET PREFIX and STORE PREFIX. They touch no storage, no key and no buffer.
ghost use Rattle.std.specs.Prelude.{◌≡◌, []};
ghost use Rattle.machine.specs.Table.{install_outside, before_protection};
ghost use Rattle.machine.specs.Step.{outcome, step};

use machine::{
    Answer, Completion, PrefixInstruction, Processor, Reason, Request, Served, Settings, Verdict,
};
use prefixing::prefix_of;
use table::answers::refuse;
use table::numbers::Sizes;

// Line 5: the block that SET PREFIX would install lies outside storage.
fn install_outside(storage_length: usize, instruction: PrefixInstruction) -> bool
    ensures { result ≡ install_outside storage_length instruction }
{
    match instruction {
        PrefixInstruction::SetPrefix { word } => storage_length <= prefix_of(word) as usize,
        PrefixInstruction::StorePrefix => false,
    }
}

// The lines of the table that a prefix instruction can meet: 64, 65, 2 and 5.
#[tactic(auto, using(crate::proofs::Prefixes::four_lines), unfolding(machine::specs::Answers::first_of))]
fn lines(sizes: Sizes, p: Processor, instruction: PrefixInstruction) -> Verdict
    ensures { result ≡ before_protection sizes.settings sizes.storage sizes.keys p (Request.Prefix instruction) 0 }
{
    let outside = install_outside(sizes.storage, instruction);
    sizes.lines(p)?;
    refuse(Reason::Privileged, p.problem)?;
    refuse(Reason::Addressing, outside)
}

// A prefix instruction of a processor whose record is lent.
fn perform(
    settings: Settings,
    storage: &[u8],
    keys: &[u8],
    p: &mut Processor,
    instruction: PrefixInstruction,
) -> Answer
    ensures { outcome result storage.now keys.now p.new []
        ≡ step settings storage.now keys.now p.old (Request.Prefix instruction) [] }
{
    lines(Sizes::of(settings, storage, keys), *p, instruction)?;
    let word = match instruction {
        PrefixInstruction::SetPrefix { word } => {
            p.prefix = prefix_of(word);
            0
        }
        PrefixInstruction::StorePrefix => prefix_of(p.prefix),
    };
    Ok(Completion { word, rule: 0 })
}

// A prefix instruction for a processor with the record p. It takes no buffer: it is the step with an empty one. Of storage and key array it
// looks at the lengths alone.
pub fn prefix_instruction(
    settings: Settings,
    storage: &[u8],
    keys: &[u8],
    p: Processor,
    instruction: PrefixInstruction,
) -> Served
    ensures { outcome result.answer storage.now keys.now result.processor []
        ≡ step settings storage.now keys.now p (Request.Prefix instruction) [] }
{
    let mut processor = p;
    let answer = perform(settings, storage, keys, &mut processor, instruction);
    Served { answer, processor }
}
