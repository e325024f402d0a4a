// The storage unit: one request for one processor, one answer. What is lent is passed one by one: with a struct of the references, clauses would speak
// of what each field was lent from.
#![tactic(auto)]

pub mod prefix;

ghost use Rattle.std.specs.Prelude.{◌≡◌};
ghost use Rattle.machine.specs.Step.{outcome, step};
ghost use Rattle.machine.specs.Conditions.{Condition1, Condition2};

use crate::prefix::prefix_instruction;
use access::access;
use key_instruction::key_instruction;
use machine::{Completion, Processor, Reply, Request, Served, Settings};
use table::numbers::Sizes;

// One request for a processor with the record p, over lent storage, keys and buffer.
pub fn serve(
    settings: Settings,
    storage: &mut [u8],
    keys: &mut [u8],
    p: Processor,
    request: Request,
    buffer: &mut [u8],
) -> Served
    ensures { outcome result.answer storage.new keys.new result.processor buffer.new
        ≡ step settings storage.old keys.old p request buffer.old }
{
    match request {
        Request::Access {
            kind,
            address,
            count,
        } => {
            let answer = access(settings, storage, keys, p, kind, address, count, buffer);
            Served {
                answer,
                processor: p,
            }
        }
        Request::Key(instruction) => {
            key_instruction(settings, &storage[..], keys, p, instruction)
        }
        Request::Prefix(instruction) => {
            prefix_instruction(settings, &storage[..], &keys[..], p, instruction)
        }
    }
}

// One request that carries a processor's number. The pair of records goes in, and comes back with the answer as the request leaves it: one
// element at most is replaced. That the pair is an array by value is a form that the specification asks for (docs/DECISIONS.md).
pub fn request(
    settings: Settings,
    storage: &mut [u8],
    keys: &mut [u8],
    processors: [Processor; 2],
    processor_number: usize,
    request: Request,
    buffer: &mut [u8],
) -> Reply
    ensures condition_1 { Condition1 result.answer storage.old keys.old processors buffer.old
        storage.new keys.new result.processors buffer.new }
    ensures condition_2 { Condition2 settings storage.old keys.old processors processor_number request buffer.old
        result.answer storage.new keys.new result.processors buffer.new }
{
    if processor_number < 2 {
        let p = processors[processor_number];
        let served = serve(settings, storage, keys, p, request, buffer);
        let mut next = processors;
        next[processor_number] = served.processor;
        return Reply {
            answer: served.answer,
            processors: next,
        };
    }
    let refused = Sizes::of(settings, &storage[..], &keys[..]).lines_without_record();
    Reply {
        answer: refused.map(|_| Completion { word: 0, rule: 0 }),
        processors,
    }
}
