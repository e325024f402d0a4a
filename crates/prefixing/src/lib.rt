// Addresses: the 24-bit addition that makes each byte's real address, and real to absolute.
#![tactic(auto)]

ghost use Rattle.std.specs.Prelude.{◌≡◌};
ghost use Rattle.machine.specs.Bits.{bits};
ghost use Rattle.machine.specs.Numbers.{add24 as sum24};
ghost use Rattle.machine.specs.Prefixing.{prefixed as prefixed_by, prefix_of};

use machine::Prefixed;
use table::numbers::ADDRESS_SPACE;

// The sum of two addresses in 24 bits, which wraps from 16,777,215 to 0 on purpose.
pub fn add24(a: u32, b: u32) -> u32
    ensures { result ≡ sum24 a b }
{
    a.wrapping_add(b) % ADDRESS_SPACE
}

// Bits 1-19 of an address: the number of its 4K block.
fn block_of(address: u32) -> u32
    ensures { result ≡ bits 1 19 address }
{
    address / 4096 % 524288
}

// A real address with prefixing applied: its absolute address, and the rule that gave it.
#[tactic(auto, using(machine::proofs::Prefixing::rule_1, machine::proofs::Prefixing::rule_2, machine::proofs::Prefixing::rule_3))]
pub fn prefixed(prefix: u32, real: u32) -> Prefixed
    ensures { result ≡ prefixed_by prefix real }
{
    let block = block_of(real);
    let prefix_block = block_of(prefix);
    if block == 0 {
        let absolute = real + prefix_block * 4096;
        return Prefixed { absolute, rule: 1 };
    }
    if block == prefix_block {
        let absolute = real - block * 4096;
        return Prefixed { absolute, rule: 2 };
    }
    Prefixed {
        absolute: real,
        rule: 3,
    }
}

// The prefix that a word holds: its bits 8-19.
pub fn prefix_of(word: u32) -> u32
    ensures { result ≡ prefix_of word }
{
    word / 4096 % 4096 * 4096
}
