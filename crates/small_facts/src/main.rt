// The table of small facts and the examples of document 02, run through the storage unit: a line for each, with what came out of the unit.
#![tactic(auto)]

mod answers;
mod case;
mod orders;
mod state;

use case::{Case, fetch, key, set_prefix, store};
use machine::KeyInstruction;
use std::io;

fn prefixing(rt: &impl Print) -> io::Result<()> {
    println!(rt; "P1 absolute {}", store(4, 1).prefix(8192).absolute())?;
    println!(rt; "P2 absolute {}", store(8196, 1).prefix(8192).absolute())?;
    println!(rt; "P3 absolute {}", store(5000, 1).prefix(8192).absolute())
}

fn one_unit(rt: &impl Print) -> io::Result<()> {
    let fetch_3 = fetch(0, 1).psw_key(3);
    let store_3 = store(0, 1).psw_key(3);
    let store_8 = store(0, 1).psw_key(8);
    let p4 = fetch_3.keys(0x88, 0).seen();
    println!(rt;
        "P4 number {} place {} key {:02X}",
        p4.number, p4.place, p4.first_key
    )?;
    let p5 = fetch_3.keys(0x80, 0).seen();
    println!(rt; "P5 number {} key {:02X}", p5.number, p5.first_key)?;
    let p6 = store_3.keys(0x80, 0).seen();
    println!(rt; "P6 number {} key {:02X}", p6.number, p6.first_key)?;
    let p7 = store_8.keys(0x88, 0).seen();
    println!(rt; "P7 number {} key {:02X}", p7.number, p7.first_key)
}

fn two_units(rt: &impl Print) -> io::Result<()> {
    let store_0 = store(2047, 2).keys(0x30, 0x50);
    let store_3 = store_0.psw_key(3);
    let p8 = store_3.seen();
    let outcome = if store_3.is_unchanged() {
        "nothing changed"
    } else {
        "something changed"
    };
    println!(rt; "P8 number {} place {} {outcome}", p8.number, p8.place)?;
    let p9 = store_0.seen();
    println!(rt; "P9 keys {:02X} and {:02X}", p9.first_key, p9.second_key)
}

fn key_instructions(rt: &impl Print) -> io::Result<()> {
    let rrb = KeyInstruction::Rrb { address: 0 };
    let isk = KeyInstruction::Isk {
        r1: 0x12345678,
        r2: 0,
    };
    let iske = KeyInstruction::Iske { r1: 0, r2: 0 };
    let p10 = key(rrb).keys(0x8E, 0).seen();
    println!(rt; "P10 code {} key {:02X}", p10.code, p10.first_key)?;
    println!(rt; "P11 word {:08X}", key(isk).keys(0x8E, 0).seen().word)?;
    println!(rt; "P12 word {:08X}", key(iske).keys(0x84, 0x52).seen().word)
}

fn low_addresses(rt: &impl Print) -> io::Result<()> {
    let inside = store(511, 1).low_protection().seen();
    let outside = store(512, 1).low_protection().seen();
    println!(rt; "13 number {}; {}", inside.number, outside.number)?;
    let prefixed = store(8192, 1).low_protection().prefix(8192);
    println!(rt;
        "14 number {} absolute {}",
        prefixed.seen().number,
        prefixed.absolute()
    )
}

fn lengths(rt: &impl Print) -> io::Result<()> {
    let inside = fetch(65535, 1).seen();
    let outside = fetch(65535, 2).seen();
    println!(rt;
        "15 number {}; {} place {}",
        inside.number, outside.number, outside.place
    )?;
    let number = |count| store(0, count).seen().number;
    println!(rt; "17 number {}; {}; {}", number(0), number(256), number(257))
}

fn set_key(rt: &impl Print) -> io::Result<()> {
    let r1 = 0xFF;
    let whole = key(KeyInstruction::Ssk { r1, r2: 0x800 }).seen();
    let odd = key(KeyInstruction::Ssk { r1, r2: 0x801 }).seen();
    println!(rt;
        "18 second key {:02X}; number {}",
        whole.second_key, odd.number
    )
}

// Document 02: the example of W2, and the rules of W6.
fn examples(rt: &impl Print) -> io::Result<()> {
    let rrbe = KeyInstruction::Rrbe { r2: 0 };
    let w2 = key(rrbe).keys(0x84, 0x52).seen();
    println!(rt;
        "W2 code {} keys {:02X} and {:02X}",
        w2.code, w2.first_key, w2.second_key
    )?;
    rules(rt)
}

// The rules that answers carry: of real 4, 8196 and 5000 with prefix 8192; of an access that goes on in the prefix's block; of a key instruction
// with bits that are dropped; of real 4 with prefix 0; of a refused access; and of SET PREFIX.
fn rules(rt: &impl Print) -> io::Result<()> {
    let isk = KeyInstruction::Isk {
        r1: 0,
        r2: 0x01002000,
    };
    let rule = |case: Case| case.seen().rule;
    let prefixed = |case: Case| rule(case.prefix(8192));
    print!(rt; "W6 rules {}", prefixed(fetch(4, 1)))?;
    print!(rt;
        " {} {}",
        prefixed(fetch(8196, 1)),
        prefixed(fetch(5000, 1))
    )?;
    print!(rt; "; {}; {}", prefixed(fetch(8191, 2)), prefixed(key(isk)))?;
    print!(rt; "; {}", rule(fetch(4, 1)))?;
    let refused = fetch(65535, 2).prefix(8192).seen();
    print!(rt; "; number {} rule {}", refused.number, refused.rule)?;
    println!(rt; "; {}", rule(set_prefix(8192)))
}

fn main(rt: HostRuntime) -> io::Result<()> {
    prefixing(&rt)?;
    one_unit(&rt)?;
    two_units(&rt)?;
    key_instructions(&rt)?;
    low_addresses(&rt)?;
    lengths(&rt)?;
    set_key(&rt)?;
    orders::disjoint(&rt)?;
    orders::shared(&rt)?;
    examples(&rt)
}
