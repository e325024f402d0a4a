// Facts 19 and 20: stores of both processors, with prefixes 0 and 4096, in different orders of turns.
use crate::state::{State, processor};
use machine::{AccessKind, Answer, Request};
use std::io;

// A turn: the processor with this number stores a byte at a real address.
#[derive(Clone, Copy)]
struct Turn {
    processor_number: usize,
    address: u32,
    byte: u8,
}

// What turns leave: the state, and the answer to each turn, in the order of the bytes that they store.
#[derive(Clone, Copy, PartialEq, Eq)]
struct End {
    state: State,
    answers: [(u8, Answer); 4],
}

fn start() -> State {
    State::new([processor(0), processor(4096)])
}

impl Turn {
    fn take(self, state: &mut State) -> Answer {
        let request = Request::Access {
            kind: AccessKind::Store,
            address: self.address,
            count: 1,
        };
        state.serve(self.processor_number, request, &mut [self.byte])
    }

    // The first absolute address that the turn alone changes; the length of storage where it changes none.
    fn absolute(self) -> usize {
        let mut state = start();
        let _ = self.take(&mut state);
        state.first_written()
    }
}

fn end_of(order: [Turn; 4]) -> End {
    let mut state = start();
    let mut answers = order.map(|turn| (turn.byte, turn.take(&mut state)));
    answers.sort_unstable_by_key(|(byte, _)| *byte);
    End { state, answers }
}

// Fact 19. Each processor takes two turns. Every order of them leaves the same storage, keys and records, and gives the same answers.
pub(crate) fn disjoint(rt: &impl Print) -> io::Result<()> {
    let turn = |processor_number, byte| Turn {
        processor_number,
        address: 0,
        byte,
    };
    let (a, b, c, d) = (turn(0, 1), turn(0, 2), turn(1, 3), turn(1, 4));
    let first = end_of([a, b, c, d]);
    let others = [
        [a, c, b, d],
        [a, c, d, b],
        [c, a, b, d],
        [c, a, d, b],
        [c, d, a, b],
    ];
    let outcome = if others.iter().all(|order| end_of(*order) == first) {
        "six orders agree"
    } else {
        "orders differ"
    };
    println!(rt; "19 absolute {}; {} {outcome}", a.absolute(), c.absolute())
}

// What stands at absolute 0 after two turns.
fn left_by(first: Turn, second: Turn) -> u8 {
    let mut state = start();
    let _ = first.take(&mut state);
    let _ = second.take(&mut state);
    state.storage[0]
}

// Fact 20.
pub(crate) fn shared(rt: &impl Print) -> io::Result<()> {
    let first = Turn {
        processor_number: 0,
        address: 0,
        byte: 1,
    };
    let second = Turn {
        processor_number: 1,
        address: 4096,
        byte: 2,
    };
    println!(rt;
        "20 absolute {}; {} first then second leaves {}; second then first {}",
        first.absolute(),
        second.absolute(),
        left_by(first, second),
        left_by(second, first)
    )
}
