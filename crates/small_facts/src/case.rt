// A case of the table: the machine before a request of processor 0, and what is seen of it afterwards.
use crate::answers::Values;
use crate::state::{State, processor};
use machine::{AccessKind, KeyInstruction, PrefixInstruction, Processor, Request};

// Every byte of the buffer. Storage is zero before the request.
const BYTE: u8 = 0xA5;

#[derive(Clone, Copy)]
pub(crate) struct Case {
    processor: Processor,
    // The keys of the first two units; the others are zero.
    first_key: u8,
    second_key: u8,
    request: Request,
}

// Number, place, word and rule of the answer, the condition code, and the keys of the first two units.
#[derive(Clone, Copy)]
pub(crate) struct Seen {
    pub(crate) number: u32,
    pub(crate) place: u32,
    pub(crate) word: u32,
    pub(crate) rule: u32,
    pub(crate) code: u8,
    pub(crate) first_key: u8,
    pub(crate) second_key: u8,
}

pub(crate) fn fetch(address: u32, count: u32) -> Case {
    access(AccessKind::Fetch, address, count)
}

pub(crate) fn store(address: u32, count: u32) -> Case {
    access(AccessKind::Store, address, count)
}

fn access(kind: AccessKind, address: u32, count: u32) -> Case {
    Case::new(Request::Access {
        kind,
        address,
        count,
    })
}

pub(crate) fn key(instruction: KeyInstruction) -> Case {
    Case::new(Request::Key(instruction))
}

pub(crate) fn set_prefix(word: u32) -> Case {
    Case::new(Request::Prefix(PrefixInstruction::SetPrefix { word }))
}

impl Case {
    fn new(request: Request) -> Self {
        Case {
            processor: processor(0),
            first_key: 0,
            second_key: 0,
            request,
        }
    }

    pub(crate) fn psw_key(mut self, psw_key: u8) -> Self {
        self.processor.psw_key = psw_key;
        self
    }

    pub(crate) fn low_protection(mut self) -> Self {
        self.processor.low_protection = true;
        self
    }

    pub(crate) fn prefix(mut self, prefix: u32) -> Self {
        self.processor.prefix = prefix;
        self
    }

    pub(crate) fn keys(mut self, first: u8, second: u8) -> Self {
        self.first_key = first;
        self.second_key = second;
        self
    }

    // The state before the request.
    fn before(self) -> State {
        let mut state = State::new([self.processor, processor(0)]);
        state.keys[0] = self.first_key;
        state.keys[1] = self.second_key;
        state
    }

    // What the request answers, and what it leaves in its record and in the first two keys.
    pub(crate) fn seen(self) -> Seen {
        let mut state = self.before();
        let answer = state.serve(0, self.request, &mut [BYTE; 300]);
        let Values {
            number,
            place,
            word,
            rule,
        } = Values::from(answer);
        Seen {
            number,
            place,
            word,
            rule,
            code: state.processors[0].code,
            first_key: state.keys[0],
            second_key: state.keys[1],
        }
    }

    // The first absolute address at which the request changes storage; the length of storage where it changes none.
    pub(crate) fn absolute(self) -> usize {
        let mut state = self.before();
        let _ = state.serve(0, self.request, &mut [BYTE; 300]);
        state.first_written()
    }

    // Storage, keys, both records and the buffer are as they were.
    pub(crate) fn is_unchanged(self) -> bool {
        let before = self.before();
        let mut state = before;
        let mut buffer = [BYTE; 300];
        let _ = state.serve(0, self.request, &mut buffer);
        state == before && buffer == [BYTE; 300]
    }
}
