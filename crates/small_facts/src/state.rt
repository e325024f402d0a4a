// The state of a machine, and the requests that it serves.
use machine::{Answer, Processor, Request, Settings};

// 2K units, extensions present.
const SETTINGS: Settings = Settings {
    four_k: false,
    extensions: true,
};

// Storage, the keys of its units, and both records.
#[derive(Clone, Copy, PartialEq, Eq)]
pub(crate) struct State {
    pub(crate) storage: [u8; 65536],
    pub(crate) keys: [u8; 32],
    pub(crate) processors: [Processor; 2],
}

// A processor in supervisor state with PSW key 0 and bit 3 off.
pub(crate) fn processor(prefix: u32) -> Processor {
    Processor {
        psw_key: 0,
        problem: false,
        low_protection: false,
        key_control: false,
        prefix,
        code: 0,
    }
}

impl State {
    // Storage and keys zero.
    pub(crate) fn new(processors: [Processor; 2]) -> Self {
        State {
            storage: [0; 65536],
            keys: [0; 32],
            processors,
        }
    }

    // Serves a request of the processor with this number.
    pub(crate) fn serve(
        &mut self,
        processor_number: usize,
        request: Request,
        buffer: &mut [u8],
    ) -> Answer {
        let reply = storage_unit::request(
            SETTINGS,
            &mut self.storage,
            &mut self.keys,
            self.processors,
            processor_number,
            request,
            buffer,
        );
        let processors = reply.processors;
        self.processors = processors;
        reply.answer
    }

    // The first absolute address at which storage is not zero; the length of storage where there is none, since the number is printed as it is.
    pub(crate) fn first_written(&self) -> usize {
        let found = self.storage.iter().position(|byte| *byte != 0);
        found.unwrap_or(self.storage.len())
    }
}
