// What numbers and bytes stand for at the boundary: settings, processor records, answers. A record is two words: its state, which is PSW key,
// controls, condition code and a zero, and its prefix.
#![tactic(auto)]

ghost use Rattle.std.specs.Prelude.{◌≡◌};
ghost use Rattle.boundary.specs.Boundary.{settings_of, Packs};
ghost use Rattle.boundary.specs.Words.{settings_in, state_valid, record_of};

use machine::{Answer, Completion, Processor, Reason, Refusal, Settings};

// The settings in a number: 1 the 4K facility, 2 the extensions. A function and no `From`, since neither type is this crate's.
pub fn settings_of(word: u32) -> Settings
    ensures { result ≡ settings_of word }
{
    Settings {
        four_k: word / 1 % 2 == 1,
        extensions: word / 2 % 2 == 1,
    }
}

// The settings in a number, which line 64 refuses where another bit is on.
pub fn settings_in(word: u32) -> Result<Settings, Refusal>
    ensures { result ≡ settings_in word }
{
    if word < 4 {
        Ok(settings_of(word))
    } else {
        Err(Refusal {
            reason: Reason::Configuration,
            place: 0,
        })
    }
}

// The two words of a processor's record.
#[derive(Clone, Copy, Debug, PartialEq, Eq)]
pub struct RecordWords {
    pub state: u32,
    pub prefix: u32,
}

impl RecordWords {
    // The state is one that a processor can have: reserved bits zero, the PSW key at most 15, the condition code at most 3.
    // Written so that the compiler makes one test of the four (docs/BENCHMARK.md).
    pub fn is_valid(self) -> bool
        ensures { result ≡ state_valid self.state }
    {
        let state = self.state;
        (state / 256 % 256 < 8)
            & (state / 16777216 == 0)
            & (state % 256 <= 15)
            & (state / 65536 % 256 <= 3)
    }
}

impl From<RecordWords> for Processor {
    ghost from_gives = { λ words p. p ≡ record_of words.state words.prefix };

    // Of a state that is not valid, PSW key and condition code are remainders by 16 and 4.
    fn from(words: RecordWords) -> Processor
        ensures { result ≡ record_of words.state words.prefix }
    {
        let RecordWords { state, prefix } = words;
        let controls = state / 256 % 256;
        Processor {
            psw_key: (state % 16) as u8,
            problem: controls / 1 % 2 == 1,
            low_protection: controls / 2 % 2 == 1,
            key_control: controls / 4 % 2 == 1,
            prefix,
            code: (state / 65536 % 4) as u8,
        }
    }
}

// The answer packed in one number, with the answer's own number as its highest sixteen bits. A function and no `From`, since neither type is this
// crate's.
pub fn pack(answer: Answer) -> u64
    ensures { Packs result answer }
{
    match answer {
        Ok(Completion { word, rule }) => rule as u64 % 256 * 1099511627776 + word as u64,
        Err(Refusal { reason, place }) => {
            u32::from(reason) as u64 * 281474976710656 + place as u64 % 256 * 4294967296
        }
    }
}
