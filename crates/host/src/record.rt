// Processor records in bytes: a record is read as two words, its state and its prefix, and written over its own bytes.
ghost use Rattle.std.specs.Prelude.{◌+◌, ◌*◌, ◌<◌, ◌≤◌, ◌≡◌};
ghost use Rattle.boundary.specs.Words.{word_at, record_of};
ghost use Rattle.host.specs.Writing.{prefix_put, record_put};

use boundary::RecordWords;
use machine::Processor;

// The number in the four bytes from `at` on, the least first. Of sixteen bytes none is past the end, which `house_record` has to test.
fn word_at(bytes: &[u8; 16], at: usize) -> u32
    requires { at ≤ 12 }
    ensures { result ≡ word_at bytes.now at }
{
    u32::from_le_bytes([bytes[at], bytes[at + 1], bytes[at + 2], bytes[at + 3]])
}

// The record of a request's processor in the bytes of the records: from where on it stands, and its two words.
#[derive(Clone, Copy)]
pub(crate) struct Own {
    pub(crate) at: usize,
    pub(crate) words: RecordWords,
    ghost within: { at ≤ 8 },
}

impl Own {
    // The record of the processor with this number.
    pub(crate) fn read(records: &[u8; 16], processor_number: usize) -> Self
        requires { processor_number < 2 }
        ensures at { result.at ≡ processor_number * 8 }
        ensures words { result.words ≡ record { state = word_at records.now result.at; prefix = word_at records.now (result.at + 4) } }
    {
        let at = processor_number * 8;
        let words = RecordWords {
            state: word_at(records, at),
            prefix: word_at(records, at + 4),
        };
        Own { at, words }
    }

    pub(crate) fn record(self) -> Processor
        ensures { result ≡ record_of self.words.state self.words.prefix }
    {
        self.words.into()
    }

    // Writes the prefix where it has changed.
    pub(crate) fn put_prefix(self, records: &mut [u8; 16], prefix: u32)
        ensures { records.new ≡ prefix_put records.old self.at self.words.prefix prefix }
    {
        if self.words.prefix != prefix {
            records[self.at + 4..self.at + 8].copy_from_slice(&prefix.to_le_bytes());
        }
    }

    // Writes the record q over the bytes of this one, from which it differs in condition code and prefix only. The code is written in every
    // case, since a test whether RRB has changed it would often be guessed wrong (docs/BENCHMARK.md).
    pub(crate) fn put(self, records: &mut [u8; 16], q: Processor)
        ensures { records.new ≡ record_put records.old self.at (record_of self.words.state self.words.prefix) q }
    {
        records[self.at + 2] = q.code;
        self.put_prefix(records, q.prefix);
    }
}
