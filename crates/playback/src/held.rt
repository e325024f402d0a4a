// The bytes of a recording that are held: those that were read and not yet played, in the order in which they came.
ghost use Rattle.std.specs.Prelude.{ℕ, ◌≤◌, ◌≡◌, List, [], length, take, drop, OnErr};
ghost use Rattle.std.specs.Io.{StartsWith};

use std::io;
use std::io::Read;
use std::marker::Model;

// How many bytes are held at most.
const PIECE: usize = 32768;

// The first `count` bytes.
#[derive(Drop)]
pub(crate) struct Held {
    bytes: [u8; PIECE],
    count: usize,
}

impl Model for Held {
    ghost Value = { List ℕ };

    ghost view = { λ h. take h.count h.bytes };

    ghost invariant = { λ h. h.count ≤ 32768 };
}

impl Held {
    pub(crate) fn new() -> Self
        ensures { result ≡ [] }
    {
        Held {
            bytes: [0; PIECE],
            count: 0,
        }
    }

    pub(crate) fn as_slice(&self) -> &[u8]
        ensures { result.now ≡ self.now }
    {
        &self.bytes[..self.count]
    }

    // Reads behind the bytes that are held, and answers whether nothing comes behind them: there was room for more and none came.
    pub(crate) fn fill(&mut self, reader: &mut impl Read) -> io::Result<bool>
        ensures kept { StartsWith self.new self.old }
        ensures failed { OnErr result (self.new ≡ self.old) }
    {
        let room = &mut self.bytes[self.count..];
        let has_room = !room.is_empty();
        let more = reader.read(room)?;
        self.count += more;
        Ok(has_room && more == 0)
    }

    // Lets go of as many bytes in front.
    pub(crate) fn consume(&mut self, count: usize)
        requires { count ≤ length self.old }
        ensures { self.new ≡ drop count self.old }
    {
        self.bytes.copy_within(count..self.count, 0);
        self.count -= count;
    }
}
