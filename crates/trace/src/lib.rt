// The reader of a recording: the record in front of some bytes is a request, a remark or bad, or the recording is at its end. A record is a
// house record of kind 1 fetch, 2 store, 3 key instruction, 4 prefix instruction or 255 remark.
#![tactic(auto)]

ghost use Rattle.std.specs.Prelude.{◌≡◌};
ghost use Rattle.trace.specs.Trace.{size_of, kind_of, no_item, requested, access_in, key_in, prefix_in, remark_in, kind_read, read_of};

use house_record::fields::{byte, halfword, word};
use house_record::{Header, NoRecord, find};
use machine::{AccessKind, KeyInstruction, PrefixInstruction, Request};

// A record of a recording that is not bad. A size is that of the whole record.
#[derive(Clone, Copy, Debug, PartialEq, Eq)]
pub enum Item {
    // The data of a store are the bytes of the record from offset 11 on.
    Request {
        processor_number: usize,
        request: Request,
        size: usize,
    },
    Remark {
        size: usize,
    },
}

impl Item {
    // How many bytes the record has.
    pub fn size(self) -> usize
        ensures { result ≡ size_of self }
    {
        match self {
            Item::Request { size, .. } => size,
            Item::Remark { size } => size,
        }
    }
}

// Why neither stands in front.
#[derive(Clone, Copy, Debug, PartialEq, Eq)]
pub enum NoItem {
    // A bad record.
    Bad,
    // The end of the recording.
    End,
}

impl From<NoRecord> for NoItem {
    ghost from_gives = { λ why answer. answer ≡ no_item why };

    // A record cut short is bad.
    fn from(why: NoRecord) -> NoItem {
        match why {
            NoRecord::Short => NoItem::Bad,
            NoRecord::End => NoItem::End,
        }
    }
}

// The kind of a record.
#[derive(Clone, Copy, Debug, PartialEq, Eq)]
enum Kind {
    Access(AccessKind),
    Key,
    Prefix,
    Remark,
}

impl TryFrom<u32> for Kind {
    type Error = NoItem;

    ghost try_from_gives = { λ number answer. answer ≡ kind_of number };

    fn try_from(number: u32) -> Result<Kind, NoItem> {
        match number {
            1 => Ok(Kind::Access(AccessKind::Fetch)),
            2 => Ok(Kind::Access(AccessKind::Store)),
            3 => Ok(Kind::Key),
            4 => Ok(Kind::Prefix),
            255 => Ok(Kind::Remark),
            _ => Err(NoItem::Bad),
        }
    }
}

// The greatest length that is not bad. With it a record has 514 bytes.
pub const LENGTH_MAXIMUM: usize = 512;

// The most bytes of a remark.
const REMARK_MAXIMUM: usize = 256;

// Kinds 1 and 2: processor, address, length; then for a store exactly that many data bytes.
#[tactic(auto, using(crate::proofs::Bodies::accesses))]
fn access_in(kind: AccessKind, body: &[u8]) -> Result<Request, NoItem>
    ensures { requested body.now result ≡ access_in kind body.now }
{
    let count = halfword(body, 5);
    let data = match kind {
        AccessKind::Fetch => 0,
        AccessKind::Store => count as usize,
    };
    if body.len() != 7 + data {
        return Err(NoItem::Bad);
    }
    Ok(Request::Access {
        kind,
        address: word(body, 1),
        count,
    })
}

// Kind 3: processor, instruction, R1, R2 or address.
#[tactic(auto, using(crate::proofs::Bodies::keys))]
fn key_in(body: &[u8]) -> Result<Request, NoItem>
    ensures { requested body.now result ≡ key_in body.now }
{
    if body.len() != 10 {
        return Err(NoItem::Bad);
    }
    let r1 = word(body, 2);
    let r2 = word(body, 6);
    let instruction = match byte(body, 1) {
        0 => KeyInstruction::Isk { r1, r2 },
        1 => KeyInstruction::Ssk { r1, r2 },
        2 => KeyInstruction::Rrb { address: r2 },
        3 => KeyInstruction::Iske { r1, r2 },
        4 => KeyInstruction::Sske { r1, r2 },
        5 => KeyInstruction::Rrbe { r2 },
        _ => return Err(NoItem::Bad),
    };
    Ok(Request::Key(instruction))
}

// Kind 4: processor, 0 set or 1 store, word.
#[tactic(auto, using(crate::proofs::Bodies::prefixes))]
fn prefix_in(body: &[u8]) -> Result<Request, NoItem>
    ensures { requested body.now result ≡ prefix_in body.now }
{
    if body.len() != 6 {
        return Err(NoItem::Bad);
    }
    match byte(body, 1) {
        0 => Ok(Request::Prefix(PrefixInstruction::SetPrefix {
            word: word(body, 2),
        })),
        1 => Ok(Request::Prefix(PrefixInstruction::StorePrefix)),
        _ => Err(NoItem::Bad),
    }
}

// Kind 255.
#[tactic(auto, using(crate::proofs::Bodies::remarks))]
fn remark_in(body: &[u8]) -> Result<Item, NoItem>
    ensures { result ≡ remark_in body.now }
{
    if REMARK_MAXIMUM < body.len() {
        return Err(NoItem::Bad);
    }
    let size = 4 + body.len();
    Ok(Item::Remark { size })
}

// A record by the number of its kind and its body.
#[tactic(auto, using(crate::proofs::Bodies::by_number))]
fn read_kind(number: u32, body: &[u8]) -> Result<Item, NoItem>
    ensures { result ≡ kind_read number body.now }
{
    let request = match Kind::try_from(number)? {
        Kind::Access(kind) => access_in(kind, body)?,
        Kind::Key => key_in(body)?,
        Kind::Prefix => prefix_in(body)?,
        Kind::Remark => return remark_in(body),
    };
    Ok(Item::Request {
        processor_number: byte(body, 0) as usize,
        request,
        size: 4 + body.len(),
    })
}

// The record in front of the bytes.
#[tactic(auto, using(crate::proofs::Bodies::fronts))]
pub fn read_record(bytes: &[u8]) -> Result<Item, NoItem>
    ensures { result ≡ read_of bytes.now }
{
    let Header { length, kind } = find(bytes, 0)?;
    if LENGTH_MAXIMUM < length {
        return Err(NoItem::Bad);
    }
    read_kind(kind, &bytes[4..2 + length])
}
