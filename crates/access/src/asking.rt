// Who asks for an access, and line 4: a byte is forbidden by low-address protection, or by the key of its unit. An access asks for the permissions
// of its access key once, and for each of its units what they say.
ghost use Rattle.std.specs.Prelude.{◌≡◌};
ghost use Rattle.machine.specs.Protection.{forbidden};
ghost use Rattle.storage_key.specs.Entries.{permissions as permissions_of};
ghost use Rattle.access.specs.ByUnit.{lines_of_one, lines_of_two};

use crate::span::Span;
use machine::{AccessKind, Processor, Reason, Verdict};
use storage_key::{low_protected, permissions, permits};
use table::answers::{refuse, refuse_at};

// A processor that asks for an access of a kind, by its record.
#[derive(Clone, Copy)]
pub(crate) struct Asking {
    p: Processor,
    kind: AccessKind,
    // What its access key permits.
    allowed: u32,
    ghost by_access_key: { allowed ≡ permissions_of kind p.psw_key },
}

impl Asking {
    pub(crate) fn of(p: Processor, kind: AccessKind) -> Self
        ensures { (result.p ≡ p) × (result.kind ≡ kind) }
    {
        Asking {
            p,
            kind,
            allowed: permissions(kind, p.psw_key),
        }
    }

    // A byte with this real address and the key of its unit is forbidden.
    #[tactic(auto, using(storage_key::proofs::Entries::permits_permitted))]
    fn forbids(self, real: u32, key: u8) -> bool
        ensures { result ≡ forbidden self.kind self.p real key }
    {
        low_protected(self.kind, self.p, real) | !permits(self.allowed, key)
    }

    // Line 4 in one unit.
    #[tactic(auto, unfolding(crate::specs::ByUnit::lines_of_one))]
    pub(crate) fn lines_of_one(self, here: Span) -> Verdict
        ensures { result ≡ lines_of_one self.p self.kind here }
    {
        refuse(Reason::Protection, self.forbids(here.real, here.key))
    }

    // Line 4 in two units, byte k being the first in the second unit.
    #[tactic(auto, unfolding(crate::specs::ByUnit::lines_of_two, machine::specs::Answers::first_of))]
    pub(crate) fn lines_of_two(self, here: Span, k: u32, there: Span) -> Verdict
        ensures { result ≡ lines_of_two self.p self.kind here k there }
    {
        refuse_at(Reason::Protection, 0, self.forbids(here.real, here.key))?;
        refuse_at(Reason::Protection, k, self.forbids(there.real, there.key))
    }
}
