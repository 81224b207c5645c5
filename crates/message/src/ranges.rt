// From the least to the most that each field of a message may hold.
ghost use Rattle.std.specs.Prelude.{◌≡◌};
ghost use Rattle.message.specs.Ranges.{inside, confirmed, has_number, names_call, number_range, identity_range, address_range, error_range};

use crate::codes::{Kind, Operation};
use crate::record::Message;

// A span of numbers, both ends in it. Not `RangeInclusive`, which is an iterator too: it has a state of its own, and is not `Copy`.
#[derive(Clone, Copy)]
pub struct Span {
    least: u16,
    most: u16,
}

impl Span {
    pub(crate) fn contains(self, value: u16) -> bool
        ensures { result ≡ inside self value }
    {
        (self.least..=self.most).contains(&value)
    }
}

pub(crate) const LEG: Span = Span { least: 0, most: 31 };

// A field that does not apply is 0.
const ABSENT: Span = Span { least: 0, most: 0 };

// Any number of two bytes but 0.
const POSITIVE: Span = Span {
    least: 1,
    most: u16::MAX,
};

impl Operation {
    // Whether the operation is answered, by a result, an error or a reject.
    pub fn is_confirmed(self) -> bool
        ensures { result ≡ confirmed self }
    {
        matches!(
            self,
            Operation::CallTransferIdentify
                | Operation::CallTransferInitiate
                | Operation::CallTransferSetup
                | Operation::RemoteHold
                | Operation::RemoteRetrieve
        )
    }
}

impl Message {
    // Whether a request number stands in the message.
    pub fn has_number(&self) -> bool
        ensures { result ≡ has_number self.now.operation }
    {
        self.operation.is_some_and(Operation::is_confirmed)
    }

    // Whether the message names a call, by its identity and the address at which it is met.
    pub fn names_call(&self) -> bool
        ensures { result ≡ names_call self.now.kind self.now.operation }
    {
        match self.operation {
            Some(Operation::CallTransferIdentify) => self.kind == Kind::Result,
            Some(Operation::CallTransferInitiate | Operation::CallTransferSetup) => {
                self.kind == Kind::Invoke
            }
            _ => false,
        }
    }

    pub(crate) fn number_range(&self) -> Span
        ensures { result ≡ number_range self.now.operation }
    {
        if self.has_number() { POSITIVE } else { ABSENT }
    }

    // A transfer without a secondary call has identity 0.
    pub(crate) fn identity_range(&self) -> Span
        ensures { result ≡ identity_range self.now.kind self.now.operation }
    {
        match (self.kind, self.operation) {
            (Kind::Result, Some(Operation::CallTransferIdentify)) => Span {
                least: 1,
                most: 9999,
            },
            (Kind::Invoke, Some(Operation::CallTransferInitiate | Operation::CallTransferSetup)) =>
                Span {
                    least: 0,
                    most: 9999,
                },
            _ => ABSENT,
        }
    }

    pub(crate) fn address_range(&self) -> Span
        ensures { result ≡ address_range self.now.kind self.now.operation }
    {
        if self.names_call() { POSITIVE } else { ABSENT }
    }

    pub(crate) fn error_range(&self) -> Span
        ensures { result ≡ error_range self.now.kind }
    {
        match self.kind {
            Kind::Error => Span { least: 1, most: 5 },
            _ => ABSENT,
        }
    }
}
